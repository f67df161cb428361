//! Frames on the wire: legs on their way, and the backs that end them.
//!
//! Read [`Frame`] first, then [`encode`] and [`decode`]. Each frame has one spelling, which
//! `specs/Spelling.antt` says, and neither direction takes memory. Nothing here knows who sends a frame,
//! or what becomes of it.
#![tactic(auto)]

mod bad_frame;
mod checks;
mod decoding;
mod encoding;
mod frame;
mod header;

pub use bad_frame::BadFrame;
pub use decoding::decode;
pub use encoding::encode;
pub use frame::{Back, Ending, Frame, Leg};
