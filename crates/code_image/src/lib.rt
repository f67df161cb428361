//! Images: compiled iterators, whose code is verified, in memory and as bytes.
//!
//! Read [`Image`] first: what is true of every image stands at its fields. `specs/Spelling.antt` says which bytes
//! spell an image, `specs/Checks.antt` how other bytes are refused.
#![tactic(auto)]

mod decoding;
mod encoding;
mod fault;
mod header;
mod image;
mod lister;
mod words;

pub use decoding::decode;
pub use encoding::encode;
pub use fault::ImageFault;
pub use image::{Code, Image, Images};
pub use lister::listing;
