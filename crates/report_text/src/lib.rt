//! The report of a run as bytes.
//!
//! Read [`Outcome`] first, then `specs/Report.antt`: [`report`] writes just that text. Nothing here runs anything.
#![tactic(auto)]

mod answer;
mod outcome;
mod region;
mod text;
mod trace;
mod writer;

pub use answer::answer_line;
pub use outcome::{OutRegion, OutRegions, Outcome};
pub use region::region_line;
pub use writer::report;
