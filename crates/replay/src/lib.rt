//! Replays: from a document to the report of its schedule's run.
//!
//! Read [`replay`] first, then `specs/Report.antt`: what the report is, and what is said of order, memory and answers by a flat run
//! that knows no nodes. `Answer` says what is answered of a text. [`run_scenario`] is the same without texts. `specs/inner` is for
//! the contracts of private functions alone.
#![tactic(auto)]

mod arguments;
mod document;
mod making;
mod running;
mod scenario;
mod telling;

pub use document::replay;
pub use scenario::{Replayed, run_scenario};
