//! Drills: a document that is made from a number is replayed, and a summary of that is told.
//!
//! Read [`drill`] first, then `specs/Summary.antt`: the five lines of a summary. `Answer` says what is answered of a shape.
//! `specs/inner` is for the contracts of private functions alone. That the document of a shape is accepted is not proved:
//! the answer says which of its checks fails, if one does.
#![tactic(auto)]

mod document;
mod summary;
mod tally;

pub use document::drill;
