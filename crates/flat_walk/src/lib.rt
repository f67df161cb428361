//! From the text of a document that asks for one walk to its report.
//!
//! Read [`walk`] first, then `specs/Report.antt`: what the report of a walk is, by the flat run of its iterator, which knows no
//! nodes. `Form` says which documents ask for one walk, and which schedule of one event is run for it; `Answer` what is answered of
//! a text; `Lines` what a user reads of a refused one; and `Laws` that a scenario has at most one report. What is run of a scenario
//! is defined in `scenario_flat`.
//!
//! A walk is the replay of the ask of its request: `replay` runs that event and the drain on nodes that a yard makes, so that a
//! walk runs the code that a cluster runs. Since the drain leaves no request waiting, and gives up none, the request has the answer
//! that it is due.
#![tactic(auto)]

mod document;
mod fault;
mod laws;

pub use document::walk;
pub use fault::WalkFault;
pub use laws::law_one_report;
