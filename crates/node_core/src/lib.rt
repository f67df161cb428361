//! A node: it holds regions of the memory, accepts legs, and runs an iteration of one of them at each turn.
//!
//! Read [`NodePart`] first: what a run asks of each node, by the rules of `run_rules` with the run of verified code as
//! the outcome of an iteration. [`Node`] is the one that runs each leg to the end of its iteration. A [`Yard`] makes
//! nodes and takes them back. What a reader must believe stands in `specs/`; `specs/inner` is what only proofs use.
//!
//! Nothing here knows of a socket, of letters or of the schedule.
#![tactic(auto)]

mod held;
mod iterating;
mod laws;
mod node;
mod part;
mod yard;

pub use laws::law_parts_are_orderly;
pub use node::Node;
pub use part::{NodePart, Turned};
pub use run_rules::{Accepted, NodeRegion, NodeRegions};
pub use yard::{MemYard, NodeYard, Yard};
