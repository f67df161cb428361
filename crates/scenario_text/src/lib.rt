//! Scenario documents: a TOML text becomes a checked program and the plan of what is to be run of it, or the
//! first of its failing checks.
//!
//! Read `specs/` first, in the order `Kinds`, `Keys`, `Values`, `Form`, `Events`, `Regions`, `OfProgram`, `Plan`,
//! `Scenario`: which keys a document has and what stands at them, its checks in their order, the plan that it
//! gives, and what [`read`] answers. `Accepted` says what an accepted document is held to, and `Lines` what a user
//! reads of a refused one. `Steps` is for the contracts of private functions alone. That a text is a TOML document,
//! and which table it is, is the definition of the crate `toml`.
//!
//! Nothing here compiles or runs a program, or says which commands take which documents.
#![tactic(auto)]

mod event;
mod fault;
mod form;
mod key;
mod keys;
mod kind;
mod limit;
mod number;
mod plan;
mod program;
mod region;
mod request;
mod rest;
mod scenario;
mod table;
mod value;
mod words;

pub use fault::DocFault;
pub use form::MOST_WORK;
pub use key::KeyRule;
pub use kind::{Entry, Kind};
pub use plan::{Plan, PlanRegion, PlanRegions};
pub use region::MOST_BYTES;
pub use scenario::{Scenario, read};
