//! The verifier of PULSE's code, and what code does when it runs.
//!
//! Read [`verify`] first: code that it accepts has one load, jumps only forward, names only bytes and
//! registers that are there, and always comes to an end. `specs/Run.antt` has the run of code, and
//! `specs/Rules.antt` the rules that are kept at each place. The crate takes no memory.
#![tactic(auto)]

mod bad;
mod law;
mod rules;
mod verifier;

pub use bad::{Bad, BadKind, Sizes};
pub use law::verified_runs;
pub use verifier::verify;
