//! The machine that runs the verified code of images.
//!
//! Read [`iterate`] first: one run of an image's body at a record. [`begin`] runs its init. Both are exactly the run
//! of the code as `code_verify` defines it; they take no memory, and test nothing that the verifier has shown.
#![tactic(auto)]

mod begin_walk;
mod context;
mod jumps;
mod numbers;
mod registers;
mod run;
mod step;
#[cfg(test)]
mod tests;
mod whole;

pub use begin_walk::{Begun, begin};
pub use context::{Context, Ended, iterate};
