//! Tests of the meaning of iterators that are read from text: one iteration, and a flat run. No command runs these calls.
//!
//! They stand in a crate of their own, since a crate with tests is proved twice.
#![tactic(auto)]

#[cfg(test)]
mod iterations;
#[cfg(test)]
mod walks;
