//! Tests of the top call: a walk, and every way in which a source or a sink fails it.
//!
//! They stand in a crate of their own, since a crate with tests is proved twice.
#![tactic(auto)]

#[cfg(test)]
mod failures;
