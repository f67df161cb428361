//! Iterators as straight code: loops are written out turn by turn, a let is a slot, an argument its
//! number, and a field of the record or of the pad an offset and a width.
//!
//! [`unroll`] gives the straight code of an iterator of an accepted program, and [`span`] the least
//! interval of the record that this code uses. Read `specs/` first: `Flat` says what straight code means,
//! by the values and the ways out of `iter_check`'s definitions; `Tree` reads the types of the code as such
//! code; `Limits` says what it may name, how deep it is and how many nodes it has; `Uses` and `Span` which
//! bytes of the record it uses; `Unrolled` what the answer of [`unroll`] is held to. What stands in
//! `specs/unrolling` serves the proofs alone: how names are looked up while a program is written out.
//!
//! Nothing here refuses a program, runs one, or knows a machine's instructions.
#![tactic(auto)]

mod block;
mod bounds;
mod expr;
mod field;
mod index;
mod refused;
mod scope;
mod stmt;
mod tree;
mod whole;

pub use bounds::span;
pub use tree::{Flat, FlatBlock, FlatExpr, FlatStmt, FlatUse};
pub use whole::unroll;
