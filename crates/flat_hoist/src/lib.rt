//! Straight code that reads a field once, where other code reads it often.
//!
//! [`hoist`] looks for fields of the record and of the pad, or elements of them, that end and next read often and never
//! store over. While a slot is free, end begins with a read of such a field into it, and the slot stands for each other
//! read: a slot is a register, and a field in the record or the pad costs an instruction each time. Slots carry over from
//! end to next. A read has no effect and no fault, so it may come early, and where none was.
//!
//! Read `specs/Hoisted.antt` first: when straight code stands for other straight code. That is all that a reader must
//! believe. Which fields get a slot is no part of it: this bears on speed alone. What stands in `specs/hoisting` serves
//! the proofs: `Fields` says what a field holds and which bytes miss it, `Swapped` is code with the slot in place of the
//! reads, `Clear` says which code leaves field and slot alone, `Reads` how often a field is read, and `Hoists` when one
//! may have a slot.
#![tactic(auto)]

mod clear;
mod count;
mod field;
mod fields;
mod slots;
mod swap;

pub use slots::hoist;
