//! The instructions of PULSE's machine, one variant each.
//!
//! Read [`Instr`] first: each variant carries its row of the instruction table, its opcode, its text
//! and what it does. [`row_of`] gives that row, and [`Operands`] are the shapes of its operands: words, the listing and
//! the verifier's rules on registers and jumps go by the shape. `docs/machine.md` has the machine around it.
#![tactic(auto)]

mod instr;
mod listing;
mod row;
mod word;

pub use instr::Instr;
pub use listing::line;
pub use row::{Operands, Row, row_of};
pub use word::{from_word, to_word};
