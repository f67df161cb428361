// From tree to text: the printed form of a program.

mod decl;
mod expr;
mod stmt;
mod text;

ghost use Rattle.std.specs.Prelude.{◌≡◌, IfOk};
ghost use Rattle.iter_syntax.specs.Printed.{printed};
ghost use Rattle.iter_syntax.specs.Bare.{ReadsBack};

use crate::tree::Program;
use decl::put_program;
use pulse_base::{Bytes, Memory};
use std::alloc::Global;

/// The printed form of a program: its tokens in order, numbers in decimal, parentheses only where the grouping
/// needs them; behind `;`, `{` and `}` stands a line's end and behind every other token a space. Records and
/// iterators stand in the order of their places. The text of a program that [`crate::parse`] gave is a text of
/// that program again, but for its places. The work grows with the text.
pub fn print(alloc: Global, program: &Program) -> Result<Bytes, Memory>
    ensures text { IfOk result (λ t. t ≡ printed program.now) }
    ensures reads_back { ReadsBack program.now }
{
    let mut text = Bytes::new(alloc);
    put_program(&mut text, program)?;
    Ok(text)
}
