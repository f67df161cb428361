// From text to tree: recursive descent that looks one token ahead.

mod decl;
mod expr;
mod reader;
mod stmt;

ghost use Rattle.std.specs.Prelude.{◌≡◌, ◌≤◌, ◌+◌, ◌<◌, length, slice_get};
ghost use Rattle.iter_syntax.specs.Parsed.{ParseAnswer, HasOneProgram, offset_of};
ghost use Rattle.iter_syntax.specs.Steps.Reads.{TokensParsed};

use crate::fault::SyntaxFault;
use crate::token::Token;
use crate::tokens::tokens;
use crate::tree::{Place, Program};
use decl::read_program;
use reader::Refused;
use std::alloc::Global;

/// The program of a text, or the first of its faults: what begins no token, what stands too deep, or
/// the first token with which the tokens so far begin no program. The work grows with the text.
pub fn parse(alloc: Global, text: &[u8]) -> Result<Program, SyntaxFault>
    requires { length text.now ≤ 65536 }
    ensures answer { ParseAnswer text.now result }
    ensures one_program { HasOneProgram text.now }
{
    match tokens(alloc, text) {
        Ok(found) => parse_tokens(alloc, found.as_slice(), text.len() as u32),
        Err(fault) => Err(fault),
    }
}

/// The program of a whole token list, in a text that ends at `end`.
fn parse_tokens(alloc: Global, tokens: &[Token], end: u32) -> Result<Program, SyntaxFault>
    ensures { TokensParsed end tokens.now result }
{
    match read_program(alloc, tokens, 0, tokens.len() + 1) {
        Err(Refused::Memory) => Err(SyntaxFault::Memory),
        Err(Refused::At(at)) => Err(SyntaxFault::Syntax(offset(tokens, at, end))),
        Ok((program, at)) => {
            if at < tokens.len() {
                Err(SyntaxFault::Syntax(offset(tokens, at, end)))
            } else {
                Ok(program)
            }
        }
    }
}

/// The byte offset of the token with this number, or the text's length behind the last one.
fn offset(tokens: &[Token], at: usize, end: u32) -> u32
    ensures { result ≡ offset_of end (slice_get tokens.now at) }
{
    if at >= tokens.len() {
        return end;
    }
    let Place(place) = tokens[at].place;
    place
}
