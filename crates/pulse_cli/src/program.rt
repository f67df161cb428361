// The commands on the text of a program.

ghost use Rattle.std.specs.Prelude.{◌≤◌, ◌<◌, length, IfOk, IfErr};
ghost use Rattle.iter_syntax.specs.Parsed.{IsProgramOf};
ghost use Rattle.pulse_cli.specs.Answers.{AnswersCheck, AnswersCompile, AnswersFormat, HasProgram, SpellsIter};
ghost use Rattle.pulse_cli.specs.Steps.{Gives, IsOfProgram};

use crate::failure::{Failure, Refusal};
use code_image::encode;
use iter_check::{CheckError, Checked, check};
use iter_syntax::{Program, SyntaxFault, parse, print};
use layout_text::layout;
use pulse_base::{Bytes, Memory};
use pulse_codegen::build;
use std::alloc::Global;

const MOST_TEXT: usize = 65_536;

/// The printed form of the program of a text.
pub(crate) fn format(alloc: Global, text: &[u8]) -> Result<Bytes, Failure>
    ensures { Gives (AnswersFormat text.now) result }
{
    let checked = match checked_program(alloc, text) {
        Ok(checked) => checked,
        Err(failure) => return Err(failure),
    };
    match print(alloc, checked.program()) {
        Ok(printed) => Ok(printed),
        Err(_) => Err(Failure::Memory),
    }
}

/// The lines of the records and iterators of the program of a text.
pub(crate) fn lay_out(alloc: Global, text: &[u8]) -> Result<Bytes, Failure>
    ensures { Gives (AnswersCheck text.now) result }
{
    let checked = match checked_program(alloc, text) {
        Ok(checked) => checked,
        Err(failure) => return Err(failure),
    };
    match layout(alloc, &checked) {
        Ok(lines) => Ok(lines),
        Err(_) => Err(Failure::Memory),
    }
}

/// The bytes of an image that means the iterator of a name.
pub(crate) fn compile(alloc: Global, text: &[u8], name: &[u8]) -> Result<Bytes, Failure>
    ensures { Gives (AnswersCompile name.now text.now) result }
{
    let checked = match checked_program(alloc, text) {
        Ok(checked) => checked,
        Err(failure) => return Err(failure),
    };
    let number = match checked.iter_index(name) {
        Some(number) => number,
        None => return Err(Failure::Refused(Refusal::Iter)),
    };
    match image_bytes(alloc, checked, number) {
        Ok(bytes) => Ok(bytes),
        Err(_) => Err(Failure::Memory),
    }
}

// The bytes of the image of the iterator of a number.
fn image_bytes(alloc: Global, checked: Checked, number: usize) -> Result<Bytes, Memory>
    requires there { number < length (checked).iters }
    ensures { IfOk result (SpellsIter checked number) }
{
    let built = build(alloc, checked)?;
    encode(alloc, built.image(number))
}

// The program of a text, which is accepted.
fn checked_program(alloc: Global, text: &[u8]) -> Result<Checked, Failure>
    ensures program { IfOk result (λ checked. HasProgram text.now checked) }
    ensures refused { IfErr result (IsOfProgram text.now) }
{
    if text.len() > MOST_TEXT {
        return Err(Failure::Refused(Refusal::ProgramLimit));
    }
    match parse(alloc, text) {
        Ok(program) => accepted(alloc, text, program),
        Err(SyntaxFault::Lex(place)) => Err(Failure::Refused(Refusal::Lex(place))),
        Err(SyntaxFault::Deep(place)) => Err(Failure::Refused(Refusal::Deep(place))),
        Err(SyntaxFault::Syntax(place)) => Err(Failure::Refused(Refusal::Syntax(place))),
        Err(SyntaxFault::Memory) => Err(Failure::Memory),
    }
}

// The program of the text, where it is accepted.
fn accepted(alloc: Global, _text: &[u8], program: Program) -> Result<Checked, Failure>
    requires short { length _text.now ≤ 65536 }
    requires parsed { IsProgramOf _text.now program }
    ensures program { IfOk result (λ checked. HasProgram _text.now checked) }
    ensures refused { IfErr result (IsOfProgram _text.now) }
{
    match check(alloc, program) {
        Ok(checked) => Ok(checked),
        Err(CheckError::Fault { kind, place }) => Err(Failure::Refused(Refusal::Check {
            kind,
            place,
        })),
        Err(CheckError::Memory) => Err(Failure::Memory),
    }
}
