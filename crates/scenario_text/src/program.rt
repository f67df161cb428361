// The program of a document.

ghost use Rattle.std.specs.Prelude.{◌≤◌, length};
ghost use Rattle.scenario_text.specs.Steps.{ProgramAnswer};

use crate::fault::DocFault;
use iter_check::{CheckError, Checked, check};
use iter_syntax::{SyntaxFault, parse};
use std::alloc::Global;

/// The program of a text, where it is accepted.
pub(crate) fn read_program(alloc: Global, text: &[u8]) -> Result<Checked, DocFault>
    requires { length text.now ≤ 65536 }
    ensures { ProgramAnswer text.now result }
{
    let program = match parse(alloc, text) {
        Ok(program) => program,
        Err(SyntaxFault::Memory) => return Err(DocFault::Memory),
        Err(fault) => return Err(DocFault::Program(fault)),
    };
    match check(alloc, program) {
        Ok(checked) => Ok(checked),
        Err(CheckError::Fault { kind, place }) => Err(DocFault::Check { kind, place }),
        Err(CheckError::Memory) => Err(DocFault::Memory),
    }
}
