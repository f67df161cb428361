// The input of a command.

ghost use Rattle.std.specs.Prelude.{◌≡◌, true, false};
ghost use Rattle.pulse_cli.specs.Ending.{seen};
ghost use Rattle.pulse_cli.specs.Steps.{ReadsInput};
ghost use Rattle.pulse_cli.specs.Uses as u;

use crate::failure::{Failure, Refusal};
use pulse_base::{Bytes, ReadAll, Source, read_all};
use pulse_words::Command;
use std::alloc::Global;

/// The most bytes of an input.
pub const MOST_INPUT: usize = 67_108_864;

// Whether a command has an input.
fn reads_input(command: &Command) -> bool
    ensures { result ≡ u.reads_input command.now }
{
    match command {
        Command::Shape(_) => false,
        Command::Drill(_) => false,
        _ => true,
    }
}

/// The whole input of a command; nothing where it has none.
pub(crate) fn read_input<R: Source>(
    alloc: Global,
    command: &Command,
    input: &mut R,
) -> Result<Bytes, Failure>
    ensures reads { ReadsInput (u.reads_input command.now) (seen (R.left input.old) (R.faults input.old)) (seen (R.left input.new) (R.faults input.new)) result }
    ensures untouched { u.reads_input command.now ≡ false → input.new ≡ input.old }
{
    if !reads_input(command) {
        return Ok(Bytes::new(alloc));
    }
    match read_all(alloc, input, MOST_INPUT) {
        Ok(text) => Ok(text),
        Err(ReadAll::Fault) => Err(Failure::Read),
        Err(ReadAll::TooLong) => Err(Failure::Refused(Refusal::Long)),
        Err(ReadAll::Memory) => Err(Failure::Memory),
    }
}
