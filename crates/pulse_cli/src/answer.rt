// Which command the words are, and what it tells of its input.

ghost use Rattle.std.specs.Prelude.{◌≡◌, ◌≢◌, false, Err, map, IfOk, IfErr};
ghost use Rattle.std.specs.String.{string_bytes};
ghost use Rattle.pulse_cli.specs.Sides.{sides};
ghost use Rattle.pulse_cli.specs.Steps.{Answered, ComesEarly, IsInRange, IsWhole};
ghost use Rattle.pulse_cli.specs.Uses.{uses_kids, uses_net, uses_yard};
ghost use Rattle.pulse_words.specs.Words.{IsCommand, IsSomeCommand};

use crate::document::{drill_shape, replay_document, walk_document, write_shape};
use crate::failure::Failure;
use crate::images::{list, verify};
use crate::processes::{ask_process, cluster_process, node_process, switch_process};
use crate::program::{compile, format, lay_out};
use node_core::Yard;
use pulse_base::{Bytes, Link, Spawner};
use pulse_process::Told;
use pulse_words::{Command, WordsFault, read_words};
use std::alloc::Global;

/// The command of the words.
pub(crate) fn command_of(alloc: Global, words: &[String]) -> Result<Command, Failure>
    ensures command { IfOk result (λ command. IsCommand (map string_bytes words.now) command) }
    ensures usage { result ≡ Err Failure.Usage → ¬ IsSomeCommand (map string_bytes words.now) }
    ensures other { IfErr result (λ failure. ¬ (failure ≡ Failure.Usage) → failure ≡ Failure.Memory) }
{
    match read_words(alloc, words) {
        Ok(command) => Ok(command),
        Err(WordsFault::Usage) => Err(Failure::Usage),
        Err(WordsFault::Memory) => Err(Failure::Memory),
    }
}

// The text of a command that is no process is whole.
fn whole(text: Result<Bytes, Failure>) -> Result<Told, Failure>
    ensures { IsWhole text result }
{
    match text {
        Ok(text) => Ok(Told {
            text,
            finished: true,
        }),
        Err(failure) => Err(failure),
    }
}

/// What a command tells of its input.
pub(crate) fn answer<L: Link, S: Spawner, Y: Yard>(
    alloc: Global,
    command: &Command,
    text: &[u8],
    net: &mut L,
    kids: &mut S,
    yard: &mut Y,
) -> Result<Told, Failure>
    requires { IsInRange command.now }
    ensures answered { Answered command.now text.now
        (sides (Y.returned yard.old) (Y.returned yard.new) (L.traffic net.old) (L.traffic net.new) (L.faults net.old) (L.faults net.new)
        (S.family kids.old) (S.family kids.new) (S.faults kids.old) (S.faults kids.new)) result }
    ensures counts { result ≢ Err Failure.Link → result ≢ Err Failure.Child → result ≢ Err Failure.Memory → (L.faults net.new ≡ L.faults net.old) × (S.faults kids.new ≡ S.faults kids.old) }
    ensures yard { uses_yard command.now ≡ false → yard.new ≡ yard.old }
    ensures net { uses_net command.now ≡ false → net.new ≡ net.old }
    ensures kids { uses_kids command.now ≡ false → kids.new ≡ kids.old }
    ensures early { IfErr result (λ failure. ComesEarly failure → (yard.new ≡ yard.old) × (net.new ≡ net.old) × (kids.new ≡ kids.old)) }
{
    match command {
        Command::Walk => whole(walk_document(alloc, text, yard)),
        Command::Replay => whole(replay_document(alloc, text, yard)),
        Command::Check => whole(lay_out(alloc, text)),
        Command::Format => whole(format(alloc, text)),
        Command::Compile(name) => whole(compile(alloc, text, name.as_slice())),
        Command::List => whole(list(alloc, text)),
        Command::Verify => whole(verify(alloc, text)),
        Command::Shape(shape) => whole(write_shape(alloc, shape)),
        Command::Drill(shape) => whole(drill_shape(alloc, shape, yard)),
        Command::Node { node, turns } => node_process(alloc, text, *node, *turns, net, yard),
        Command::Switch { turns } => switch_process(alloc, text, *turns, net),
        Command::Ask { client, turns } => ask_process(alloc, text, *client, *turns, net),
        Command::Cluster { turns } => cluster_process(alloc, text, *turns, net, kids),
    }
}
