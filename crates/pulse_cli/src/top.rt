// The top call.

ghost use Rattle.std.specs.Prelude.{◌≡◌, ◌≢◌, Err, IfErr, OnErr, map};
ghost use Rattle.std.specs.String.{string_bytes};
ghost use Rattle.pulse_cli.specs.Ending.{seen, Comes, Ends, IsEarly};
ghost use Rattle.pulse_cli.specs.Sides.{sides};
ghost use Rattle.pulse_cli.specs.Steps.{ComesEarly};
ghost use Rattle.pulse_cli.specs.Uses.{Names, reads_input, uses_kids, uses_net, uses_yard};
ghost use Rattle.pulse_words.specs.Words.{IsSomeCommand};

use crate::answer::{answer, command_of};
use crate::failure::{Failure, fail};
use crate::input::read_input;
use node_core::Yard;
use pulse_base::{Link, Sink, Source, Spawner, Status, write_all};
use std::alloc::Global;

/// Runs the command that the words name, without the program's own name, and answers its status. A status other than
/// `Ok` has its one line on `err`, and a failed write of that line makes the status `WriteFault`. Nothing is written to
/// `out` but the whole output, or a front of it where a write failed. An end of the outside that the command does not need is not
/// called: `yard` makes the nodes of a run and is given them back, `net` carries the frames of a process, and `kids` are the
/// processes of a cluster.
pub fn pulse<R: Source, W: Sink, E: Sink, L: Link, S: Spawner, Y: Yard>(
    alloc: Global,
    words: &[String],
    input: &mut R,
    out: &mut W,
    err: &mut E,
    net: &mut L,
    kids: &mut S,
    yard: &mut Y,
) -> Status
    ensures ends { Ends (map string_bytes words.now)
        (seen (R.left input.old) (R.faults input.old)) (seen (R.left input.new) (R.faults input.new))
        (seen (W.taken out.old) (W.faults out.old)) (seen (W.taken out.new) (W.faults out.new))
        (seen (E.taken err.old) (E.faults err.old)) (seen (E.taken err.new) (E.faults err.new))
        (sides (Y.returned yard.old) (Y.returned yard.new) (L.traffic net.old) (L.traffic net.new) (L.faults net.old) (L.faults net.new)
        (S.family kids.old) (S.family kids.new) (S.faults kids.old) (S.faults kids.new)) result }
    ensures counts { result ≢ Status.LinkFault → result ≢ Status.ChildFault → result ≢ Status.Memory → result ≢ Status.WriteFault → (L.faults net.new ≡ L.faults net.old) × (S.faults kids.new ≡ S.faults kids.old) }
    ensures nothing_written { result ≢ Status.Ok → result ≢ Status.TurnsUsed → result ≢ Status.WriteFault → out.new ≡ out.old }
    ensures usage { ¬ IsSomeCommand (map string_bytes words.now) → out.new ≡ out.old }
    ensures input { ¬ Names reads_input (map string_bytes words.now) → input.new ≡ input.old }
    ensures yard { ¬ Names uses_yard (map string_bytes words.now) → yard.new ≡ yard.old }
    ensures net { ¬ Names uses_net (map string_bytes words.now) → net.new ≡ net.old }
    ensures kids { ¬ Names uses_kids (map string_bytes words.now) → kids.new ≡ kids.old }
    ensures early { IsEarly result → (yard.new ≡ yard.old) × (net.new ≡ net.old) × (kids.new ≡ kids.old) }
{
    match run(alloc, words, input, out, net, kids, yard) {
        Ok(()) => Status::Ok,
        Err(failure) => fail(alloc, err, failure),
    }
}

// Runs the command, up to its failure.
fn run<R: Source, W: Sink, L: Link, S: Spawner, Y: Yard>(
    alloc: Global,
    words: &[String],
    input: &mut R,
    out: &mut W,
    net: &mut L,
    kids: &mut S,
    yard: &mut Y,
) -> Result<(), Failure>
    ensures comes { Comes (map string_bytes words.now)
        (seen (R.left input.old) (R.faults input.old)) (seen (R.left input.new) (R.faults input.new))
        (seen (W.taken out.old) (W.faults out.old)) (seen (W.taken out.new) (W.faults out.new))
        (sides (Y.returned yard.old) (Y.returned yard.new) (L.traffic net.old) (L.traffic net.new) (L.faults net.old) (L.faults net.new)
        (S.family kids.old) (S.family kids.new) (S.faults kids.old) (S.faults kids.new)) result }
    ensures counts { result ≢ Err Failure.Link → result ≢ Err Failure.Child → result ≢ Err Failure.Memory → (L.faults net.new ≡ L.faults net.old) × (S.faults kids.new ≡ S.faults kids.old) }
    ensures nothing_written { OnErr result (result ≢ Err Failure.Turns → result ≢ Err Failure.Write → out.new ≡ out.old) }
    ensures usage { ¬ IsSomeCommand (map string_bytes words.now) → out.new ≡ out.old }
    ensures input { ¬ Names reads_input (map string_bytes words.now) → input.new ≡ input.old }
    ensures yard { ¬ Names uses_yard (map string_bytes words.now) → yard.new ≡ yard.old }
    ensures net { ¬ Names uses_net (map string_bytes words.now) → net.new ≡ net.old }
    ensures kids { ¬ Names uses_kids (map string_bytes words.now) → kids.new ≡ kids.old }
    ensures early { IfErr result (λ failure. ComesEarly failure → (yard.new ≡ yard.old) × (net.new ≡ net.old) × (kids.new ≡ kids.old)) }
{
    let command = command_of(alloc, words)?;
    let text = read_input(alloc, &command, input)?;
    let told = match answer(alloc, &command, text.as_slice(), net, kids, yard) {
        Ok(told) => told,
        Err(failure) => return Err(failure),
    };
    match write_all(out, told.text.as_slice()) {
        Ok(()) => {}
        Err(_) => return Err(Failure::Write),
    }
    if told.finished {
        Ok(())
    } else {
        Err(Failure::Turns)
    }
}
