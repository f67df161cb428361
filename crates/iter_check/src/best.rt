// The first of the faults that are found.

ghost use Rattle.std.specs.Prelude.{◌≡◌};
ghost use Rattle.iter_check.specs.Faults.{before};
ghost use Rattle.iter_check.specs.First.Least as first;

use crate::kind::{CheckKind, Fault};
use iter_syntax::Place;

fn rank(kind: CheckKind) -> u8
    ensures { result ≡ Rattle.iter_check.specs.Faults.rank kind }
{
    match kind {
        CheckKind::Name => 0,
        CheckKind::Typing => 1,
        CheckKind::Path => 2,
        CheckKind::RecordSize => 3,
        CheckKind::PadSize => 4,
        CheckKind::ArgCount => 5,
        CheckKind::LocalCount => 6,
        CheckKind::Depth => 7,
        CheckKind::LoopTurns => 8,
        CheckKind::Count => 9,
        CheckKind::Code => 10,
        CheckKind::Index => 11,
    }
}

// Whether the first of two faults is listed before the second.
fn before(f: Fault, g: Fault) -> bool
    ensures { result ≡ before f g }
{
    f.place < g.place || f.place == g.place && rank(f.kind) < rank(g.kind)
}

/// Keeps the first of the fault that is known and of one at a place, where the test holds.
pub(crate) fn note(best: &mut Option<Fault>, kind: CheckKind, place: Place, holds: bool)
    ensures { best.new ≡ first.note kind place holds best.old }
{
    if holds {
        let fault = Fault {
            kind,
            place: place.0,
        };
        match *best {
            None => {
                *best = Some(fault);
            }
            Some(known) => {
                if before(fault, known) {
                    *best = Some(fault);
                }
            }
        }
    }
}
