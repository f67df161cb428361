// What a run asks of each of its nodes.

ghost use Rattle.std.specs.Prelude.{◌≡◌, ◌≢◌, ◌<◌, ◌≤◌, ◌↔◌, [], length, IsTrue};
ghost use Rattle.node_core.specs.Part.{IsPart, HasAccepted, HasTurned, IsFirst, IsHere, HoldsRange, IsRange};

use frame_codec::{Back, Leg};
use leg_ledger::LegKey;
use run_rules::Accepted;

/// What a turn did.
#[derive(Clone, Copy, Debug, PartialEq, Eq)]
pub enum Turned {
    /// The leg of this name made an iteration, and ended with this back if there is one.
    Iterated { key: LegKey, back: Option<Back> },
    /// A part of an iteration of this leg was made.
    Part { key: LegKey },
    /// This leg waits for another.
    Waits { key: LegKey },
    /// No leg is live.
    Idle,
}

/// A node, as a run sees it. At every moment, before and after each call, it is as `IsPart` says.
pub trait NodePart: Drop {
    ghost use Rattle.std.specs.Prelude.{ℕ, Bool};
    ghost use Rattle.node_core.specs.Part.{PartState};

    /// Its regions, images, slots, kept replies and live legs.
    ghost state: { Self → PartState };

    /// A number that each turn other than Idle lowers.
    ghost rest: { Self → ℕ };

    /// Whether each turn is an iteration of the first live leg. No call changes it.
    ghost plain: { Self → Bool };

    /// Accepts a leg, by the rules. Memory stands in the place of Started alone.
    fn accept(&mut self, leg: &Leg) -> Accepted
        requires { 1 ≤ leg.now.left }
        ensures accepts { HasAccepted result (state self.old) (state self.new) leg.now }
        ensures plain { plain self.new ≡ plain self.old }
        ensures was { IsPart (state self.old) }
        ensures is { IsPart (state self.new) };

    /// Makes one turn. Takes no memory.
    fn turn(&mut self) -> Turned
        ensures turns { HasTurned result (state self.old) (state self.new) }
        ensures first { IsTrue (plain self.old) → IsFirst result (state self.old) }
        ensures rest { result ≢ Turned.Idle → rest self.new < rest self.old }
        ensures plain { plain self.new ≡ plain self.old }
        ensures was { IsPart (state self.old) }
        ensures is { IsPart (state self.new) };

    /// Whether no leg is live. Takes no memory.
    fn is_idle(&self) -> bool
        ensures idle { IsTrue result ↔ ((state self.now).node.live ≡ []) }
        ensures is { IsPart (state self.now) };

    /// Whether the region of this number is here. Takes no memory.
    fn has_region(&self, region: u16) -> bool
        ensures here { IsTrue result ↔ IsHere (state self.now) region }
        ensures is { IsPart (state self.now) };

    /// Copies bytes of a region that is here, from `at` on. Takes no memory.
    fn read_region(&self, region: u16, at: usize, out: &mut [u8])
        requires { HoldsRange (state self.now) region at (length out.old) }
        ensures bytes { IsRange (state self.now) region at out.new }
        ensures is { IsPart (state self.now) };
}
