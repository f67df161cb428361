// Where bytes come from.

ghost use Rattle.std.specs.Prelude.{◌≤◌, ◌<◌, ℕ, List, Option, length, IfOk};
ghost use Rattle.pulse_base.specs.Outside.{HasCause, Takes};

/// The one fault of the outside.
#[derive(Clone, Copy, Debug, PartialEq, Eq)]
pub struct Failed;

/// A source of bytes, which may tell what it has left.
pub trait Source {
    /// The bytes that are left, where they are told.
    ghost left: { Self → Option (List ℕ) };

    /// How often a call has failed: it never falls, and stands still at 2^64 − 1.
    ghost faults: { Self → ℕ };

    /// Takes between 1 and `buf.len()` bytes from the front; 0 means that none is left. A call that fails takes nothing.
    fn read(&mut self, buf: &mut [u8]) -> Result<usize, Failed>
        requires { 0 < length buf.old }
        ensures bound { IfOk result (λ n. n ≤ length buf.new) }
        ensures bytes { Takes (left self.old) (left self.new) buf.new result }
        ensures cause { HasCause (faults self.old) (faults self.new) result };
}
