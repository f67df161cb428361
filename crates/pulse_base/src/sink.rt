// Where bytes go.

ghost use Rattle.std.specs.Prelude.{◌≤◌, ◌<◌, ℕ, List, Option, length, IfOk};
ghost use Rattle.pulse_base.specs.Outside.{HasCause, Gives, Appends};

use crate::source::Failed;

/// A sink of bytes, which may tell what it took.
pub trait Sink {
    /// The bytes taken so far, where they are told.
    ghost taken: { Self → Option (List ℕ) };

    /// How often a call has failed: it never falls, and stands still at 2^64 − 1.
    ghost faults: { Self → ℕ };

    /// Takes a nonempty front of the piece and gives its length, or fails and takes nothing.
    fn write(&mut self, piece: &[u8]) -> Result<usize, Failed>
        requires { 0 < length piece.now }
        ensures bound { IfOk result (λ n. (0 < n) × (n ≤ length piece.now)) }
        ensures bytes { Gives (taken self.old) (taken self.new) piece.now result }
        ensures cause { HasCause (faults self.old) (faults self.new) result };
}

/// Appends all the bytes, in as many writes as the sink wants, or a front of them and fails.
pub fn write_all<W: Sink>(out: &mut W, bytes: &[u8]) -> Result<(), Failed>
    ensures bytes { Appends (W.taken out.old) (W.taken out.new) bytes.now result }
    ensures cause { HasCause (W.faults out.old) (W.faults out.new) result }
{
    let mut at = 0;
    'pieces: while at < bytes.len() {
        at += out.write(&bytes[at..])?;
    }
    Ok(())
}
