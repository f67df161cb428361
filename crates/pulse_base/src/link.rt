// Where frames come from and go to.

ghost use Rattle.std.specs.Prelude.{◌≤◌, ℕ, Option, length, IfOk};
ghost use Rattle.pulse_base.specs.Outside.{HasCause};
ghost use Rattle.pulse_base.specs.Link.{Traffic, Binds, Sends, Receives, WithinBuffer};

use crate::source::Failed;

/// What a receive answers.
#[derive(Clone, Copy, Debug, PartialEq, Eq)]
pub enum Got {
    /// A frame from this port: the first `len` bytes of the buffer.
    Frame { port: u16, len: usize },
    /// No frame came.
    Nothing,
}

/// A link that carries frames between ports of this machine, and may tell its traffic.
pub trait Link {
    /// What is to come, what was taken, sent and bound, where it is told.
    ghost traffic: { Self → Option Traffic };

    /// How often a call has failed: it never falls, and stands still at 2^64 − 1.
    ghost faults: { Self → ℕ };

    /// Takes frames that are sent to the port from now on.
    fn bind(&mut self, port: u16) -> Result<(), Failed>
        ensures traffic { Binds (traffic self.old) (traffic self.new) port result }
        ensures cause { HasCause (faults self.old) (faults self.new) result };

    /// Sends a frame to a port.
    fn send(&mut self, port: u16, frame: &[u8]) -> Result<(), Failed>
        ensures traffic { Sends (traffic self.old) (traffic self.new) port frame.now result }
        ensures cause { HasCause (faults self.old) (faults self.new) result };

    /// Takes the next frame, cut to the buffer's length, or nothing where none is there. With `wait` it waits a while
    /// for one.
    fn receive(&mut self, buf: &mut [u8], wait: bool) -> Result<Got, Failed>
        requires { 512 ≤ length buf.old }
        ensures within { IfOk result (λ got. WithinBuffer got buf.new) }
        ensures traffic { Receives (traffic self.old) (traffic self.new) wait buf.new result }
        ensures cause { HasCause (faults self.old) (faults self.new) result };
}
