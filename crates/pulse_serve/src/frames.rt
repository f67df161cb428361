// Frames over a link.

ghost use Rattle.std.specs.Prelude.{◌≡◌, ◌≢◌, ◌≤◌, true, false, [], ◌∷◌, length, IfOk};
ghost use Rattle.pulse_base.specs.Outside.{HasCause};
ghost use Rattle.frame_codec.specs.Spelling.{MeetsRules};
ghost use Rattle.pulse_serve.specs.Frames.{Received, Posts, CameFits, letter};

use frame_codec::{Frame, decode, encode};
use pulse_base::{Failed, Got, Link};

/// The bytes of a buffer for frames, of which the longest has 286.
pub const ROOM: usize = 512;

/// What a receive took.
#[derive(Clone, Copy, Debug, PartialEq, Eq)]
pub enum Came {
    /// No frame came.
    Gap,
    /// Bytes that are no frame.
    Noise,
    Frame(Frame),
}

/// Takes the next item.
pub fn receive<L: Link>(link: &mut L, buf: &mut [u8], wait: bool) -> Result<Came, Failed>
    requires { 512 ≤ length buf.old }
    ensures came { Received (L.traffic link.old) (L.traffic link.new) wait result }
    ensures fits { IfOk result CameFits }
    ensures cause { HasCause (L.faults link.old) (L.faults link.new) result }
{
    match link.receive(buf, wait) {
        Err(Failed) => Err(Failed),
        Ok(Got::Nothing) => Ok(Came::Gap),
        Ok(Got::Frame { len, .. }) => match decode(&buf[..len]) {
            Ok(frame) => Ok(Came::Frame(frame)),
            Err(_) => Ok(Came::Noise),
        },
    }
}

/// Sends a frame.
pub fn post<L: Link>(link: &mut L, port: u16, frame: &Frame) -> Result<(), Failed>
    requires { MeetsRules frame.now }
    ensures sent { Posts (L.traffic link.old) (L.traffic link.new) (letter port frame.now ∷ []) result }
    ensures cause { HasCause (L.faults link.old) (L.faults link.new) result }
{
    link.send(port, encode(frame).as_slice())
}

/// Whether an item is a Stop.
pub fn is_stop(item: &Came) -> bool
    ensures stop { result ≡ true → item.now ≡ Came.Frame Frame.Stop }
    ensures other { result ≡ false → item.now ≢ Came.Frame Frame.Stop }
{
    matches!(item, Came::Frame(Frame::Stop))
}
