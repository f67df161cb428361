// The loop of the switch.

ghost use Rattle.std.specs.Prelude.{◌≡◌, ◌≢◌, ◌≤◌, length, All, Some};
ghost use Rattle.pulse_base.specs.Outside.{HasCause, Rose};
ghost use Rattle.switch_core.specs.Owners.{IsNode};
ghost use Rattle.pulse_serve.specs.Frames.{Over, Posts, CameFits};
ghost use Rattle.pulse_serve.specs.Runs.{Serves};
ghost use Rattle.pulse_serve.specs.SwitchRun.{passed_on, switch_loop};
ghost use Rattle.pulse_serve.specs.inner.Steps.{Goes};

use crate::frames::{Came, ROOM, is_stop, post, receive};
use crate::served::Served;
use frame_codec::Frame;
use pulse_base::{Failed, Link};
use switch_core::{Out, Switch};

// Sends what the switch makes of an item.
fn pass_on<L: Link>(link: &mut L, switch: &Switch, port: u16, item: &Came) -> Result<(), Failed>
    requires port { port ≤ 65000 }
    requires nodes { All IsNode switch.now.owners }
    requires clients { switch.now.clients ≤ 16 }
    requires fits { CameFits item.now }
    ensures sent { Posts (L.traffic link.old) (L.traffic link.new) (passed_on port switch.now item.now) result }
    ensures cause { HasCause (L.faults link.old) (L.faults link.new) result }
{
    let frame = match item {
        Came::Frame(frame) => frame,
        Came::Gap => return Ok(()),
        Came::Noise => return Ok(()),
    };
    match switch.on(frame) {
        Out::ToNode(node, leg) => post(link, port + 1 + node, &Frame::Leg(leg)),
        Out::ToClient(client, back) => post(link, port + 65 + client, &Frame::Back(back)),
        Out::Nothing => Ok(()),
    }
}

// One turn: none where the loop goes on.
fn take_turn<L: Link>(link: &mut L, switch: &Switch, port: u16, buf: &mut [u8]) -> Option<Served>
    requires port { port ≤ 65000 }
    requires nodes { All IsNode switch.now.owners }
    requires clients { switch.now.clients ≤ 16 }
    requires room { 512 ≤ length buf.old }
    ensures turn { Over (L.traffic link.old) (L.traffic link.new) (Goes (switch_loop port) result switch.now switch.now) }
    ensures fault { result ≡ Some Served.LinkFault → Rose (L.faults link.old) (L.faults link.new) }
    ensures kept { result ≢ Some Served.LinkFault → L.faults link.new ≡ L.faults link.old }
{
    let item = match receive(link, buf, true) {
        Ok(item) => item,
        Err(Failed) => return Some(Served::LinkFault),
    };
    if is_stop(&item) {
        return Some(Served::Stopped);
    }
    match pass_on(link, switch, port, &item) {
        Ok(()) => None,
        Err(Failed) => Some(Served::LinkFault),
    }
}

/// Serves as the switch for so many turns at most. A turn waits for an item and sends what the switch makes of it: a leg
/// for node n to `port + 1 + n`, a back for client c to `port + 65 + c`. A Stop ends the loop.
pub fn serve_switch<L: Link>(link: &mut L, switch: &Switch, port: u16, turns: u64) -> Served
    requires port { port ≤ 65000 }
    requires nodes { All IsNode switch.now.owners }
    requires clients { switch.now.clients ≤ 16 }

    // What was taken and sent is the served run; each end has its cause.
    ensures serves { Over (L.traffic link.old) (L.traffic link.new) (λ rs ss. Serves (switch_loop port) turns result switch.now rs switch.now ss) }
    ensures fault { result ≡ Served.LinkFault → Rose (L.faults link.old) (L.faults link.new) }
    ensures kept { result ≢ Served.LinkFault → L.faults link.new ≡ L.faults link.old }
{
    let mut buf = [0; ROOM];
    let mut made = 0;
    'turns: while made < turns {
        match take_turn(link, switch, port, &mut buf) {
            Some(served) => return served,
            None => made += 1,
        }
    }
    Served::TurnsUsed
}
