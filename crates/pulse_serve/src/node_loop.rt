// The loop of a node.

ghost use Rattle.std.specs.Prelude.{◌≡◌, ◌≢◌, ◌≤◌, length, Some};
ghost use Rattle.pulse_base.specs.Outside.{HasCause, Rose};
ghost use Rattle.pulse_serve.specs.Frames.{Over, CameFits};
ghost use Rattle.pulse_serve.specs.Runs.{Serves};
ghost use Rattle.pulse_serve.specs.NodeRun.{node_loop};
ghost use Rattle.pulse_serve.specs.inner.Steps.{Goes, Heard, Stepped};

use crate::frames::{Came, ROOM, is_stop, post, receive};
use crate::served::Served;
use frame_codec::{Frame, Leg};
use node_core::{Accepted, NodePart, Turned};
use pulse_base::{Failed, Link};

// Accepts a leg and sends what it is answered with: none where the loop goes on.
fn accept<L: Link, N: NodePart>(link: &mut L, node: &mut N, port: u16, leg: &Leg) -> Option<Served>
    requires { 1 ≤ leg.now.left }
    ensures heard { Heard port (N.state node.old) (Came.Frame (Frame.Leg leg.now)) (N.state node.new) (L.traffic link.old) (L.traffic link.new) result }
    ensures fault { result ≡ Some Served.LinkFault → Rose (L.faults link.old) (L.faults link.new) }
    ensures kept { result ≢ Some Served.LinkFault → L.faults link.new ≡ L.faults link.old }
    ensures plain { N.plain node.new ≡ N.plain node.old }
{
    match node.accept(leg) {
        Accepted::Answer(back) => match post(link, port, &Frame::Back(back)) {
            Ok(()) => None,
            Err(Failed) => Some(Served::LinkFault),
        },
        Accepted::Elsewhere => match post(link, port, &Frame::Leg(*leg)) {
            Ok(()) => None,
            Err(Failed) => Some(Served::LinkFault),
        },
        Accepted::Memory => Some(Served::Memory),
        Accepted::Foreign => None,
        Accepted::Running => None,
        Accepted::Full => None,
        Accepted::Started => None,
    }
}

// Hears an item, of which a leg alone says something to a node.
fn hear<L: Link, N: NodePart>(link: &mut L, node: &mut N, port: u16, item: &Came) -> Option<Served>
    requires { CameFits item.now }
    ensures heard { Heard port (N.state node.old) item.now (N.state node.new) (L.traffic link.old) (L.traffic link.new) result }
    ensures fault { result ≡ Some Served.LinkFault → Rose (L.faults link.old) (L.faults link.new) }
    ensures kept { result ≢ Some Served.LinkFault → L.faults link.new ≡ L.faults link.old }
    ensures plain { N.plain node.new ≡ N.plain node.old }
{
    match item {
        Came::Frame(Frame::Leg(leg)) => accept(link, node, port, leg),
        Came::Frame(Frame::Back(_)) => None,
        Came::Frame(Frame::Stop) => None,
        Came::Gap => None,
        Came::Noise => None,
    }
}

// One turn of the node, whose back is sent.
fn step<L: Link, N: NodePart>(link: &mut L, node: &mut N, port: u16) -> Result<(), Failed>
    ensures stepped { Stepped (N.plain node.old) port (N.state node.old) (N.state node.new) (L.traffic link.old) (L.traffic link.new) result }
    ensures cause { HasCause (L.faults link.old) (L.faults link.new) result }
    ensures plain { N.plain node.new ≡ N.plain node.old }
{
    match node.turn() {
        Turned::Iterated { back, .. } => match back {
            Some(back) => post(link, port, &Frame::Back(back)),
            None => Ok(()),
        },
        Turned::Part { .. } => Ok(()),
        Turned::Waits { .. } => Ok(()),
        Turned::Idle => Ok(()),
    }
}

// One turn of the loop: none where it goes on.
fn take_turn<L: Link, N: NodePart>(
    link: &mut L,
    node: &mut N,
    port: u16,
    buf: &mut [u8],
) -> Option<Served>
    requires room { 512 ≤ length buf.old }
    ensures turn { Over (L.traffic link.old) (L.traffic link.new) (Goes (node_loop (N.plain node.old) port) result (N.state node.old) (N.state node.new)) }
    ensures fault { result ≡ Some Served.LinkFault → Rose (L.faults link.old) (L.faults link.new) }
    ensures kept { result ≢ Some Served.LinkFault → L.faults link.new ≡ L.faults link.old }
    ensures plain { N.plain node.new ≡ N.plain node.old }
{
    let wait = node.is_idle();
    let item = match receive(link, buf, wait) {
        Ok(item) => item,
        Err(Failed) => return Some(Served::LinkFault),
    };
    if is_stop(&item) {
        return Some(Served::Stopped);
    }
    match hear(link, node, port, &item) {
        Some(served) => return Some(served),
        None => {}
    }
    match step(link, node, port) {
        Ok(()) => None,
        Err(Failed) => Some(Served::LinkFault),
    }
}

/// Serves as a node for so many turns at most. A turn takes an item, waiting for it exactly where no leg is live. A leg is
/// accepted, and a back that it is answered with, or the leg where it is elsewhere, goes to the switch. Then the node
/// makes one turn, and the back of a leg that ended goes to the switch. A Stop ends the loop before that.
pub fn serve_node<L: Link, N: NodePart>(
    link: &mut L,
    node: &mut N,
    switch_port: u16,
    turns: u64,
) -> Served
    // What was taken, done and sent is the served run; each end has its cause.
    ensures serves { Over (L.traffic link.old) (L.traffic link.new) (λ rs ss. Serves (node_loop (N.plain node.old) switch_port) turns result (N.state node.old) rs (N.state node.new) ss) }
    ensures fault { result ≡ Served.LinkFault → Rose (L.faults link.old) (L.faults link.new) }
    ensures kept { result ≢ Served.LinkFault → L.faults link.new ≡ L.faults link.old }
    ensures plain { N.plain node.new ≡ N.plain node.old }
{
    let mut buf = [0; ROOM];
    let mut made = 0;
    'turns: while made < turns {
        match take_turn(link, node, switch_port, &mut buf) {
            Some(served) => return served,
            None => made += 1,
        }
    }
    Served::TurnsUsed
}
