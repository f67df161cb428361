// The loop of a client.

ghost use Rattle.std.specs.Prelude.{◌≡◌, ◌≢◌, ◌≤◌, ◌<◌, true, false, length, take, Some, get_or};
ghost use Rattle.pulse_base.specs.Outside.{HasCause, Rose};
ghost use Rattle.client_core.specs.Requests.{Has};
ghost use Rattle.pulse_serve.specs.Frames.{Over, CameFits};
ghost use Rattle.pulse_serve.specs.ClientRun.{Asks, Ticks, AllAnswered, HasAnswer, ServesClient, client_loop, numbers};
ghost use Rattle.pulse_serve.specs.inner.Steps.{Goes};
ghost use Rattle.pulse_serve.specs.inner.Asking.{DoesOne, DoesAll, Hearing, AnsweredBefore, KeepsAnswers};

use crate::frames::{Came, ROOM, post, receive};
use crate::served::Served;
use client_core::{Asked, Client, Heard, Ticked};
use frame_codec::{Back, Frame};
use pulse_base::{Answer, Failed, Link};

// Asks a request and sends its leg.
fn ask_one<L: Link>(link: &mut L, client: &mut Client, port: u16, number: u32) -> Result<(), Failed>
    requires { Has client.old number }
    ensures does { DoesOne (Asks port) client.old number client.new (L.traffic link.old) (L.traffic link.new) result }
    ensures cause { HasCause (L.faults link.old) (L.faults link.new) result }
{
    match client.ask(number) {
        Asked::Sent(leg) => post(link, port, &Frame::Leg(leg)),
        Asked::Answered => Ok(()),
        Asked::Again => Ok(()),
    }
}

// Ticks a request and sends its leg again.
fn tick_one<L: Link>(
    link: &mut L,
    client: &mut Client,
    port: u16,
    number: u32,
) -> Result<(), Failed>
    requires { Has client.old number }
    ensures does { DoesOne (Ticks port) client.old number client.new (L.traffic link.old) (L.traffic link.new) result }
    ensures cause { HasCause (L.faults link.old) (L.faults link.new) result }
{
    match client.tick(number) {
        Ticked::Resent(leg) => post(link, port, &Frame::Leg(leg)),
        Ticked::Silent => Ok(()),
        Ticked::Nothing => Ok(()),
    }
}

// Asks all requests, in order.
fn ask_each<L: Link>(link: &mut L, client: &mut Client, port: u16) -> Result<(), Failed>
    ensures does { DoesAll (Asks port) client.old client.new (L.traffic link.old) (L.traffic link.new) result }
    ensures cause { HasCause (L.faults link.old) (L.faults link.new) result }
{
    let mut at = 0;
    'requests: while at < client.len() {
        let number = client.number(at);
        match ask_one(link, client, port, number) {
            Ok(()) => at += 1,
            Err(Failed) => return Err(Failed),
        }
    }
    Ok(())
}

// Ticks all requests, in order.
fn tick_each<L: Link>(link: &mut L, client: &mut Client, port: u16) -> Result<(), Failed>
    ensures does { DoesAll (Ticks port) client.old client.new (L.traffic link.old) (L.traffic link.new) result }
    ensures cause { HasCause (L.faults link.old) (L.faults link.new) result }
    ensures answers { KeepsAnswers client.old client.new }
{
    let mut at = 0;
    'requests: while at < client.len() {
        let number = client.number(at);
        match tick_one(link, client, port, number) {
            Ok(()) => at += 1,
            Err(Failed) => return Err(Failed),
        }
    }
    Ok(())
}

// Hears a back and sends the leg of the next round.
fn hear_back<L: Link>(
    link: &mut L,
    client: &mut Client,
    port: u16,
    back: &Back,
) -> Result<(), Failed>
    ensures hears { Hearing port client.old (Came.Frame (Frame.Back back.now)) client.new (L.traffic link.old) (L.traffic link.new) result }
    ensures cause { HasCause (L.faults link.old) (L.faults link.new) result }
    ensures answers { KeepsAnswers client.old client.new }
{
    match client.on(back) {
        Heard::Sent(leg) => post(link, port, &Frame::Leg(leg)),
        Heard::Answered => Ok(()),
        Heard::Stale => Ok(()),
    }
}

// Hears an item: a gap is a tick of each request, a back is heard.
fn hear<L: Link>(link: &mut L, client: &mut Client, port: u16, item: &Came) -> Result<(), Failed>
    ensures hears { Hearing port client.old item.now client.new (L.traffic link.old) (L.traffic link.new) result }
    ensures cause { HasCause (L.faults link.old) (L.faults link.new) result }
    ensures answers { KeepsAnswers client.old client.new }
{
    match item {
        Came::Gap => tick_each(link, client, port),
        Came::Frame(Frame::Back(back)) => hear_back(link, client, port, back),
        Came::Frame(Frame::Leg(_)) => Ok(()),
        Came::Frame(Frame::Stop) => Ok(()),
        Came::Noise => Ok(()),
    }
}

// One turn of the loop: none where it goes on.
fn take_turn<L: Link>(
    link: &mut L,
    client: &mut Client,
    port: u16,
    buf: &mut [u8],
) -> Option<Served>
    requires room { 512 ≤ length buf.old }
    requires unfinished { AllAnswered client.old → ⊥ }
    ensures turn { Over (L.traffic link.old) (L.traffic link.new) (Goes (client_loop port) result client.old client.new) }
    ensures fault { result ≡ Some Served.LinkFault → Rose (L.faults link.old) (L.faults link.new) }
    ensures kept { result ≢ Some Served.LinkFault → L.faults link.new ≡ L.faults link.old }
    ensures answers { KeepsAnswers client.old client.new }
{
    let item = match receive(link, buf, true) {
        Ok(item) => item,
        Err(Failed) => return Some(Served::LinkFault),
    };
    match hear(link, client, port, &item) {
        Ok(()) => None,
        Err(Failed) => Some(Served::LinkFault),
    }
}

// Whether the request at a place has its answer.
fn is_answered(client: &Client, at: usize) -> bool
    requires { at < length client.now.requests }
    ensures yes { result ≡ true → HasAnswer client.now (get_or (numbers client.now) at 0) }
    ensures no { result ≡ false → HasAnswer client.now (get_or (numbers client.now) at 0) → ⊥ }
{
    match client.answer(client.number(at)) {
        Answer::Unasked => false,
        Answer::Waiting => false,
        Answer::Done { .. } => true,
        Answer::Fault { .. } => true,
        Answer::Spent { .. } => true,
        Answer::Silent => true,
    }
}

// The first request from a place on that has no answer, or the number of all.
fn first_open(client: &Client, from: usize) -> usize
    requires within { from ≤ length client.now.requests }
    requires before { AnsweredBefore client.now from }
    ensures within { result ≤ length client.now.requests }
    ensures before { AnsweredBefore client.now result }
    ensures unfinished { result < length client.now.requests → AllAnswered client.now → ⊥ }
{
    let mut at = from;
    'requests: while at < client.len() {
        if !is_answered(client, at) {
            return at;
        }
        at += 1;
    }
    at
}

/// Asks all requests in order and sends their legs, and then, while some request has no answer, makes so many turns at
/// most. A turn waits for an item: a back is heard, and the leg that it gives is sent; a gap ticks each request that has
/// no answer, in order. `Stopped` comes where all requests have their answers.
pub fn ask_all<L: Link>(link: &mut L, client: &mut Client, switch_port: u16, turns: u64) -> Served
    // What was taken, done and sent is the served run; each end has its cause.
    ensures serves { Over (L.traffic link.old) (L.traffic link.new) (λ rs ss. ServesClient switch_port turns result client.old rs client.new ss) }
    ensures fault { result ≡ Served.LinkFault → Rose (L.faults link.old) (L.faults link.new) }
    ensures kept { result ≢ Served.LinkFault → L.faults link.new ≡ L.faults link.old }
{
    match ask_each(link, client, switch_port) {
        Ok(()) => {}
        Err(Failed) => return Served::LinkFault,
    }
    let mut buf = [0; ROOM];
    let mut made = 0;
    let mut first = first_open(client, 0);
    'turns: while first < client.len() {
        if made == turns {
            return Served::TurnsUsed;
        }
        match take_turn(link, client, switch_port, &mut buf) {
            Some(served) => return served,
            None => made += 1,
        }
        first = first_open(client, first);
    }
    Served::Stopped
}
