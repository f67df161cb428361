// A link in memory.

ghost use Rattle.std.specs.Prelude.{◌≡◌, ◌≤◌, ◌↔◌, Ok, Some, length, map, drop, IfOk, IsErr, IsTrue, Contains};
ghost use Rattle.pulse_base.specs.Outside.{HasCause};
ghost use Rattle.pulse_base.specs.Link.{Binds, Sends, Receives, WithinBuffer, Answers, next_item};
ghost use Rattle.pulse_net.specs.Links.{new_link, item_of, sent_of, waits_of, Counts, IsFront};

use crate::item::{Item, Items, Sent};
use pulse_base::{Bytes, Failed, Got, Link, Listed, Numbers};
use std::alloc::Global;
use std::marker::Model;

/// A link over items in memory, which records each call that does not fail. Chosen calls fail, and so does one that
/// there is no memory to record.
#[derive(Debug, Drop)]
pub struct MemLink {
    alloc: Global,
    items: Items,
    // Of each receive that did not fail, whether it waited. So many items were taken, or all and then gaps.
    waits: Listed<bool>,
    sent: Listed<Sent>,
    bound: Listed<u16>,
    fails: Numbers,
    calls: u64,
    faults: u64,
}

impl Model for MemLink {
    ghost use Rattle.pulse_net.specs.Links.{LinkState, traffic_of};

    ghost Value = { LinkState };

    ghost view = { λ l. record { traffic = traffic_of l.items l.waits l.sent l.bound; fails = l.fails; calls = l.calls; faults = l.faults } };
}

// Copies the front of a frame, as much as the buffer holds.
fn copy_front(bytes: &[u8], buf: &mut [u8]) -> usize
    ensures front { IsFront bytes.now buf.new result }
    ensures len { length buf.new ≡ length buf.old }
{
    let len = bytes.len().min(buf.len());
    buf[..len].copy_from_slice(&bytes[..len]);
    len
}

// Hands out the item at a place, or a gap past the last.
#[tactic(auto, using(crate::proofs::Receipts::next_is, crate::proofs::Receipts::next_is_gap))]
fn hand_out(items: &Items, at: usize, buf: &mut [u8]) -> Got
    ensures within { WithinBuffer result buf.new }
    ensures answers { Answers (next_item (map item_of (drop at items.now))) buf.new result }
{
    if at < items.len() {
        if let Item::Frame { port, bytes } = items.get(at) {
            return Got::Frame {
                port: *port,
                len: copy_front(bytes.as_slice(), buf),
            };
        }
    }
    Got::Nothing
}

impl MemLink {
    /// A link over which these items come in. The calls whose numbers `fails` holds fail, the first call having the
    /// number 0.
    pub fn make(alloc: Global, items: Items, fails: Numbers) -> MemLink
        ensures { result ≡ new_link items fails }
    {
        MemLink {
            alloc,
            items,
            waits: Listed::new(alloc),
            sent: Listed::new(alloc),
            bound: Listed::new(alloc),
            fails,
            calls: 0,
            faults: 0,
        }
    }

    /// Of each receive that did not fail, whether it waited.
    #[tactic(auto, using(crate::proofs::Receipts::waits_are))]
    pub fn waits(&self) -> &[bool]
        ensures { result.now ≡ waits_of self.now.traffic.taken }
    {
        self.waits.as_slice()
    }

    /// The frames sent so far.
    pub fn sent(&self) -> &[Sent]
        ensures { map sent_of result.now ≡ self.now.traffic.sent }
    {
        self.sent.as_slice()
    }

    /// The ports bound so far.
    pub fn bound(&self) -> &[u16]
        ensures { result.now ≡ self.now.traffic.bound }
    {
        self.bound.as_slice()
    }

    // Whether the call that is to come is to fail.
    fn is_to_fail(&self) -> bool
        ensures { IsTrue result ↔ Contains self.now.fails self.now.calls }
    {
        let call = self.calls;
        self.fails.as_slice().iter().any(|n| u64::from(*n) == call)
    }

    // Counts a call that did what it was asked.
    fn succeed<T>(&mut self, answer: T) -> Result<T, Failed>
        ensures result { result ≡ Ok answer }
        ensures counts { Counts self.old self.new result }
        ensures traffic { self.new.traffic ≡ self.old.traffic }
    {
        self.calls = self.calls.saturating_add(1);
        Ok(answer)
    }

    // Counts a call that failed.
    fn fail<T>(&mut self) -> Result<T, Failed>
        ensures result { IsErr result }
        ensures counts { Counts self.old self.new result }
        ensures cause { HasCause self.old.faults self.new.faults result }
    {
        self.calls = self.calls.saturating_add(1);
        self.faults = self.faults.saturating_add(1);
        Err(Failed)
    }
}

impl Link for MemLink {
    ghost traffic = { λ l. Some l.traffic };

    ghost faults = { λ l. l.faults };

    fn bind(&mut self, port: u16) -> Result<(), Failed>
        ensures traffic { Binds (Some self.old.traffic) (Some self.new.traffic) port result }
        ensures cause { HasCause self.old.faults self.new.faults result }
        ensures fails { Contains self.old.fails self.old.calls → IsErr result }
        ensures counts { Counts self.old self.new result }
    {
        if !self.is_to_fail() {
            if let Ok(()) = self.bound.push(port) {
                return self.succeed(());
            }
        }
        self.fail()
    }

    fn send(&mut self, port: u16, frame: &[u8]) -> Result<(), Failed>
        ensures traffic { Sends (Some self.old.traffic) (Some self.new.traffic) port frame.now result }
        ensures cause { HasCause self.old.faults self.new.faults result }
        ensures fails { Contains self.old.fails self.old.calls → IsErr result }
        ensures counts { Counts self.old self.new result }
    {
        if !self.is_to_fail() {
            if let Ok(bytes) = Bytes::from_slice(self.alloc, frame) {
                if let Ok(()) = self.sent.push(Sent { port, bytes }) {
                    return self.succeed(());
                }
            }
        }
        self.fail()
    }

    #[tactic(auto, using(crate::proofs::Receipts::received))]
    fn receive(&mut self, buf: &mut [u8], wait: bool) -> Result<Got, Failed>
        requires { 512 ≤ length buf.old }
        ensures within { IfOk result (λ got. WithinBuffer got buf.new) }
        ensures traffic { Receives (Some self.old.traffic) (Some self.new.traffic) wait buf.new result }
        ensures cause { HasCause self.old.faults self.new.faults result }
        ensures fails { Contains self.old.fails self.old.calls → IsErr result }
        ensures counts { Counts self.old self.new result }
    {
        let at = self.waits.len();
        if !self.is_to_fail() {
            if let Ok(()) = self.waits.push(wait) {
                let got = hand_out(&self.items, at, buf);
                return self.succeed(got);
            }
        }
        self.fail()
    }
}
