// The drain: what a schedule left is finished.

ghost use Rattle.std.specs.Prelude.{◌≡◌, ◌<◌, ◌+◌, ◌↔◌, length, IsTrue, IfOk, OnOk, OnErr};
ghost use Rattle.drain_run.specs.Drain.{DrainsRequest, IsIdle, NodesSettle, RequestsDrain, Round, Settles, waits};
ghost use Rattle.drain_run.specs.Draining.{AllIdle};
ghost use Rattle.world_core.specs.Letters.{IsTo};
ghost use Rattle.world_core.specs.Scene.{world_of};
ghost use Rattle.world_core.specs.Drains.{AllPlain, Becomes, CanRun, DrainSo, KeepsRuns, Lasts};
ghost use Rattle.world_core.specs.inner.Drains.{Resends, StartedOn};

use super::World;
use crate::letter::{Content, To};
use node_core::NodePart;
use pulse_base::{Event, Memory, Trace};

// A count that fits 32 bits. More nodes or requests than that are a want of memory.
fn in_32_bits(count: usize) -> Result<u32, Memory>
    ensures { IfOk result (λ n. n ≡ count) }
{
    if count > u32::MAX as usize {
        return Err(Memory);
    }
    Ok(count as u32)
}

// The node on which a letter to there started a leg, by what was told of its delivery.
fn started_on(told: &Trace, to: To) -> Option<u16>
    ensures { StartedOn told.now to result }
{
    match told {
        Trace::Started => match to {
            To::Node(n) => Some(n),
            To::Switch => None,
            To::Client(_) => None,
        },
        _ => None,
    }
}

impl<N: NodePart> World<N> {
    // Whether no leg is live on a node.
    fn is_idle(&self, n: u32) -> bool
        requires { n < length self.now.nodes }
        ensures { IsTrue result ↔ IsIdle n (world_of self.now) }
    {
        self.nodes.is_idle(n as usize)
    }

    // Whether a request is asked and has no answer.
    fn waits(&self, r: u32) -> bool
        requires { r < length self.now.homes }
        ensures { result ≡ waits (world_of self.now) r }
    {
        let home = *self.homes.get(r as usize) as usize;
        self.clients.resend(home, r).is_some()
    }

    // The number of the last letter, and where it goes.
    fn last(&self) -> (u32, To)
        requires { 0 < length self.now.letters }
        ensures number { result.0 + 1 ≡ length self.now.letters }
        ensures goes { IsTo self.now.letters result.0 result.1 }
    {
        let place = self.letters.len() - 1;
        (place as u32, self.letters.get(place).to)
    }

    // Sends the current leg of a request again. No tick is counted.
    fn resend(&mut self, r: u32) -> Result<(), Memory>
        requires { r < length self.old.homes }
        ensures sends { OnOk result (Resends self.old self.new r) }
        ensures err { OnErr result (self.new ≡ self.old) }
    {
        self.letters.make_room()?;
        let home = *self.homes.get(r as usize) as usize;
        if let Some(leg) = self.clients.resend(home, r) {
            self.letters.push(To::Switch, &Content::Leg(leg));
        }
        Ok(())
    }

    // Lets a node make turns until it is idle.
    fn settle(&mut self, n: u32) -> Result<(), Memory>
        requires here { n < length self.old.nodes }
        requires plain { AllPlain self.old }
        ensures settles { OnOk result (Becomes (λ u start. Settles u n) self.old self.new) }
        ensures keeps { KeepsRuns self.old self.new }
        ensures stays { Lasts self.old self.new }
    {
        'turns: while !self.is_idle(n) {
            self.event(Event::Turn(n))?;
        }
        Ok(())
    }

    // Each node settles, in order of number.
    fn settle_nodes(&mut self) -> Result<(), Memory>
        requires plain { AllPlain self.old }
        ensures settles { OnOk result (Becomes (λ u start. NodesSettle u (length self.old.nodes)) self.old self.new) }
        ensures keeps { KeepsRuns self.old self.new }
        ensures stays { Lasts self.old self.new }
    {
        let count = in_32_bits(self.nodes())?;
        'nodes: for n in 0..count {
            self.settle(n)?;
        }
        Ok(())
    }

    // Delivers the last letter. Where this starts a leg, its node settles.
    fn round(&mut self) -> Result<(), Memory>
        requires some { 0 < length self.old.letters }
        requires plain { AllPlain self.old }
        requires runs { CanRun self.old }
        ensures round { OnOk result (Becomes (λ u start. Round u) self.old self.new) }
        ensures keeps { KeepsRuns self.old self.new }
        ensures stays { Lasts self.old self.new }
    {
        let (number, to) = self.last();
        let told = self.event(Event::Deliver(number))?;
        match started_on(&told, to) {
            Some(n) => {
                self.settle(u32::from(n))?;
                Ok(())
            }
            None => Ok(()),
        }
    }

    // A request that waits has its current leg sent again, and then rounds until it has its answer.
    fn drain_request(&mut self, r: u32) -> Result<(), Memory>
        requires here { r < length self.old.homes }
        requires plain { AllPlain self.old }
        requires runs { CanRun self.old }
        requires idle { AllIdle (world_of self.old) }
        ensures drains { OnOk result (Becomes (λ u start. DrainsRequest u r) self.old self.new) }
        ensures keeps { KeepsRuns self.old self.new }
        ensures stays { Lasts self.old self.new }
    {
        if !self.waits(r) {
            return Ok(());
        }
        self.resend(r)?;
        'rounds: while self.waits(r) {
            self.round()?;
        }
        Ok(())
    }

    // Each request is drained, in order of number.
    fn drain_requests(&mut self) -> Result<(), Memory>
        requires plain { AllPlain self.old }
        requires runs { CanRun self.old }
        requires idle { AllIdle (world_of self.old) }
        ensures drains { OnOk result (Becomes (λ u start. RequestsDrain u (length self.old.homes)) self.old self.new) }
        ensures keeps { KeepsRuns self.old self.new }
        ensures stays { Lasts self.old self.new }
    {
        let count = in_32_bits(self.requests())?;
        'requests: for r in 0..count {
            self.drain_request(r)?;
        }
        Ok(())
    }

    /// Finishes what a schedule left: each node, in order of number, makes turns until it is idle; then each request that
    /// waits has its current leg sent again, and the last letter is delivered, with the turns of a node on which it starts
    /// a leg, until the request has its answer. No tick is counted. The cost is that of the deliveries and turns that it
    /// makes.
    pub fn drain(&mut self) -> Result<(), Memory>
        requires plain { AllPlain self.old }
        requires runs { CanRun self.old }
        ensures drains { OnOk result (DrainSo self.old self.new) }
        ensures keeps { KeepsRuns self.old self.new }
        ensures stays { Lasts self.old self.new }
        ensures plain { AllPlain self.new }
    {
        self.settle_nodes()?;
        self.drain_requests()?;
        Ok(())
    }
}
