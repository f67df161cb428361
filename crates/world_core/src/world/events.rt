// Events.

ghost use Rattle.std.specs.Prelude.{◌≡◌, ℕ, ◌<◌, ◌≤◌, ◌++◌, ◌∷◌, [], List, length, IfOk, OnErr, slice_get};
ghost use Rattle.frame_codec.specs.Spelling.{MeetsRules};
ghost use Rattle.frame_codec.specs.declared.frame.Frame.TheVariants as frame;
ghost use Rattle.run_rules.specs.Switch.{on};
ghost use Rattle.event_run.specs.World.{to_node, switches};
ghost use Rattle.world_core.specs.Letters.{frame_of};
ghost use Rattle.world_core.specs.Scene.{IsAsBefore, Stays, world_of};
ghost use Rattle.world_core.specs.Runs.{EventPlain, EventSo, IsThere, LowersRest};
ghost use Rattle.world_core.specs.inner.Events.{Asks, Delivers, DeliversAt, Happens, Hears, IsHere, Ticks, Turns};
ghost use Rattle.world_core.specs.inner.Sends.{ordered_by};
ghost use Rattle.world_core.specs.inner.Fits.{LetterFits, OutFits, OutMeets};

use super::World;
use crate::letter::{Content, Letter, To};
use crate::letters::frame_of;
use frame_codec::{Back, Leg};
use node_core::{NodePart, Turned};
use pulse_base::{Event, Memory, Numbers, Trace};
use run_rules::Out;

// What a turn leaves in the place that was kept for it at the end of the order: the request of an iteration, or nothing.
fn settle(order: &mut Numbers, turned: &Turned)
    requires { 1 ≤ length order.old }
    ensures { (base : List ℕ) (x : ℕ) → order.old ≡ base ++ x ∷ [] → order.new ≡ base ++ ordered_by turned.now }
{
    match turned {
        Turned::Iterated { key, .. } => {
            let last = order.len() - 1;
            order.set(last, key.request);
        }
        Turned::Part { .. } => {
            let _ = order.pop();
        }
        Turned::Waits { .. } => {
            let _ = order.pop();
        }
        Turned::Idle => {
            let _ = order.pop();
        }
    }
}

impl<N: NodePart> World<N> {
    // What the switch makes of what a letter carries. It goes to a node or a client that is there.
    fn ruled(&self, content: &Content) -> Out
        requires rules { MeetsRules (frame_of content.now) }
        ensures rule { result ≡ on self.now.switch (frame_of content.now) }
        ensures meets { OutMeets result }
        ensures fits { OutFits (length self.now.nodes) (length self.now.clients) result }
    {
        self.switch.on(&frame_of(content))
    }

    // Hands a leg to a node, and sends what it answers.
    fn to_node(&mut self, n: u16, leg: &Leg) -> Result<Trace, Memory>
        requires here { n < length self.old.nodes }
        requires rules { MeetsRules (frame.Leg leg.now) }
        ensures step { IfOk result (λ t. (world_of self.new, t) ≡ to_node (world_of self.old) n leg.now (slice_get (world_of self.old).nodes n)) }
        ensures stays { IfOk result (λ t. Stays self.old self.new) }
        ensures err { OnErr result (IsAsBefore self.old self.new) }
    {
        self.letters.make_room()?;
        let accepted = self.nodes.take(n as usize, leg);
        self.letters.answer(leg, &accepted)
    }

    // Lets the switch send on what a letter carries.
    fn to_switch(&mut self, content: &Content) -> Result<Trace, Memory>
        requires rules { MeetsRules (frame_of content.now) }
        ensures step { IfOk result (λ t. (world_of self.new, t) ≡ switches (world_of self.old) (on self.old.switch (frame_of content.now))) }
        ensures stays { IfOk result (λ t. Stays self.old self.new) }
        ensures err { OnErr result (IsAsBefore self.old self.new) }
    {
        self.letters.make_room()?;
        let out = self.ruled(content);
        Ok(self.letters.pass(&out))
    }

    // Asks a request at its home, and sends its first leg.
    fn ask(&mut self, r: u32) -> Result<Trace, Memory>
        requires here { r < length self.old.homes }
        ensures asks { IfOk result (λ t. Asks self.old self.new r t) }
        ensures stays { IfOk result (λ t. Stays self.old self.new) }
        ensures err { OnErr result (IsAsBefore self.old self.new) }
    {
        self.letters.make_room()?;
        let home = *self.homes.get(r as usize);
        let asked = self.clients.ask(home as usize, r);
        Ok(self.letters.ask(&asked))
    }

    // A tick of a request at its home, which may send its leg once more.
    fn tick(&mut self, r: u32) -> Result<Trace, Memory>
        requires here { r < length self.old.homes }
        ensures ticks { IfOk result (λ t. Ticks self.old self.new r t) }
        ensures stays { IfOk result (λ t. Stays self.old self.new) }
        ensures err { OnErr result (IsAsBefore self.old self.new) }
    {
        self.letters.make_room()?;
        let home = *self.homes.get(r as usize);
        let ticked = self.clients.tick(home as usize, r);
        Ok(self.letters.tick(&ticked))
    }

    // Lets a client hear a back, which may send the leg of the next round.
    fn to_client(&mut self, c: u16, back: &Back) -> Result<Trace, Memory>
        requires here { c < length self.old.clients }
        ensures hears { IfOk result (λ t. Hears self.old self.new c back.now t) }
        ensures stays { IfOk result (λ t. Stays self.old self.new) }
        ensures err { OnErr result (IsAsBefore self.old self.new) }
    {
        self.letters.make_room()?;
        let heard = self.clients.hear(c as usize, back);
        Ok(self.letters.hear(&heard))
    }

    // Lets a node make a turn: an iteration is the next of the order, and the back of a leg that ended is sent.
    fn turn(&mut self, n: u32) -> Result<Trace, Memory>
        requires here { n < length self.old.nodes }
        ensures turns { IfOk result (λ t. Turns self.old self.new n t) }
        ensures stays { IfOk result (λ t. Stays self.old self.new) }
        ensures err { OnErr result (IsAsBefore self.old self.new) }
    {
        self.letters.make_room()?;
        self.order.push(0)?;
        let turned = self.nodes.turn(n as usize);
        settle(&mut self.order, &turned);
        Ok(self.letters.turn(&turned))
    }

    // Hands what a letter carries to where the letter goes.
    fn hand(&mut self, letter: &Letter) -> Result<Trace, Memory>
        requires rules { MeetsRules (frame_of letter.now.content) }
        requires fits { LetterFits (length self.old.nodes) (length self.old.clients) letter.now }
        ensures delivers { IfOk result (λ t. Delivers self.old self.new letter.now.to letter.now.content t) }
        ensures stays { IfOk result (λ t. Stays self.old self.new) }
        ensures err { OnErr result (IsAsBefore self.old self.new) }
    {
        match letter.to {
            To::Switch => self.to_switch(&letter.content),
            To::Node(n) => match &letter.content {
                Content::Leg(leg) => self.to_node(n, leg),
                Content::Back(_) => unreachable!(),
            },
            To::Client(c) => match &letter.content {
                Content::Back(back) => self.to_client(c, back),
                Content::Leg(_) => unreachable!(),
            },
        }
    }

    // Delivers a letter, where it was sent.
    fn deliver(&mut self, k: u32) -> Result<Trace, Memory>
        ensures delivers { IfOk result (λ t. DeliversAt self.old self.new (slice_get self.old.letters k) t) }
        ensures stays { IfOk result (λ t. Stays self.old self.new) }
        ensures err { OnErr result (IsAsBefore self.old self.new) }
    {
        if k as usize >= self.letters.len() {
            return Ok(Trace::Missed);
        }
        let letter = self.letters.get(k as usize);
        self.hand(&letter)
    }

    // Lets an event happen.
    fn happen(&mut self, event: &Event) -> Result<Trace, Memory>
        requires there { IsHere self.old event.now }
        ensures happens { IfOk result (λ t. Happens self.old self.new event.now t) }
        ensures stays { IfOk result (λ t. Stays self.old self.new) }
        ensures err { OnErr result (IsAsBefore self.old self.new) }
    {
        match event {
            Event::Ask(r) => self.ask(*r),
            Event::Tick(r) => self.tick(*r),
            Event::Deliver(k) => self.deliver(*k),
            Event::Turn(n) => self.turn(*n),
        }
    }

    /// Lets an event happen, whose request or node is there, and tells what it did. In a run of any setting to which the
    /// world belongs it is an event of the run. The world stays as it was where there is no memory.
    pub fn event(&mut self, event: Event) -> Result<Trace, Memory>
        requires there { IsThere self.old event }
        ensures step { IfOk result (λ t. EventSo self.old self.new event t) }
        ensures plain { IfOk result (λ t. EventPlain self.old self.new event t) }
        ensures rest { IfOk result (λ t. LowersRest self.old self.new event) }
        ensures stays { Stays self.old self.new }
        ensures err { OnErr result (IsAsBefore self.old self.new) }
    {
        let _switch = &self.switch;
        self.happen(&event)
    }
}
