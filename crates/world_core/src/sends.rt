// What the answer of a rule sends, and what is told of it.

ghost use Rattle.std.specs.Prelude.{◌≡◌, ◌≢◌, ◌<◌, ◌++◌, ◌∷◌, [], true, length, map, IfOk, OnErr};
ghost use Rattle.frame_codec.specs.declared.frame.Frame.TheVariants as frame;
ghost use Rattle.frame_codec.specs.Spelling.{MeetsRules};
ghost use Rattle.client_core.specs.Calls.{AskedFits, TickedFits, HeardFits};
ghost use Rattle.run_views.specs.Clients.{asked_leg, ticked_leg, heard_leg};
ghost use Rattle.event_run.specs.Letters.{sent_leg, sent_back, sent_out};
ghost use Rattle.event_run.specs.World.{sent_accepted, told_accepted, told_asked, told_ticked, told_heard, told_out};
ghost use Rattle.world_core.specs.Letters.{frame_of};
ghost use Rattle.world_core.specs.inner.Fits.{OutMeets};
ghost use Rattle.world_core.specs.inner.Nodes.{AnswerFits, TurnFits};
ghost use Rattle.world_core.specs.inner.Sends.{IsTold, ended_by, own, told_turned};

use crate::letter::{Content, To};
use crate::letters::Letters;
use client_core::{Asked, Heard, Ticked};
use frame_codec::Leg;
use node_core::{Accepted, Turned};
use pulse_base::{Memory, Trace};
use run_rules::Out;

impl Letters {
    // Sends a letter for which there is room. Its number is told.
    fn send(&mut self, to: To, content: &Content) -> Trace
        requires room { self.old.room ≡ true }
        requires rules { MeetsRules (frame_of content.now) }
        requires few { length self.old.sent < 4000000000 }
        ensures sent { self.new.sent ≡ self.old.sent ++ record { to = to; content = content.now } ∷ [] }
        ensures told { result ≡ Trace.Sent (length self.old.sent) }
    {
        let sent = Trace::Sent(self.len() as u32);
        self.push(to, content);
        sent
    }

    /// Sends what a node answers to a leg.
    pub fn answer(&mut self, leg: &Leg, accepted: &Accepted) -> Result<Trace, Memory>
        requires room { self.old.room ≡ true }
        requires leg { MeetsRules (frame.Leg leg.now) }
        requires fits { AnswerFits accepted.now }
        requires few { length self.old.sent < 4000000000 }
        ensures sent { self.new.sent ≡ self.old.sent ++ map own (sent_accepted leg.now accepted.now) }
        ensures told { IfOk result (λ t. IsTold self.old.sent (λ w. told_accepted w accepted.now) t) }
        ensures taken { IfOk result (λ t. accepted.now ≢ Accepted.Memory) }
        ensures err { OnErr result (accepted.now ≡ Accepted.Memory) }
    {
        match accepted {
            Accepted::Answer(back) => Ok(self.send(To::Switch, &Content::Back(*back))),
            Accepted::Elsewhere => Ok(self.send(To::Switch, &Content::Leg(*leg))),
            Accepted::Foreign => Ok(Trace::Foreign),
            Accepted::Running => Ok(Trace::Running),
            Accepted::Full => Ok(Trace::Full),
            Accepted::Started => Ok(Trace::Started),
            Accepted::Memory => Err(Memory),
        }
    }

    /// Sends what the switch gives.
    pub fn pass(&mut self, out: &Out) -> Trace
        requires room { self.old.room ≡ true }
        requires fits { OutMeets out.now }
        requires few { length self.old.sent < 4000000000 }
        ensures sent { self.new.sent ≡ self.old.sent ++ map own (sent_out out.now) }
        ensures told { IsTold self.old.sent (λ w. told_out w out.now) result }
    {
        match out {
            Out::ToNode(n, leg) => self.send(To::Node(*n), &Content::Leg(*leg)),
            Out::ToClient(c, back) => self.send(To::Client(*c), &Content::Back(*back)),
            Out::Nothing => Trace::Nothing,
        }
    }

    /// Sends the first leg of a request that is asked.
    pub fn ask(&mut self, asked: &Asked) -> Trace
        requires room { self.old.room ≡ true }
        requires fits { AskedFits asked.now }
        requires few { length self.old.sent < 4000000000 }
        ensures sent { self.new.sent ≡ self.old.sent ++ map own (sent_leg (asked_leg asked.now)) }
        ensures told { IsTold self.old.sent (λ w. told_asked w asked.now) result }
    {
        match asked {
            Asked::Sent(leg) => self.send(To::Switch, &Content::Leg(*leg)),
            Asked::Answered => Trace::Answered,
            Asked::Again => Trace::Again,
        }
    }

    /// Sends the leg of a request once more.
    pub fn tick(&mut self, ticked: &Ticked) -> Trace
        requires room { self.old.room ≡ true }
        requires fits { TickedFits ticked.now }
        requires few { length self.old.sent < 4000000000 }
        ensures sent { self.new.sent ≡ self.old.sent ++ map own (sent_leg (ticked_leg ticked.now)) }
        ensures told { IsTold self.old.sent (λ w. told_ticked w ticked.now) result }
    {
        match ticked {
            Ticked::Resent(leg) => self.send(To::Switch, &Content::Leg(*leg)),
            Ticked::Silent => Trace::Silent,
            Ticked::Nothing => Trace::Nothing,
        }
    }

    /// Sends the leg of the next round of a request.
    pub fn hear(&mut self, heard: &Heard) -> Trace
        requires room { self.old.room ≡ true }
        requires fits { HeardFits heard.now }
        requires few { length self.old.sent < 4000000000 }
        ensures sent { self.new.sent ≡ self.old.sent ++ map own (sent_leg (heard_leg heard.now)) }
        ensures told { IsTold self.old.sent (λ w. told_heard w heard.now) result }
    {
        match heard {
            Heard::Sent(leg) => self.send(To::Switch, &Content::Leg(*leg)),
            Heard::Answered => Trace::Answered,
            Heard::Stale => Trace::Stale,
        }
    }

    /// Sends the back of a leg that ended in a turn.
    pub fn turn(&mut self, turned: &Turned) -> Trace
        requires room { self.old.room ≡ true }
        requires fits { TurnFits turned.now }
        requires few { length self.old.sent < 4000000000 }
        ensures sent { self.new.sent ≡ self.old.sent ++ map own (sent_back (ended_by turned.now)) }
        ensures told { IsTold self.old.sent (told_turned turned.now) result }
    {
        match turned {
            Turned::Iterated { key, back: None } => Trace::Iterated {
                request: key.request,
                sent: None,
            },
            Turned::Iterated {
                key,
                back: Some(back),
            } => {
                let sent = Some(self.len() as u32);
                self.push(To::Switch, &Content::Back(*back));
                Trace::Iterated {
                    request: key.request,
                    sent,
                }
            }
            Turned::Part { key } => Trace::Part(key.request),
            Turned::Waits { key } => Trace::Waits(key.request),
            Turned::Idle => Trace::Idle,
        }
    }
}
