// Accepting a leg.

ghost use Rattle.std.specs.Prelude.{◌≡◌, ◌≤◌, ◌<◌, length, IfSome, is_some, option_copied, OnOk, OnErr, false, None};
ghost use Rattle.std.specs.FinMap as m;
ghost use Rattle.range_table.specs.Memory.{may_read};
ghost use Rattle.node_core.specs.inner.Starts.{MayStart};
ghost use Rattle.run_rules.specs.Node.{find_live, key_of, place_of, spans_of, region_at};
ghost use Rattle.run_rules.specs.Accepting.{answer_at, answer_by, answer_to, is_foreign, number_at, started};
ghost use Rattle.node_core.specs.Part.{HasAccepted};
ghost use Rattle.node_core.specs.inner.Steps.{Rules};

use super::{Node, back_of, key_of};
use frame_codec::{Ending, Leg};
use leg_ledger::{Entering, LegKey, Reply};
use pulse_base::{FaultKind, Memory};
use run_rules::{Accepted, LiveLeg};

/// What the rules say of a leg.
#[derive(Clone, Copy, Debug, PartialEq, Eq)]
pub(crate) enum Ruling {
    /// This is the answer, and nothing changes.
    Answers(Accepted),
    /// It is started, at the region of this number.
    Starts(u16),
}

impl Node {
    // The reply that is kept of a name.
    fn kept(&self, key: LegKey) -> Option<&Reply>
        ensures { option_copied result ≡ m.get self.now.node.kept key }
    {
        self.ledger.kept(key)
    }

    // Whether the leg of this name is live.
    fn is_live(&self, key: LegKey) -> bool
        ensures { result ≡ is_some (find_live self.now.node.live key) }
    {
        self.ledger.running(key)
    }

    // What the rules say of a leg that is known and new, by the place of its record.
    fn ruling_at(&self, leg: &Leg, place: Option<usize>) -> Ruling
        requires known { is_foreign self.now.node leg.now ≡ false }
        requires unkept { m.get self.now.node.kept (key_of leg.now) ≡ None }
        requires idle { is_some (find_live self.now.node.live (key_of leg.now)) ≡ false }
        requires inside { IfSome place (λ i. i < length self.now.node.regions) }
        requires place { place ≡ place_of self.now.node leg.now }
        ensures { Rules result self.now.node leg.now }
    {
        match place {
            None => Ruling::Answers(Accepted::Elsewhere),
            Some(place) => {
                let region = &self.regions[place];
                if !region.span.read {
                    let ending = Ending::Fault(FaultKind::NotReadable);
                    return Ruling::Answers(Accepted::Answer(back_of(leg, ending)));
                }
                if self.live.len() >= self.slots as usize {
                    return Ruling::Answers(Accepted::Full);
                }
                Ruling::Starts(region.number)
            }
        }
    }

    // What the rules say of a leg: the first that applies decides.
    fn ruling(&self, leg: &Leg) -> Ruling
        ensures { Rules result self.now.node leg.now }
    {
        if self.is_foreign(leg) {
            return Ruling::Answers(Accepted::Foreign);
        }
        let key = key_of(leg);
        if let Some(reply) = self.kept(key) {
            return Ruling::Answers(Accepted::Answer(reply.back));
        }
        if self.is_live(key) {
            return Ruling::Answers(Accepted::Running);
        }
        self.ruling_at(leg, self.place_of(leg))
    }

    // Starts a leg, or changes nothing.
    fn start(&mut self, leg: &Leg, region: u16) -> Result<(), Memory>
        requires may { MayStart self.old.node leg.now }
        requires left { 1 ≤ leg.now.left }
        requires region { number_at self.old.node (place_of self.old.node leg.now) ≡ region }
        ensures ok { OnOk result (self.new ≡ record self.old { node = started self.old.node leg.now }) }
        ensures err { OnErr result (self.new ≡ self.old) }
    {
        match self.ledger.enter(key_of(leg), region) {
            Entering::Entered => {
                self.live.push_back_reserved(LiveLeg { leg: *leg, region });
                Ok(())
            }
            Entering::Running => unreachable!(),
            Entering::Kept => unreachable!(),
            Entering::Memory => Err(Memory),
        }
    }

    /// Accepts a leg, by the rules.
    pub(crate) fn accept_leg(&mut self, leg: &Leg) -> Accepted
        requires { 1 ≤ leg.now.left }
        ensures { HasAccepted result self.old self.new leg.now }
    {
        match self.ruling(leg) {
            Ruling::Answers(answer) => answer,
            Ruling::Starts(region) => match self.start(leg, region) {
                Ok(()) => Accepted::Started,
                Err(Memory) => Accepted::Memory,
            },
        }
    }
}
