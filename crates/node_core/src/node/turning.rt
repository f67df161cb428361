// A turn.

ghost use Rattle.std.specs.Prelude.{◌≡◌, ◌≤◌, ◌<◌, length, IfSome, Some, ℕ, List, false};
ghost use Rattle.pulse_isa.specs.Step.{End};
ghost use Rattle.code_verify.specs.Run.{run_body};
ghost use Rattle.leg_machine.specs.Iterations.{IsIteration};
ghost use Rattle.range_table.specs.Memory.{may_write};
ghost use Rattle.run_rules.specs.Node.{place_of, record_in, with_record, spans_of};
ghost use Rattle.run_rules.specs.Accepting.{is_foreign};
ghost use Rattle.run_rules.specs.Turning.{fate_at, fate_of, back_in};
ghost use Rattle.node_core.specs.Code.{body_of, outcome_of};
ghost use Rattle.node_core.specs.Part.{HasTurned, IsFirst};
ghost use Rattle.node_core.specs.inner.Starts.{fate_after};
ghost use Rattle.node_core.specs.inner.Steps.{Iterates, Settles, FateFits};

use super::{Node, back_of, key_of};
use crate::iterating::iterate_in;
use crate::part::Turned;
use frame_codec::{Back, Ending, Leg};
use leg_machine::{Context, Ended};
use pulse_base::FaultKind;
use run_rules::{Fate, LiveLeg};

// The back of a leg that ended.
fn back_in(fate: &Fate) -> Option<Back>
    ensures { result ≡ back_in fate.now }
{
    match fate {
        Fate::Stays(_) => None,
        Fate::Ends(back) => Some(*back),
    }
}

impl Node {
    // What becomes of a leg that has iterations left, by the place of its record.
    fn fate_at(&self, leg: &Leg, place: Option<usize>) -> Fate
        requires { IfSome place (λ i. i < length self.now.node.regions) }
        ensures { result ≡ fate_at self.now.node leg.now place }
    {
        match place {
            None => Fate::Ends(back_of(leg, Ending::Reroute)),
            Some(place) => {
                if !self.table.span_of(place).read {
                    return Fate::Ends(back_of(leg, Ending::Fault(FaultKind::NotReadable)));
                }
                Fate::Stays(*leg)
            }
        }
    }

    // What becomes of a leg that goes on, as it stands after its iteration.
    fn fate_after(&self, leg: &Leg) -> Fate
        requires { is_foreign self.now.node leg.now ≡ false }
        ensures { result ≡ fate_after self.now.node leg.now }
    {
        if leg.left == 0 {
            return Fate::Ends(back_of(leg, Ending::Resume));
        }
        self.fate_at(leg, self.place_of(leg))
    }

    // What becomes of a leg whose iteration ended so, with this context after it.
    fn fate_of(&self, leg: &Leg, context: &Context, ended: Ended) -> Fate
        requires left { 1 ≤ leg.now.left }
        requires known { is_foreign self.now.node leg.now ≡ false }
        requires pad { length context.now.pad ≡ length leg.now.pad }
        ensures { (end : End) (old new : List ℕ) → IsIteration ended end (record { cur = leg.now.cur; pad = leg.now.pad }) context.now old new → result ≡ fate_of self.now.node leg.now (outcome_of end) }
    {
        match ended {
            Ended::Done => Fate::Ends(back_of(
                &Leg {
                    cur: 0,
                    pad: context.pad,
                    left: leg.left - 1,
                    ..*leg
                },
                Ending::Done,
            )),
            Ended::Go => self.fate_after(&Leg {
                cur: context.cur,
                pad: context.pad,
                left: leg.left - 1,
                ..*leg
            }),
            Ended::NotWritable => Fate::Ends(back_of(leg, Ending::Fault(FaultKind::NotWritable))),
            Ended::DivZero => Fate::Ends(back_of(leg, Ending::Fault(FaultKind::DivZero))),
        }
    }

    // One iteration at the record of a leg, in place.
    fn iterate_at(&mut self, place: usize, leg: &Leg, context: &mut Context) -> Ended
        requires known { is_foreign self.old.node leg.now ≡ false }
        requires at { place_of self.old.node leg.now ≡ Some place }
        requires pad { length context.old.pad ≡ length leg.now.pad }
        ensures ran { IsIteration result (run_body (body_of self.old.images leg.now) (record_in self.old.node leg.now place) context.old.pad context.old.cur (may_write (spans_of self.old.node.regions) place)) context.old context.new (record_in self.old.node leg.now place) (record_in self.new.node leg.now place) }
        ensures pad { length context.new.pad ≡ length context.old.pad }
        ensures others { self.new ≡ record self.old { node = with_record self.old.node leg.now place (record_in self.new.node leg.now place) } }
    {
        let span = self.table.span_of(place);
        let at = (leg.cur - span.base) as usize;
        let image = self.images.get(leg.program as usize);
        iterate_in(
            &mut self.regions[place].bytes,
            at,
            image,
            context,
            span.write,
        )
    }

    // One iteration of the first live leg, and what becomes of it.
    fn iterate_first(&mut self) -> Fate
        requires { 0 < length self.old.node.live }
        ensures iterates { Iterates self.old self.new result }
        ensures fits { FateFits self.new result }
    {
        let leg = self.live[0].leg;
        match self.place_of(&leg) {
            None => unreachable!(),
            Some(place) => {
                let mut context = Context {
                    cur: leg.cur,
                    pad: leg.pad,
                };
                let ended = self.iterate_at(place, &leg, &mut context);
                self.fate_of(&leg, &context, ended)
            }
        }
    }

    // Carries out what becomes of the first live leg.
    fn settle(&mut self, fate: Fate)
        requires { FateFits self.old fate }
        ensures { Settles self.old self.new fate }
    {
        match self.live.pop_front() {
            None => unreachable!(),
            Some(entry) => match fate {
                Fate::Stays(leg) => {
                    let region = entry.region;
                    self.live.push_back_reserved(LiveLeg { leg, region });
                }
                Fate::Ends(back) => self.ledger.finish(key_of(&entry.leg), back),
            },
        }
    }

    /// One turn: an iteration of the first live leg.
    pub(crate) fn turn_first(&mut self) -> Turned
        ensures turned { HasTurned result self.old self.new }
        ensures first { IsFirst result self.old }
    {
        if self.live.is_empty() {
            return Turned::Idle;
        }
        let key = key_of(&self.live[0].leg);
        let fate = self.iterate_first();
        let back = back_in(&fate);
        self.settle(fate);
        Turned::Iterated { key, back }
    }
}
