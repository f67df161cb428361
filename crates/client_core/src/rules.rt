// What the rules of a client do with one request.

ghost use Rattle.std.specs.Prelude.{◌≡◌, ◌<◌, ◌≤◌, ◌^◌, ◌-◌, length};
ghost use Rattle.run_rules.specs.Client as rule;
ghost use Rattle.client_core.specs.Begins.{begin};
ghost use Rattle.client_core.specs.Calls.{AskedFits, TickedFits, HeardFits};
ghost use Rattle.client_core.specs.inner.Standing.{TermsFit, AskingFits, Goes};

use crate::request::Request;
use code_image::Image;
use frame_codec::{Back, Ending, Leg};
use leg_machine::Begun;
use pulse_base::{Answer, FaultKind, PadBytes, RequestPlan};
use run_rules::{Asked, Asking, Heard, Terms, Ticked};

// The first leg of a request, with the full budget.
fn first_leg(terms: &Terms, plan: &RequestPlan, cur: u64, pad: &PadBytes) -> Leg
    ensures { result ≡ rule.first_leg terms.now plan.now.number plan.now.iter cur pad.now }
{
    Leg {
        client: terms.client,
        request: plan.number,
        leg: 0,
        program: plan.iter,
        left: terms.budget,
        cur,
        pad: *pad,
    }
}

// The leg of the next round, where the last one resumes.
fn next_round(terms: &Terms, back: &Back) -> Leg
    requires { back.now.leg < 2 ^ 32 - 1 }
    ensures { result ≡ rule.next_round terms.now back.now }
{
    Leg {
        client: back.client,
        request: back.request,
        leg: back.leg + 1,
        program: back.program,
        left: terms.budget,
        cur: back.cur,
        pad: back.pad,
    }
}

// The iterations that took effect, at a back with so many left.
fn count_at(terms: &Terms, accepted: u16, left: u16) -> u64
    requires { left ≤ terms.now.budget }
    ensures { result ≡ rule.count_at terms.now accepted left }
{
    u64::from(accepted) * u64::from(terms.budget) + u64::from(terms.budget) - u64::from(left)
}

// Whether a back changes nothing, for a request that waits at this leg.
fn is_stale(terms: &Terms, leg: &Leg, back: &Back) -> bool
    ensures { result ≡ rule.is_stale terms.now leg.now back.now }
{
    if back.client != terms.client {
        return true;
    }
    if back.leg < leg.leg {
        return true;
    }
    if back.program != leg.program {
        return true;
    }
    if back.pad.bytes().len() != leg.pad.bytes().len() {
        return true;
    }
    back.left > terms.budget
}

// A request that waits at a new leg.
fn waiting(leg: &Leg, accepted: u16) -> Asking
    ensures { result ≡ Asking.Waiting leg.now accepted 0 }
{
    Asking::Waiting {
        leg: *leg,
        accepted,
        ticks: 0,
    }
}

impl Request {
    /// Asks it. Init runs where it was not asked before.
    pub fn ask(&mut self, terms: &Terms, image: &Image) -> Asked
        requires args { length self.old.plan.args.items ≡ image.now.args }
        requires terms { TermsFit terms.now }
        requires fits { AskingFits terms.now self.old.asking }
        ensures rule { Goes self.old self.new (rule.ask terms.now self.old.plan.number self.old.plan.iter (begin image.now self.old.plan.args.items) self.old.asking) result }
        ensures fits { AskingFits terms.now self.new.asking }
        ensures sent { AskedFits result }
    {
        if !matches!(&self.asking, Asking::NotAsked) {
            return Asked::Again;
        }
        match leg_machine::begin(image, self.plan.args.as_slice()) {
            Begun::Go { cur, pad } => {
                let leg = first_leg(terms, &self.plan, cur, &pad);
                self.asking = waiting(&leg, 0);
                Asked::Sent(leg)
            }
            Begun::Done { pad } => {
                self.asking = Asking::Answered(Answer::Done { pad, count: 0 });
                Asked::Answered
            }
            Begun::DivZero => {
                let kind = FaultKind::DivZero;
                self.asking = Asking::Answered(Answer::Fault {
                    kind,
                    cur: 0,
                    count: 0,
                });
                Asked::Answered
            }
        }
    }

    /// Sends its leg again, or gives it up where it was ticked `tries` times.
    pub fn tick(&mut self, terms: &Terms) -> Ticked
        requires terms { TermsFit terms.now }
        requires fits { AskingFits terms.now self.old.asking }
        ensures rule { Goes self.old self.new (rule.tick terms.now self.old.asking) result }
        ensures fits { AskingFits terms.now self.new.asking }
        ensures sent { TickedFits result }
    {
        match &mut self.asking {
            Asking::NotAsked => Ticked::Nothing,
            Asking::Answered(_) => Ticked::Nothing,
            Asking::Waiting { leg, ticks, .. } => {
                if *ticks < terms.tries {
                    *ticks += 1;
                    return Ticked::Resent(*leg);
                }
                self.asking = Asking::Answered(Answer::Silent);
                Ticked::Silent
            }
        }
    }

    /// Its current leg, where it waits.
    pub fn resend(&self) -> Option<Leg>
        ensures { result ≡ rule.resend self.now.asking }
    {
        match &self.asking {
            Asking::Waiting { leg, .. } => Some(*leg),
            _ => None,
        }
    }

    // Counts a round, of so many before it: the last one spends the request.
    fn resume(&mut self, terms: &Terms, back: &Back, accepted: u16) -> Heard
        requires terms { TermsFit terms.now }
        requires round { accepted < terms.now.rounds }
        requires fits { AskingFits terms.now self.old.asking }
        ensures rule { Goes self.old self.new (rule.resumed terms.now back.now self.old.asking accepted) result }
        ensures fits { AskingFits terms.now self.new.asking }
        ensures sent { HeardFits result }
    {
        if back.leg == u32::MAX {
            return Heard::Stale;
        }
        if accepted + 1 == terms.rounds {
            let count = u64::from(terms.rounds) * u64::from(terms.budget);
            self.asking = Asking::Answered(Answer::Spent { count });
            return Heard::Answered;
        }
        let leg = next_round(terms, back);
        self.asking = waiting(&leg, accepted + 1);
        Heard::Sent(leg)
    }

    // Hears a back that is not stale but by its ending, after so many Resumes.
    fn hear_ending(&mut self, terms: &Terms, back: &Back, accepted: u16) -> Heard
        requires terms { TermsFit terms.now }
        requires round { accepted < terms.now.rounds }
        requires left { back.now.left ≤ terms.now.budget }
        requires fits { AskingFits terms.now self.old.asking }
        ensures rule { Goes self.old self.new (rule.hear_ending terms.now back.now self.old.asking accepted back.now.ending) result }
        ensures fits { AskingFits terms.now self.new.asking }
        ensures sent { HeardFits result }
    {
        let count = count_at(terms, accepted, back.left);
        match back.ending {
            Ending::Done => {
                self.asking = Asking::Answered(Answer::Done {
                    pad: back.pad,
                    count,
                });
                Heard::Answered
            }
            Ending::Fault(kind) => {
                let cur = back.cur;
                self.asking = Asking::Answered(Answer::Fault { kind, cur, count });
                Heard::Answered
            }
            Ending::Resume => self.resume(terms, back, accepted),
            Ending::Reroute => Heard::Stale,
        }
    }

    /// Hears a back.
    pub fn hear(&mut self, terms: &Terms, back: &Back) -> Heard
        requires terms { TermsFit terms.now }
        requires fits { AskingFits terms.now self.old.asking }
        ensures rule { Goes self.old self.new (rule.hear terms.now back.now self.old.asking) result }
        ensures fits { AskingFits terms.now self.new.asking }
        ensures sent { HeardFits result }
    {
        match &self.asking {
            Asking::Waiting { leg, accepted, .. } => {
                if is_stale(terms, leg, back) {
                    return Heard::Stale;
                }
                let accepted = *accepted;
                self.hear_ending(terms, back, accepted)
            }
            _ => Heard::Stale,
        }
    }
}
