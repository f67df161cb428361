// From a document to the report of its walk.

ghost use Rattle.std.specs.Prelude.{◌≡◌, List, true, [], ◌∷◌, IfOk};
ghost use Rattle.node_core.specs.Part.{PartState};
ghost use Rattle.scenario_text.specs.Accepted.{IsRunnable};
ghost use Rattle.scenario_parts.specs.Yards.{GivesBack};
ghost use Rattle.replay.specs.Report.{IsReplay};
ghost use Rattle.flat_walk.specs.Form as f;
ghost use Rattle.flat_walk.specs.Report.{IsWalkReport};
ghost use Rattle.flat_walk.specs.Answer.{IsRefusal, WalkAnswer};

use crate::fault::WalkFault;
use node_core::Yard;
use pulse_base::{Bytes, Event, Events, Memory};
use replay::run_scenario;
use report_text::report;
use scenario_text::{DocFault, Plan, Scenario, read};
use std::alloc::Global;

/// The report of the walk that a document asks for, or why there is none. The yard makes the nodes, and is given them back in order
/// of number; it is left alone where the document is refused. The work grows with the text and with the iterations that are made.
pub fn walk<Y: Yard>(alloc: Global, text: &[u8], yard: &mut Y) -> Result<Bytes, WalkFault>
    ensures answer { WalkAnswer text.now (Y.returned yard.old) (Y.returned yard.new) result }
    ensures refused { IsRefusal result → yard.new ≡ yard.old }
{
    let scenario = match read(alloc, text) {
        Ok(scenario) => scenario,
        Err(DocFault::Memory) => return Err(WalkFault::Memory),
        Err(fault) => return Err(WalkFault::Document(fault)),
    };
    if !asks_for_one_walk(&scenario.plan) {
        return Err(WalkFault::Form);
    }
    match report_of(alloc, scenario, yard) {
        Ok(report) => Ok(report),
        Err(Memory) => Err(WalkFault::Memory),
    }
}

// Whether there are one region, one request and no key `events`.
fn asks_for_one_walk(plan: &Plan) -> bool
    ensures { result ≡ f.asks_for_one_walk plan.now }
{
    plan.regions.len() == 1 && plan.requests.len() == 1 && !plan.listed
}

// The scenario with the ask of its request as its one event.
fn asked(alloc: Global, mut scenario: Scenario) -> Result<Scenario, Memory>
    ensures { IfOk result (λ s. s ≡ f.asked scenario) }
{
    let mut events = Events::new(alloc);
    events.push(Event::Ask(0))?;
    scenario.plan.events = events;
    Ok(scenario)
}

// The report of a scenario that asks for one walk.
fn report_of<Y: Yard>(alloc: Global, scenario: Scenario, yard: &mut Y) -> Result<Bytes, Memory>
    requires runnable { IsRunnable scenario }
    requires one { f.asks_for_one_walk scenario.plan ≡ true }
    ensures { IfOk result (λ report. (parts : List PartState) × IsWalkReport scenario report × IsReplay (f.asked scenario) report parts × GivesBack (Y.returned yard.old) (Y.returned yard.new) parts) }
{
    let asked = asked(alloc, scenario)?;
    let left = run_scenario(alloc, asked, yard)?;
    report(alloc, &left.outcome)
}
