// The run of a scenario, on nodes that a yard makes.

ghost use Rattle.std.specs.Prelude.{List, map, IfOk, OnOk};
ghost use Rattle.node_core.specs.Part.{PartState};
ghost use Rattle.scenario_text.specs.Accepted.{IsRunnable};
ghost use Rattle.scenario_parts.specs.Yards.{GivesBack};
ghost use Rattle.replay.specs.Report.{IsReplayed};

use crate::making::make;
use crate::running::run_events;
use crate::telling::outcome_of;
use node_core::Yard;
use pulse_base::Memory;
use pulse_codegen::build;
use report_text::Outcome;
use scenario_parts::parts_of;
use scenario_text::Scenario;
use std::alloc::Global;

/// What the run of a scenario leaves, and how many letters it sent, those of its drain included.
#[derive(Debug, Drop)]
pub struct Replayed {
    pub outcome: Outcome,
    pub letters: u32,
}

// Gives nodes back to their yard, in order.
fn give_back<Y: Yard>(yard: &mut Y, parts: Vec<Y::Part>) -> Result<(), Memory>
    ensures { OnOk result (GivesBack (Y.returned yard.old) (Y.returned yard.new) (map Y.Part.state parts.items)) }
{
    for part in parts {
        yard.give_back(part)?;
    }
    Ok(())
}

/// Runs the schedule of a scenario and then the drain, on nodes that the yard makes and is given back in order of number.
pub fn run_scenario<Y: Yard>(
    alloc: Global,
    scenario: Scenario,
    yard: &mut Y,
) -> Result<Replayed, Memory>
    requires { IsRunnable scenario }
    ensures { IfOk result (λ left. (parts : List PartState) × IsReplayed scenario left parts × GivesBack (Y.returned yard.old) (Y.returned yard.new) parts) }
{
    let Scenario { checked, plan } = scenario;
    let built = build(alloc, checked)?;
    let parts = parts_of(alloc, yard, &built, &plan)?;
    let mut world = make(alloc, &built, &plan, parts)?;
    let traces = run_events(alloc, &mut world, plan.events.as_slice(), plan.trace)?;
    world.drain()?;
    let outcome = outcome_of(alloc, &plan, traces, &world)?;
    let letters = world.letters();
    give_back(yard, world.end())?;
    Ok(Replayed { outcome, letters })
}
