// The events of a schedule.

ghost use Rattle.std.specs.Prelude.{◌≡◌, ◌+◌, ◌≤◌, ◌++◌, ◌∷◌, [], All, IfOk, OnOk, length, if◌then◌else◌};
ghost use Rattle.scenario_text.specs.Accepted.{IsEventOf};
ghost use Rattle.replay.specs.inner.Runs.{AllPlain, Lasts, RunsEvents};

use node_core::NodePart;
use pulse_base::{Event, Memory, Trace, Traces};
use std::alloc::Global;
use world_core::World;

// Keeps what an event did, where that is told.
fn tell(traces: &mut Traces, told: bool, trace: Trace) -> Result<(), Memory>
    ensures { OnOk result (traces.new ≡ (if told then traces.old ++ trace ∷ [] else traces.old)) }
{
    if told {
        traces.push(trace)?;
    }
    Ok(())
}

/// Runs the events one after the other, and tells what each did where that is asked for.
pub(crate) fn run_events<N: NodePart>(
    alloc: Global,
    world: &mut World<N>,
    events: &[Event],
    told: bool,
) -> Result<Traces, Memory>
    requires there { All (IsEventOf (length world.old.homes) (length world.old.nodes)) events.now }
    requires plain { AllPlain world.old }
    requires few { length world.old.letters + length events.now ≤ 4000000000 }
    ensures runs { IfOk result (λ traces. RunsEvents world.old world.new events.now told traces) }
    ensures lasts { IfOk result (λ traces. Lasts world.old world.new) }
{
    let mut traces = Traces::new(alloc);
    'events: for event in events {
        let trace = world.event(*event)?;
        tell(&mut traces, told, trace)?;
    }
    Ok(traces)
}
