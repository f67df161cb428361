// The world of a scenario before its first event.

ghost use Rattle.std.specs.Prelude.{◌≡◌, map, All, IfOk, IsTrue};
ghost use Rattle.scenario_text.specs.Accepted.{IsRunnable};
ghost use Rattle.scenario_parts.specs.Parts.{first_parts};
ghost use Rattle.replay.specs.inner.Made.{IsMade};

use crate::arguments::arguments_fit;
use node_core::NodePart;
use pulse_base::Memory;
use pulse_codegen::Built;
use scenario_parts::{clients_of, homes_of, owners_of, switch_of};
use scenario_text::Plan;
use std::alloc::Global;
use world_core::World;

/// The world of a scenario before its first event, with these nodes.
pub(crate) fn make<N: NodePart>(
    alloc: Global,
    built: &Built,
    plan: &Plan,
    nodes: Vec<N>,
) -> Result<World<N>, Memory>
    requires runnable { IsRunnable (record { checked = (built.now).checked; plan = plan.now }) }
    requires first { map N.state nodes.items ≡ first_parts (record { checked = (built.now).checked; plan = plan.now }) (built.now).images 0 (plan.now).nodes }
    requires plain { All (λ n. IsTrue (N.plain n)) nodes.items }
    ensures { IfOk result (λ w. IsMade (record { checked = (built.now).checked; plan = plan.now }) (built.now).images w) }
{
    arguments_fit(plan.requests.as_slice());
    let switch = switch_of(alloc, built.checked(), plan)?;
    let owners = owners_of(alloc, plan.regions.as_slice())?;
    let images = built.copy_images(alloc)?;
    let homes = homes_of(alloc, plan.requests.as_slice())?;
    let clients = clients_of(alloc, built, plan)?;
    Ok(World::of(alloc, switch, owners, images, homes, nodes, clients))
}
