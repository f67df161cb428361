// The nodes of a scenario.

ghost use Rattle.std.specs.Prelude.{◌≡◌, ◌≤◌, length, map, All, IfOk, IsTrue};
ghost use Rattle.scenario_run.specs.Start.{regions_on};
ghost use Rattle.scenario_text.specs.Accepted.{IsRunnable};
ghost use Rattle.scenario_parts.specs.Parts.{first_part, first_parts};

use node_core::{NodePart, Yard};
use pulse_base::{Bytes, Memory};
use pulse_codegen::Built;
use run_rules::{NodeRegion, NodeRegions};
use scenario_text::{Plan, PlanRegion};
use std::alloc::Global;

// The regions of node n, each under its number in the plan.
fn regions_on(alloc: Global, n: u16, regions: &[PlanRegion]) -> Result<NodeRegions, Memory>
    requires { length regions.now ≤ 64 }
    ensures { IfOk result (λ own. own ≡ regions_on n 0 regions.now) }
{
    let mut own = NodeRegions::new(alloc);
    'regions: for (k, region) in regions.iter().enumerate() {
        if region.node == n {
            own.push(NodeRegion {
                number: k as u16,
                span: region.span,
                bytes: Bytes::from_slice(alloc, region.bytes.as_slice())?,
            })?;
        }
    }
    Ok(own)
}

/// Node n of a scenario, as a yard makes it.
pub fn part_of<Y: Yard>(
    alloc: Global,
    yard: &mut Y,
    built: &Built,
    plan: &Plan,
    n: u16,
) -> Result<Y::Part, Memory>
    requires { IsRunnable (record { checked = (built.now).checked; plan = plan.now }) }
    ensures part { IfOk result (λ part. Y.Part.state part ≡ first_part (record { checked = (built.now).checked; plan = plan.now }) (built.now).images n) }
    ensures plain { IfOk result (λ part. IsTrue (Y.Part.plain part)) }
    ensures returned { Y.returned yard.new ≡ Y.returned yard.old }
{
    let regions = regions_on(alloc, n, plan.regions.as_slice())?;
    let images = built.copy_images(alloc)?;
    yard.make_part(regions, images, plan.slots)
}

/// The nodes of a scenario, by their numbers, as a yard makes them. Nothing is given back to it.
pub fn parts_of<Y: Yard>(
    alloc: Global,
    yard: &mut Y,
    built: &Built,
    plan: &Plan,
) -> Result<Vec<Y::Part>, Memory>
    requires { IsRunnable (record { checked = (built.now).checked; plan = plan.now }) }
    ensures parts { IfOk result (λ parts. map Y.Part.state parts.items ≡ first_parts (record { checked = (built.now).checked; plan = plan.now }) (built.now).images 0 (plan.now).nodes) }
    ensures plain { IfOk result (λ parts. All (λ p. IsTrue (Y.Part.plain p)) parts.items) }
    ensures returned { Y.returned yard.new ≡ Y.returned yard.old }
{
    let mut parts = Vec::new(alloc);
    'parts: for n in 0..plan.nodes {
        let part = part_of(alloc, yard, built, plan, n)?;
        match parts.push(part) {
            Ok(()) => {}
            Err(_) => return Err(Memory),
        }
    }
    Ok(parts)
}
