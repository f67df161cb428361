// What a report tells of a world.

ghost use Rattle.std.specs.Prelude.{◌≡◌, ◌<◌, ◌≤◌, map, IfOk, length, Some, slice_get, if◌then◌else◌, []};
ghost use Rattle.run_rules.specs.Client.{answer_of};
ghost use Rattle.world_core.specs.Scene.{owner_in, world_of};
ghost use Rattle.replay.specs.Report as r;
ghost use Rattle.replay.specs.inner.Held.{AreHeld, IsHeld};

use node_core::NodePart;
use pulse_base::{Answer, Answers, Bytes, Memory, Numbers, Traces};
use report_text::{OutRegion, OutRegions, Outcome};
use scenario_text::{Plan, PlanRegion};
use std::alloc::Global;
use world_core::World;

// The answer of each request.
fn answers_of<N: NodePart>(alloc: Global, world: &World<N>) -> Result<Answers, Memory>
    requires { length (world.now).homes ≤ 1000 }
    ensures { IfOk result (λ answers. answers ≡ map answer_of (world_of world.now).asking) }
{
    let mut answers = Answers::new(alloc);
    let count = world.requests() as u32;
    'answers: for request in 0..count {
        answers.push(*world.answer(request))?;
    }
    Ok(answers)
}

// A region of the plan, as its node has it.
fn region_of<N: NodePart>(
    alloc: Global,
    world: &World<N>,
    number: u16,
    region: &PlanRegion,
) -> Result<OutRegion, Memory>
    requires there { number < length (world.now).switch.owners }
    requires owned { owner_in world.now number ≡ region.now.node }
    requires held { IsHeld (world.now).nodes number region.now }
    ensures { IfOk result (λ out. out ≡ record { shown = region.now.shown; bytes = r.bytes_in (slice_get (world_of world.now).nodes region.now.node) number }) }
{
    let mut bytes = Bytes::from_slice(alloc, region.bytes.as_slice())?.into_vec();
    world.region(number, 0, &mut bytes);
    Ok(OutRegion {
        shown: region.shown,
        bytes: Bytes::from_vec(bytes),
    })
}

// The regions of the plan, each as its node has it.
fn regions_of<N: NodePart>(
    alloc: Global,
    world: &World<N>,
    regions: &[PlanRegion],
) -> Result<OutRegions, Memory>
    requires few { length regions.now ≤ 64 }
    requires owners { (world.now).switch.owners ≡ map (λ r. r.node) regions.now }
    requires held { AreHeld world.now regions.now }
    ensures { IfOk result (λ out. out ≡ r.out_regions (world_of world.now) 0 regions.now) }
{
    let mut out = OutRegions::new(alloc);
    'regions: for (k, region) in regions.iter().enumerate() {
        out.push(region_of(alloc, world, k as u16, region)?)?;
    }
    Ok(out)
}

/// What the run of a plan leaves, with these traces.
pub(crate) fn outcome_of<N: NodePart>(
    alloc: Global,
    plan: &Plan,
    traces: Traces,
    world: &World<N>,
) -> Result<Outcome, Memory>
    requires few { length (plan.now).regions ≤ 64 }
    requires requests { length (world.now).homes ≤ 1000 }
    requires owners { (world.now).switch.owners ≡ map (λ r. r.node) (plan.now).regions }
    requires held { AreHeld world.now (plan.now).regions }
    ensures { IfOk result (λ o. o ≡ record {
      trace = traces;
      order = (world.now).order;
      answers = map answer_of (world_of world.now).asking;
      regions = r.out_regions (world_of world.now) 0 (plan.now).regions;
    }) }
{
    let order = Numbers::from_slice(alloc, world.order().as_slice())?;
    let answers = answers_of(alloc, world)?;
    let regions = regions_of(alloc, world, plan.regions.as_slice())?;
    Ok(Outcome {
        trace: traces,
        order,
        answers,
        regions,
    })
}
