// From a shape to the summary of the replay of its document.

ghost use Rattle.std.specs.Prelude.{◌≡◌, List, IfOk};
ghost use Rattle.node_core.specs.Part.{PartState};
ghost use Rattle.scenario_text.specs.Accepted.{IsRunnable};
ghost use Rattle.shape_build.specs.Shape.{InRange};
ghost use Rattle.scenario_parts.specs.Yards.{GivesBack};
ghost use Rattle.replay.specs.Report.{IsReplayed};
ghost use Rattle.drill.specs.Answer.{DrillAnswer, IsRefused};
ghost use Rattle.drill.specs.Summary.{summary};

use crate::summary::summary;
use node_core::Yard;
use pulse_base::{Bytes, Memory};
use replay::{Replayed, run_scenario};
use scenario_text::{DocFault, Scenario, read};
use shape_build::{Shape, generate};
use std::alloc::Global;

// The summary of a scenario's run.
fn summary_of<Y: Yard>(
    alloc: Global,
    shape: &Shape,
    scenario: Scenario,
    yard: &mut Y,
) -> Result<Bytes, Memory>
    requires { IsRunnable scenario }
    ensures { IfOk result (λ output. (left : Replayed) × (parts : List PartState) × IsReplayed scenario left parts × (output ≡ summary shape.now left) × GivesBack (Y.returned yard.old) (Y.returned yard.new) parts) }
{
    let left = run_scenario(alloc, scenario, yard)?;
    summary(alloc, shape, &left)
}

/// The summary of the replay of a shape's document, or why that document is refused. The yard makes the nodes, and is given
/// them back in order of number. The work grows with the document and with the iterations that are made.
pub fn drill<Y: Yard>(alloc: Global, shape: &Shape, yard: &mut Y) -> Result<Bytes, DocFault>
    requires { InRange shape.now }
    ensures answer { DrillAnswer shape.now (Y.returned yard.old) (Y.returned yard.new) result }
    ensures refused { IsRefused result → yard.new ≡ yard.old }
{
    let Ok(text) = generate(alloc, shape) else {
        return Err(DocFault::Memory);
    };
    let scenario = read(alloc, text.as_slice())?;
    match summary_of(alloc, shape, scenario, yard) {
        Ok(summary) => Ok(summary),
        Err(Memory) => Err(DocFault::Memory),
    }
}
