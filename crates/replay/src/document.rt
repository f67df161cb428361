// From a document to the report of its schedule's run.

ghost use Rattle.std.specs.Prelude.{◌≡◌, ◌≢◌, List, IfErr, IfOk};
ghost use Rattle.node_core.specs.Part.{PartState};
ghost use Rattle.scenario_text.specs.Accepted.{IsRunnable};
ghost use Rattle.scenario_parts.specs.Yards.{GivesBack};
ghost use Rattle.replay.specs.Answer.{ReplayAnswer};
ghost use Rattle.replay.specs.Report.{IsReplay};

use crate::scenario::run_scenario;
use node_core::Yard;
use pulse_base::{Bytes, Memory};
use report_text::report;
use scenario_text::{DocFault, Scenario, read};
use std::alloc::Global;

// The report of a scenario's run.
fn report_of<Y: Yard>(alloc: Global, scenario: Scenario, yard: &mut Y) -> Result<Bytes, Memory>
    requires { IsRunnable scenario }
    ensures { IfOk result (λ bytes. (parts : List PartState) × IsReplay scenario bytes parts × GivesBack (Y.returned yard.old) (Y.returned yard.new) parts) }
{
    let left = run_scenario(alloc, scenario, yard)?;
    report(alloc, &left.outcome)
}

/// The report of the replay that a document asks for, or why there is none. The yard makes the nodes, and is given them back in order
/// of number. The work grows with the text and with the iterations that are made.
pub fn replay<Y: Yard>(alloc: Global, text: &[u8], yard: &mut Y) -> Result<Bytes, DocFault>
    ensures answer { ReplayAnswer text.now (Y.returned yard.old) (Y.returned yard.new) result }
    ensures refused { IfErr result (λ fault. fault ≢ DocFault.Memory → yard.new ≡ yard.old) }
{
    let scenario = read(alloc, text)?;
    match report_of(alloc, scenario, yard) {
        Ok(report) => Ok(report),
        Err(Memory) => Err(DocFault::Memory),
    }
}
