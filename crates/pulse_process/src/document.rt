// The scenario of a document.

ghost use Rattle.std.specs.Prelude.{◌≡◌, ◌≢◌, Ok, Err, IfOk, IfErr};
ghost use Rattle.scenario_text.specs.Accepted.{IsRunnable};
ghost use Rattle.scenario_text.specs.Scenario.{ReadAnswer};
ghost use Rattle.pulse_process.specs.Answer.{Faults};

use crate::fault::ProcessFault;
use scenario_text::{DocFault, Scenario, read};
use std::alloc::Global;

/// Reads the scenario of a document.
pub fn read_scenario(alloc: Global, text: &[u8]) -> Result<Scenario, ProcessFault>
    ensures scenario { IfOk result (λ s. ReadAnswer text.now (Ok s)) }
    ensures runnable { IfOk result IsRunnable }
    ensures refused { IfErr result (Faults text.now (λ l. ⊥)) }
    ensures cause { IfErr result (λ f. f ≢ ProcessFault.Link) }
{
    match read(alloc, text) {
        Ok(scenario) => Ok(scenario),
        Err(DocFault::Memory) => Err(ProcessFault::Memory),
        Err(fault) => Err(ProcessFault::Document(fault)),
    }
}
