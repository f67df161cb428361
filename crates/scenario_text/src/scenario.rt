// A scenario, and the reading of a document.

ghost use Rattle.std.specs.Prelude.{IfErr, IfOk};
ghost use Rattle.scenario_text.specs.Accepted.{IsRunnable};
ghost use Rattle.scenario_text.specs.Scenario.{HasCause, HasOneAnswer, ReadAnswer};
ghost use Rattle.toml.specs.View.{table_view};
ghost use Rattle.scenario_text.specs.Steps.{TableAnswer};

use crate::fault::DocFault;
use crate::form::read_form;
use crate::plan::Plan;
use crate::program::read_program;
use crate::rest::read_plan;
use crate::table::text_at;
use iter_check::Checked;
use std::alloc::Global;
use toml::Table;

/// An accepted document: its program, and what is to be run of it.
#[derive(Debug, Drop)]
pub struct Scenario {
    pub checked: Checked,
    pub plan: Plan,
}

// The scenario of a document's table, or its first failing check.
fn read_table(alloc: Global, table: &Table) -> Result<Scenario, DocFault>
    ensures answer { TableAnswer (table_view table.now) result }
    ensures runnable { IfOk result IsRunnable }
{
    let regions = match read_form(alloc, table) {
        Ok(regions) => regions,
        Err(fault) => return Err(fault),
    };
    let checked = match read_program(alloc, text_at(table, "program").as_bytes()) {
        Ok(checked) => checked,
        Err(fault) => return Err(fault),
    };
    match read_plan(alloc, table, &checked, regions) {
        Ok(plan) => Ok(Scenario { checked, plan }),
        Err(fault) => Err(fault),
    }
}

/// The scenario of a document, or its first failing check. The work and the memory grow with the text.
pub fn read(alloc: Global, text: &[u8]) -> Result<Scenario, DocFault>
    ensures answer { ReadAnswer text.now result }
    ensures one_answer { HasOneAnswer text.now }
    ensures runnable { IfOk result IsRunnable }
    ensures cause { IfErr result HasCause }
{
    match toml::table_from_slice(alloc, text) {
        Ok(table) => read_table(alloc, &table),
        Err(error) => Err(if error.is_memory() {
            DocFault::Memory
        } else {
            DocFault::Toml
        }),
    }
}
