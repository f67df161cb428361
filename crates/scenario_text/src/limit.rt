// The limits of a document.

ghost use Rattle.std.specs.Prelude.{◌≡◌};
ghost use Rattle.toml.specs.View.{table_view};
ghost use Rattle.scenario_text.specs.Form.{lists_fault, limit};
ghost use Rattle.scenario_text.specs.Steps.{Gives};

use crate::fault::DocFault;
use crate::table::{list_at, text_at};
use pulse_base::{Bytes, Memory};
use std::alloc::Global;
use toml::Table;

/// Nothing where a limit is kept, or else its fault.
pub(crate) fn check_limit(alloc: Global, name: &str, is_kept: bool) -> Result<(), DocFault>
    ensures { Gives (limit name.now is_kept) tt result }
{
    if is_kept {
        return Ok(());
    }
    match Bytes::from_slice(alloc, name.as_bytes()) {
        Ok(name) => Err(DocFault::Limit(name)),
        Err(Memory) => Err(DocFault::Memory),
    }
}

/// The limits of the program's text and of the lists.
pub(crate) fn check_lists(alloc: Global, table: &Table) -> Result<(), DocFault>
    ensures { Gives (lists_fault (table_view table.now)) tt result }
{
    check_limit(alloc, "program", text_at(table, "program").len() <= 65_536)?;
    let regions = list_at(table, "region").len();
    check_limit(alloc, "region", 1 <= regions && regions <= 64)?;
    let requests = list_at(table, "request").len();
    check_limit(alloc, "request", 1 <= requests && requests <= 1_000)?;
    check_limit(alloc, "events", list_at(table, "events").len() <= 100_000)?;
    Ok(())
}
