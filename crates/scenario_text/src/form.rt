// The checks of a document that need no program.

ghost use Rattle.std.specs.Prelude.{◌≡◌, codes, nat_le};
ghost use Rattle.toml.specs.View.{table_view};
ghost use Rattle.scenario_text.specs.Form.{form_fault, limit, work_of};
ghost use Rattle.scenario_text.specs.Regions.{plan_regions};
ghost use Rattle.scenario_text.specs.Steps.{Gives};
ghost use Rattle.scenario_text.specs.Values.{regions_of};

use crate::fault::DocFault;
use crate::keys::check_top_keys;
use crate::limit::{check_limit, check_lists};
use crate::plan::PlanRegions;
use crate::region::read_regions;
use crate::request::check_requests;
use crate::table::{list_at, number_at};
use std::alloc::Global;
use toml::Table;

/// The most iterations of all requests together.
pub const MOST_WORK: u64 = 1_048_576;

fn check_work(alloc: Global, table: &Table) -> Result<(), DocFault>
    ensures { Gives (limit (codes "work") (nat_le (work_of (table_view table.now)) 1048576)) tt result }
{
    let each = number_at(table, "rounds", 16) as u128 * number_at(table, "budget", 64) as u128;
    let work = each.saturating_mul(list_at(table, "request").len() as u128);
    check_limit(alloc, "work", work <= MOST_WORK as u128)?;
    Ok(())
}

/// The regions of a document that passes the checks which need no program.
pub(crate) fn read_form(alloc: Global, table: &Table) -> Result<PlanRegions, DocFault>
    ensures { Gives (form_fault (table_view table.now)) (plan_regions (regions_of (table_view table.now))) result }
{
    check_top_keys(alloc, table)?;
    check_lists(alloc, table)?;
    let nodes = number_at(table, "nodes", 1);
    let regions = read_regions(alloc, nodes, list_at(table, "region"))?;
    check_requests(
        alloc,
        number_at(table, "clients", 1),
        list_at(table, "request"),
    )?;
    check_work(alloc, table)?;
    Ok(regions)
}
