// The switch of a scenario.

ghost use Rattle.std.specs.Prelude.{◌≡◌, map, All, IfOk};
ghost use Rattle.iter_check.specs.Layout.{size_of};
ghost use Rattle.iter_check.specs.FaultList.{record_fields};
ghost use Rattle.range_table.specs.Table.{IsTable};
ghost use Rattle.scenario_text.specs.Accepted.{IsRunnable};
ghost use Rattle.switch_core.specs.Owners.{IsRecordSize};
ghost use Rattle.scenario_parts.specs.Switch.{first_switch};

use iter_check::Checked;
use pulse_base::{Memory, Numbers};
use range_table::{Regions, Table};
use scenario_text::{Plan, PlanRegion};
use std::alloc::Global;
use switch_core::Switch;

// The spans of regions, as a table.
fn table_of(alloc: Global, regions: &[PlanRegion]) -> Result<Table, Memory>
    requires { IsTable (map (λ r. r.span) regions.now) }
    ensures { IfOk result (λ t. t ≡ map (λ r. r.span) regions.now) }
{
    let mut spans = Regions::new(alloc);
    'spans: for region in regions {
        spans.push(region.span)?;
    }
    match Table::new(spans) {
        Ok(table) => Ok(table),
        Err(_) => unreachable!(),
    }
}

/// The node of each region.
pub fn owners_of(alloc: Global, regions: &[PlanRegion]) -> Result<Numbers, Memory>
    ensures { IfOk result (λ owners. owners ≡ map (λ r. r.node) regions.now) }
{
    let mut owners = Numbers::new(alloc);
    'owners: for region in regions {
        owners.push(u32::from(region.node))?;
    }
    Ok(owners)
}

// The bytes of a record of each iterator.
fn sizes_of(alloc: Global, checked: &Checked) -> Result<Numbers, Memory>
    ensures sizes { IfOk result (λ sizes. sizes ≡ map (λ it. size_of (record_fields (checked.now).records it)) (checked.now).iters) }
    ensures bounds { IfOk result (All IsRecordSize) }
{
    let mut sizes = Numbers::new(alloc);
    'sizes: for iter in 0..checked.iters() {
        sizes.push(u32::from(checked.record_size(iter)))?;
    }
    Ok(sizes)
}

/// The switch of a scenario.
pub fn switch_of(alloc: Global, checked: &Checked, plan: &Plan) -> Result<Switch, Memory>
    requires { IsRunnable (record { checked = checked.now; plan = plan.now }) }
    ensures { IfOk result (λ s. s ≡ first_switch (record { checked = checked.now; plan = plan.now })) }
{
    let table = table_of(alloc, plan.regions.as_slice())?;
    let owners = owners_of(alloc, plan.regions.as_slice())?;
    let sizes = sizes_of(alloc, checked)?;
    Ok(Switch::make(table, owners, sizes, plan.clients))
}
