// The checks of a document that need its program, and its plan.

ghost use Rattle.std.specs.Prelude.{◌≡◌, ◌≤◌, [], None, IfOk, OnOk, map};
ghost use Rattle.toml.specs.View.{table_view};
ghost use Rattle.iter_check.specs.FaultList.{fault_list};
ghost use Rattle.range_table.specs.Table.{IsTable};
ghost use Rattle.scenario_text.specs.Form.{form_fault};
ghost use Rattle.scenario_text.specs.Keys.{keys_fault, top_keys};
ghost use Rattle.scenario_text.specs.OfProgram.{place_of, rest_fault, spans_fault};
ghost use Rattle.scenario_text.specs.Plan.{plan_of, plan_with};
ghost use Rattle.scenario_text.specs.Regions.{plan_regions, spans};
ghost use Rattle.scenario_text.specs.Steps.{Gives};
ghost use Rattle.scenario_text.specs.Values.{regions_of};

use crate::event::read_events;
use crate::fault::DocFault;
use crate::key::find;
use crate::plan::{Plan, PlanRegion, PlanRegions};
use crate::request::read_requests;
use crate::table::{list_at, number_at, truth_at};
use iter_check::Checked;
use pulse_base::{Events, Memory, Requests};
use range_table::{Regions, Table as RangeTable, TableFault};
use std::alloc::Global;
use toml::Table;

fn spans_of(alloc: Global, regions: &[PlanRegion]) -> Result<Regions, Memory>
    ensures { IfOk result (λ spans. spans ≡ map (λ r. r.span) regions.now) }
{
    let mut spans = Regions::new(alloc);
    'regions: for region in regions {
        spans.push(region.span)?;
    }
    Ok(spans)
}

// The region of a table's fault: of an overlap, the later one.
fn place_of(fault: TableFault) -> u32
    ensures { result ≡ place_of fault }
{
    match fault {
        TableFault::TooMany => 0,
        TableFault::Empty(i) => i,
        TableFault::Range(i) => i,
        TableFault::Overlap(_, i) => i,
    }
}

fn check_spans(alloc: Global, regions: &[PlanRegion]) -> Result<(), DocFault>
    ensures fault { Gives (spans_fault (map (λ r. r.span) regions.now)) tt result }
    ensures table { OnOk result (IsTable (map (λ r. r.span) regions.now)) }
{
    let spans = match spans_of(alloc, regions) {
        Ok(spans) => spans,
        Err(Memory) => return Err(DocFault::Memory),
    };
    match RangeTable::new(spans) {
        Ok(_) => Ok(()),
        Err(fault) => Err(DocFault::Region(place_of(fault), fault)),
    }
}

// The plan of a table whose own keys have no fault, with its lists.
fn plan_with(table: &Table, events: Events, regions: PlanRegions, requests: Requests) -> Plan
    requires { keys_fault [] top_keys (table_view table.now) ≡ None }
    ensures { result ≡ plan_with (table_view table.now) events regions requests }
{
    Plan {
        nodes: number_at(table, "nodes", 1) as u16,
        slots: number_at(table, "slots", 8) as u32,
        budget: number_at(table, "budget", 64) as u16,
        rounds: number_at(table, "rounds", 16) as u16,
        tries: number_at(table, "tries", 16) as u16,
        clients: number_at(table, "clients", 1) as u16,
        port: number_at(table, "port", 47_000) as u16,
        trace: truth_at(table, "trace", false),
        listed: find(table, "events").is_some(),
        events,
        regions,
        requests,
    }
}

/// The plan of a document that passes the checks which need no program, with these regions.
pub(crate) fn read_plan(
    alloc: Global,
    table: &Table,
    checked: &Checked,
    regions: PlanRegions,
) -> Result<Plan, DocFault>
    requires form { form_fault (table_view table.now) ≡ None }
    requires accepted { fault_list checked.now ≡ [] }
    requires regions { regions ≡ plan_regions (regions_of (table_view table.now)) }
    ensures plan { Gives (rest_fault checked.now (table_view table.now)) (plan_of checked.now (table_view table.now)) result }
    ensures table { OnOk result (IsTable (spans (regions_of (table_view table.now)))) }
{
    check_spans(alloc, regions.as_slice())?;
    let values = list_at(table, "request");
    let requests = read_requests(alloc, checked, values)?;
    let nodes = number_at(table, "nodes", 1);
    let events = read_events(alloc, values.len() as u64, nodes, list_at(table, "events"))?;
    Ok(plan_with(table, events, regions, requests))
}
