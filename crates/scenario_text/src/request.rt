// The requests of a document.

ghost use Rattle.std.specs.Prelude.{◌≡◌, ◌≤◌, ◌<◌, ◌^◌, [], Some, length};
ghost use Rattle.toml.specs.View.{items_view, table_view};
ghost use Rattle.iter_check.specs.FaultList.{fault_list};
ghost use Rattle.scenario_text.specs.Form.{each, request_fault};
ghost use Rattle.scenario_text.specs.OfProgram.{arg_count, iter_fault};
ghost use Rattle.scenario_text.specs.Plan.{plan_args, plan_request, plan_requests};
ghost use Rattle.scenario_text.specs.Steps.{AreSmallClients, Gives};
ghost use Rattle.scenario_text.specs.Values.{client_of};

use crate::fault::DocFault;
use crate::keys::{check_keys, request_keys};
use crate::number::argument_of;
use crate::region::prefix_of;
use crate::table::{list_at, number_at, text_at};
use arrayvec::ArrayVec;
use iter_check::Checked;
use pulse_base::{Memory, RequestPlan, Requests};
use std::alloc::Global;
use toml::{Table, Value};

fn check_request(alloc: Global, clients: u64, i: u32, table: &Table) -> Result<(), DocFault>
    ensures { Gives (request_fault clients i (table_view table.now)) tt result }
{
    let prefix = match prefix_of(alloc, "request", i) {
        Ok(prefix) => prefix,
        Err(Memory) => return Err(DocFault::Memory),
    };
    check_keys(alloc, prefix.as_slice(), &request_keys(clients), table)
}

/// The keys of each request.
pub(crate) fn check_requests(alloc: Global, clients: u64, values: &[Value]) -> Result<(), DocFault>
    requires few { length values.now < 2 ^ 32 }
    ensures { Gives (each (request_fault clients) 0 (items_view values.now)) tt result }
{
    let mut at = 0;
    'requests: while at < values.len() {
        if let Some(table) = values[at].as_table() {
            check_request(alloc, clients, at as u32, table)?;
        }
        at += 1;
    }
    Ok(())
}

// The arguments of some values.
fn args_of(values: &[Value]) -> ArrayVec<u64, 8>
    requires { length values.now ≤ 8 }
    ensures { result.items ≡ plan_args (items_view values.now) }
{
    let mut args = ArrayVec::new();
    let mut at = 0;
    'values: while at < values.len() {
        if let Some(arg) = argument_of(&values[at]) {
            args.push(arg);
        }
        at += 1;
    }
    args
}

// How many arguments the iterator of a number has.
fn arg_count(checked: &Checked, iter: usize) -> usize
    requires { iter < length (checked.now).iters }
    ensures { arg_count checked.now iter ≡ Some result }
{
    checked.program().iters.get(iter).args.len()
}

#[tactic(auto, using(crate::proofs::ProgramLimits::few_iters, crate::proofs::ProgramLimits::few_args, crate::proofs::ProgramLimits::place_within))]
// A request, or the lack of its iterator or of its arguments.
fn read_request(checked: &Checked, i: u32, table: &Table) -> Result<RequestPlan, DocFault>
    requires accepted { fault_list checked.now ≡ [] }
    requires client { client_of (table_view table.now) < 2 ^ 16 }
    ensures { Gives (iter_fault checked.now i (table_view table.now)) (plan_request checked.now i (table_view table.now)) result }
{
    let iter = match checked.iter_index(text_at(table, "iter").as_bytes()) {
        Some(iter) => iter,
        None => return Err(DocFault::Iter(i)),
    };
    let values = list_at(table, "args");
    if values.len() != arg_count(checked, iter) {
        return Err(DocFault::Args(i));
    }
    Ok(RequestPlan {
        number: i,
        iter: iter as u16,
        client: number_at(table, "client", 0) as u16,
        args: args_of(values),
    })
}

/// The requests, where the keys of each have no fault.
pub(crate) fn read_requests(
    alloc: Global,
    checked: &Checked,
    values: &[Value],
) -> Result<Requests, DocFault>
    requires accepted { fault_list checked.now ≡ [] }
    requires clients { AreSmallClients (items_view values.now) }
    requires few { length values.now < 2 ^ 32 }
    ensures { Gives (each (iter_fault checked.now) 0 (items_view values.now)) (plan_requests checked.now (items_view values.now)) result }
{
    let mut requests = Requests::new(alloc);
    let mut at = 0;
    'requests: while at < values.len() {
        if let Some(table) = values[at].as_table() {
            let request = read_request(checked, at as u32, table)?;
            if requests.push(request).is_err() {
                return Err(DocFault::Memory);
            }
        }
        at += 1;
    }
    Ok(requests)
}
