// The regions of a document.

ghost use Rattle.std.specs.Prelude.{◌≡◌, ◌≤◌, ◌<◌, ◌+◌, ◌-◌, ◌^◌, ◌++◌, [], ◌∷◌, IfOk, OnOk, length, replicate};
ghost use Rattle.toml.specs.View.{items_view, table_view};
ghost use Rattle.scenario_text.specs.Form.{prefix_of, region_fault, regions_fault};
ghost use Rattle.scenario_text.specs.Regions.{plan_region, plan_regions};
ghost use Rattle.scenario_text.specs.Steps.{Gives};
ghost use Rattle.scenario_text.specs.Values.{node_of, or_nothing, region_hex, region_size, region_zeros};

use crate::fault::DocFault;
use crate::keys::{check_keys, region_keys};
use crate::limit::check_limit;
use crate::plan::{PlanRegion, PlanRegions};
use crate::table::{number_at, text_at, truth_at};
use itoa::Buffer;
use pulse_base::{Bytes, Memory};
use range_table::RegionSpan;
use std::alloc::Global;
use toml::{Table, Value};

/// The most bytes of all regions together.
pub const MOST_BYTES: u64 = 16_777_216;

// The most bytes of a region that is shown in full, if nothing else is said.
const MOST_SHOWN: u64 = 4_096;

/// What stands before the names of the keys of an entry: its list, its number and two dots.
pub(crate) fn prefix_of(alloc: Global, list: &str, i: u32) -> Result<Bytes, Memory>
    ensures { IfOk result (λ prefix. prefix ≡ prefix_of list.now i) }
{
    let mut prefix = Bytes::new(alloc);
    prefix.append(list.as_bytes())?;
    prefix.append(b".")?;
    let mut buffer = Buffer::new();
    prefix.append(buffer.format(i).as_bytes())?;
    prefix.append(b".")?;
    Ok(prefix)
}

// The bytes of a region's `hex`.
#[tactic(auto, using(crate::proofs::Ranges::node_in_range, crate::proofs::Ranges::zeros_in_range))]
fn check_region(alloc: Global, nodes: u64, i: u32, table: &Table) -> Result<Bytes, DocFault>
    ensures hex { Gives (region_fault nodes i (table_view table.now)) (or_nothing (region_hex (table_view table.now))) result }
    ensures node { OnOk result (node_of (table_view table.now) ≤ nodes - 1) }
    ensures zeros { OnOk result (region_zeros (table_view table.now) ≤ 16777216) }
{
    let prefix = match prefix_of(alloc, "region", i) {
        Ok(prefix) => prefix,
        Err(Memory) => return Err(DocFault::Memory),
    };
    check_keys(alloc, prefix.as_slice(), &region_keys(nodes), table)?;
    match hex::decode(alloc, text_at(table, "hex")) {
        Ok(bytes) => Ok(Bytes::from_vec(bytes)),
        Err(hex::FromHexError::OutOfMemory) => Err(DocFault::Memory),
        Err(_) => Err(DocFault::Hex(i)),
    }
}

// Some bytes, and zeros after them.
fn with_zeros(bytes: Bytes, zeros: u64) -> Result<Bytes, Memory>
    requires { length bytes + zeros < 2 ^ 63 }
    ensures { IfOk result (λ more. more ≡ bytes ++ replicate zeros 0) }
{
    let mut items = bytes.into_vec();
    let len = items.len() + zeros as usize;
    match items.resize(len, 0) {
        Ok(()) => Ok(Bytes::from_vec(items)),
        Err(_) => Err(Memory),
    }
}

// A region whose keys have no fault and whose `hex` gives these bytes.
fn plan_region(table: &Table, bytes: Bytes) -> Result<PlanRegion, Memory>
    requires hex { bytes ≡ or_nothing (region_hex (table_view table.now)) }
    requires node { node_of (table_view table.now) < 2 ^ 16 }
    requires size { region_size (table_view table.now) ≤ 16777216 }
    ensures { IfOk result (λ region. region ≡ plan_region (table_view table.now)) }
{
    let zeros = number_at(table, "zeros", 0);
    let len = bytes.len() as u64 + zeros;
    let span = RegionSpan {
        base: number_at(table, "base", 0),
        len,
        read: truth_at(table, "read", true),
        write: truth_at(table, "write", true),
    };
    let node = number_at(table, "node", 0) as u16;
    let shown = truth_at(table, "show", len <= MOST_SHOWN);
    let bytes = with_zeros(bytes, zeros)?;
    Ok(PlanRegion {
        span,
        node,
        shown,
        bytes,
    })
}

// The next region, which is added where so many bytes, it included, are not too many; and how many they are.
fn add_region(
    alloc: Global,
    nodes: u64,
    i: u32,
    table: &Table,
    before: u128,
    regions: &mut PlanRegions,
) -> Result<u128, DocFault>
    requires nodes { nodes ≤ 64 }
    requires before { before < 2 ^ 127 }
    ensures size { Gives (region_fault nodes i (table_view table.now)) (before + region_size (table_view table.now)) result }
    ensures bound { IfOk result (λ total. total ≤ before + 2 ^ 65) }
    ensures added { IfOk result (λ total. total ≤ 16777216 → regions.new ≡ regions.old ++ plan_region (table_view table.now) ∷ []) }
{
    let bytes = check_region(alloc, nodes, i, table)?;
    let total = before + bytes.len() as u128 + number_at(table, "zeros", 0) as u128;
    if total > MOST_BYTES as u128 {
        return Ok(total);
    }
    let region = match plan_region(table, bytes) {
        Ok(region) => region,
        Err(Memory) => return Err(DocFault::Memory),
    };
    match regions.push(region) {
        Ok(()) => Ok(total),
        Err(Memory) => Err(DocFault::Memory),
    }
}

/// The regions, where each is in order and all together have not too many bytes. Never more than
/// [`MOST_BYTES`] are made, whatever the document asks for.
pub(crate) fn read_regions(
    alloc: Global,
    nodes: u64,
    values: &[Value],
) -> Result<PlanRegions, DocFault>
    requires nodes { nodes ≤ 64 }
    requires few { length values.now < 2 ^ 32 }
    ensures { Gives (regions_fault nodes (items_view values.now)) (plan_regions (items_view values.now)) result }
{
    let mut regions = PlanRegions::new(alloc);
    let mut total: u128 = 0;
    let mut at = 0;
    'regions: while at < values.len() {
        if let Some(table) = values[at].as_table() {
            total = add_region(alloc, nodes, at as u32, table, total, &mut regions)?;
        }
        at += 1;
    }
    check_limit(alloc, "bytes", total <= MOST_BYTES as u128)?;
    Ok(regions)
}
