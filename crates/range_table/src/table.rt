// The table of a memory's regions, and the search for the one that holds a span.

ghost use Rattle.std.specs.Prelude.{◌≡◌, ℕ, ◌<◌, ◌≤◌, ◌↔◌, [], Some, None, length, slice_get, IsTrue, IsOk, IfOk, IfErr};
ghost use Rattle.range_table.specs.Memory.{holds, region_at, region_of};
ghost use Rattle.range_table.specs.Table.{IsTable, table_fault};

use crate::fault::TableFault;
use crate::order::{Order, count_up_to};
use crate::region::{RegionSpan, Regions};
use std::marker::Model;

/// The most regions of a table.
pub const MOST_REGIONS: usize = 64;

/// The regions of a memory, of which no two overlap. Contracts see their list.
#[derive(Debug, Drop)]
pub struct Table {
    list: Regions,
    order: Order,
}

impl Model for Table {
    ghost use Rattle.std.specs.Prelude.{List};
    ghost use Rattle.range_table.specs.declared.region.RegionSpan.{RegionSpan};

    ghost Value = { List RegionSpan };

    ghost use Rattle.range_table.specs.Searchable.{IsSearchable};

    ghost view = { λ t. t.list };

    ghost invariant = { IsSearchable };
}

// Whether the region holds the `size` bytes at `p`.
fn holds_span(region: &RegionSpan, p: u64, size: u16) -> bool
    ensures { result ≡ holds region.now p size }
{
    region.base <= p
        && p - region.base <= region.len
        && u64::from(size) <= region.len - (p - region.base)
}

impl Table {
    /// A table of these regions. Where there are at most [`MOST_REGIONS`], the fault is that of the first
    /// region that has one, in list order: it is empty, it ends past `MEMORY_END`, or it overlaps an
    /// earlier one. Takes no memory.
    pub fn new(list: Regions) -> Result<Table, TableFault>
        ensures made { IfOk result (λ t. (table_fault list ≡ None) × (t ≡ list)) }
        ensures refused { IfErr result (λ f. table_fault list ≡ Some f) }
        ensures tables { IsOk result ↔ IsTable list }
    {
        if list.len() > MOST_REGIONS {
            return Err(TableFault::TooMany);
        }
        match Order::of(list.as_slice()) {
            Ok(order) => Ok(Table { list, order }),
            Err(fault) => Err(fault),
        }
    }

    /// How many regions there are: at most [`MOST_REGIONS`].
    pub fn len(&self) -> usize
        ensures len { result ≡ length self.now }
        ensures table { IsTable self.now }
    {
        self.list.len()
    }

    pub fn is_empty(&self) -> bool
        ensures { IsTrue result ↔ (self.now ≡ []) }
    {
        self.list.is_empty()
    }

    /// The region at a place below `len`.
    pub fn span_of(&self, i: usize) -> RegionSpan
        requires { i < length self.now }
        ensures { slice_get self.now i ≡ Some result }
    {
        *self.list.get(i)
    }

    /// The place of the one region that holds all the `size` bytes at `p`, or `None` where none does.
    /// It halves the regions at each step.
    pub fn find(&self, p: u64, size: u16) -> Option<usize>
        requires { 1 ≤ size }
        ensures place { result ≡ region_of self.now p size }
        ensures only { (i : ℕ) → i < length self.now →
            IsTrue (holds (region_at self.now i) p size) → result ≡ Some i }
    {
        let count = count_up_to(self.order.starts.as_slice(), p);
        if count == 0 {
            return None;
        }
        let i = self.order.places[count - 1] as usize;
        if holds_span(self.list.get(i), p, size) {
            Some(i)
        } else {
            None
        }
    }
}
