// Why a list of regions makes no table.

ghost use Rattle.std.specs.Prelude.{◌≡◌, ◌<◌, ◌≤◌, ◌^◌, length, position, IfSome};
ghost use Rattle.range_table.specs.Memory.{end_of};
ghost use Rattle.range_table.specs.Table.{share_a_byte, region_fault};

use crate::region::RegionSpan;

/// The place that no region of a table ends past.
pub const MEMORY_END: u64 = 0x1_0000_0000_0000;

/// Why a list of regions makes no table. Each number is a region's place in the list.
#[derive(Clone, Copy, Debug, PartialEq, Eq)]
pub enum TableFault {
    /// There are more than 64.
    TooMany,
    /// The region is empty.
    Empty(u32),
    /// The region ends past [`MEMORY_END`].
    Range(u32),
    /// The first region that a later one overlaps, and the later one.
    Overlap(u32, u32),
}

// Whether two regions that are not empty have a byte in common.
fn overlaps(r: &RegionSpan, s: &RegionSpan) -> bool
    requires { end_of r.now ≤ 2 ^ 48 }
    ensures { result ≡ share_a_byte r.now s.now }
{
    r.base < s.base.saturating_add(s.len) && s.base < r.base + r.len
}

// The place of the first of the earlier regions that the region overlaps.
fn first_overlap(earlier: &[RegionSpan], region: &RegionSpan) -> Option<usize>
    requires { end_of region.now ≤ 2 ^ 48 }
    ensures first { result ≡ position (λ s. share_a_byte region.now s) earlier.now }
    ensures bound { IfSome result (λ j. j < length earlier.now) }
{
    earlier.iter().position(|s| overlaps(region, s))
}

// What is wrong with a region that stands after the earlier ones.
pub(crate) fn fault_of(earlier: &[RegionSpan], region: &RegionSpan) -> Option<TableFault>
    requires { length earlier.now < 64 }
    ensures { result ≡ region_fault earlier.now region.now }
{
    let at = earlier.len() as u32;
    if region.len == 0 {
        return Some(TableFault::Empty(at));
    }
    if region.base > MEMORY_END || region.len > MEMORY_END - region.base {
        return Some(TableFault::Range(at));
    }
    match first_overlap(earlier, region) {
        Some(j) => Some(TableFault::Overlap(j as u32, at)),
        None => None,
    }
}
