// A region of memory, and the list of a memory's regions.

use pulse_base::Listed;

/// A region of memory: `len` bytes from `base` on, which may be read where `read` is true and written
/// where `write` is true.
#[derive(Clone, Copy, Debug, PartialEq, Eq)]
pub struct RegionSpan {
    pub base: u64,
    pub len: u64,
    pub read: bool,
    pub write: bool,
}

/// A list of regions.
pub type Regions = Listed<RegionSpan>;
