// What a flat run works on: a memory without nodes, and the requests that walk it.

use pulse_base::{Bytes, FaultKind, Listed, PadBytes};
use range_table::RegionSpan;

/// A region with its bytes, as many as its span says.
#[derive(Debug, Drop)]
pub struct FlatRegion {
    pub span: RegionSpan,
    pub bytes: Bytes,
}

pub type FlatRegions = Listed<FlatRegion>;

/// How far a request is. A count is the number of its iterations that took effect.
#[derive(Debug, Drop)]
pub enum FlatRequest {
    /// The next iteration is at `cur`.
    Ready {
        cur: u64,
        pad: PadBytes,
        count: u64,
    },
    /// The walk ended with this pad.
    Done {
        pad: PadBytes,
        count: u64,
    },
    /// The iteration at `cur` faulted, or init did, with 0 for `cur`.
    Fault {
        kind: FaultKind,
        cur: u64,
        count: u64,
    },
}

pub type FlatRequests = Listed<FlatRequest>;

/// The memory and the requests, each under its number.
#[derive(Debug, Drop)]
pub struct FlatState {
    pub regions: FlatRegions,
    pub requests: FlatRequests,
}
