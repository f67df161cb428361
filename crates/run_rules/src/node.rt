// What a node is made of, and what it answers to a leg.

use frame_codec::{Back, Leg};
use pulse_base::{Bytes, Listed};
use range_table::RegionSpan;

/// A region of a node: its number among all regions of the memory, where it lies, and its bytes.
#[derive(Debug, Drop)]
pub struct NodeRegion {
    pub number: u16,
    pub span: RegionSpan,
    /// As many bytes as `span.len`.
    pub bytes: Bytes,
}

/// The regions of a node.
pub type NodeRegions = Listed<NodeRegion>;

/// What a node knows of a program: the bytes of its records and of its pad, 1 to 256 each.
#[derive(Clone, Copy, Debug, PartialEq, Eq)]
pub struct ProgramSizes {
    pub record_size: u16,
    pub pad_size: u16,
}

/// A leg that runs on a node, as it stands now, and the number of the region at which it was started.
#[derive(Clone, Copy, Debug, PartialEq, Eq)]
pub struct LiveLeg {
    pub leg: Leg,
    pub region: u16,
}

/// What a node answers to a leg.
#[derive(Clone, Copy, Debug, PartialEq, Eq)]
pub enum Accepted {
    /// The program is not known here, or the pad is not of the program's size.
    Foreign,
    /// This back: the one that is kept, or that the record may not be read.
    Answer(Back),
    /// The leg runs here already.
    Running,
    /// No region here holds the record. The leg goes back to the switch as it is.
    Elsewhere,
    /// As many legs run as the node has slots.
    Full,
    /// The leg runs from now on.
    Started,
    /// The leg would have been started, and there was no memory for it.
    Memory,
}

/// What becomes of a live leg in a turn.
#[derive(Clone, Copy, Debug, PartialEq, Eq)]
pub enum Fate {
    /// It stays live, as it stands now.
    Stays(Leg),
    /// It ended with this back.
    Ends(Back),
}
