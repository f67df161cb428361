// What a frame says.

use pulse_base::{FaultKind, PadBytes};

/// A leg: the state of a walk on its way to a node.
#[derive(Clone, Copy, Debug, PartialEq, Eq)]
pub struct Leg {
    /// The client that asked.
    pub client: u16,
    /// The client's number for the request.
    pub request: u32,
    /// The number of this leg within its request.
    pub leg: u32,
    /// The program that walks.
    pub program: u16,
    /// How many more iterations may take effect.
    pub left: u16,
    /// The pointer to the next record.
    pub cur: u64,
    pub pad: PadBytes,
}

/// A leg that ended, on its way back: the state of the walk there, and why it ended.
#[derive(Clone, Copy, Debug, PartialEq, Eq)]
pub struct Back {
    /// The client that asked.
    pub client: u16,
    /// The client's number for the request.
    pub request: u32,
    /// The number of this leg within its request.
    pub leg: u32,
    /// The program that walked.
    pub program: u16,
    /// How many more iterations could have taken effect.
    pub left: u16,
    /// The pointer to the record where the walk stands, or 0 where it is done.
    pub cur: u64,
    pub pad: PadBytes,
    pub ending: Ending,
}

/// Why a leg ended.
#[derive(Clone, Copy, Debug, PartialEq, Eq)]
pub enum Ending {
    /// The walk is done, and the pad is its answer.
    Done,
    /// The next record is at another node.
    Reroute,
    /// No iteration is left.
    Resume,
    /// The walk faulted.
    Fault(FaultKind),
}

/// What travels as one datagram.
#[derive(Clone, Copy, Debug, PartialEq, Eq)]
pub enum Frame {
    Leg(Leg),
    Back(Back),
    /// A node or the switch ends.
    Stop,
}
