// What an accepted document asks for.

use pulse_base::{Bytes, Events, Listed, Requests};
use range_table::RegionSpan;

/// A region of memory: its place and permissions, the node that owns it, whether a report shows its bytes in
/// full, and the bytes that it begins with, as many as the span is long.
#[derive(Debug, Drop)]
pub struct PlanRegion {
    pub span: RegionSpan,
    pub node: u16,
    pub shown: bool,
    pub bytes: Bytes,
}

/// The regions of a plan, in the document's order.
pub type PlanRegions = Listed<PlanRegion>;

/// What a document asks to run. Each field has the meaning of the document's key of that name.
#[derive(Debug, Drop)]
pub struct Plan {
    pub nodes: u16,
    /// How many legs are live at a node at once.
    pub slots: u32,
    /// How many iterations a leg makes at most.
    pub budget: u16,
    /// How many legs a request sends at most.
    pub rounds: u16,
    /// How many ticks send a leg again, before one gives the request up.
    pub tries: u16,
    pub clients: u16,
    pub port: u16,
    /// Whether the report names what each event did.
    pub trace: bool,
    /// Whether the document has the key `events`.
    pub listed: bool,
    pub events: Events,
    pub regions: PlanRegions,
    pub requests: Requests,
}
