// What a run leaves, as a report tells it.

use pulse_base::{Answers, Bytes, Listed, Numbers, Traces};

/// A region after a run.
#[derive(Debug, Drop)]
pub struct OutRegion {
    /// Whether the report has its bytes, or else their SHA-256.
    pub shown: bool,
    pub bytes: Bytes,
}

pub type OutRegions = Listed<OutRegion>;

/// What a run leaves.
#[derive(Debug, Drop)]
pub struct Outcome {
    /// What each event did, in order; empty where no trace was asked for.
    pub trace: Traces,
    /// The request number of each turn that ran an iteration, in the order of the turns.
    pub order: Numbers,
    /// The answer of each request, in order of number.
    pub answers: Answers,
    /// The regions, in order of number.
    pub regions: OutRegions,
}
