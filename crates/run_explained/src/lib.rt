//! What a run of a scenario means: its order is legal, its nodes hold the flat memory after that order, and each answer is
//! silent or due, all by the flat run of the same scenario, which has no nodes and no letters.
//!
//! Nothing here runs. Read `specs/Explained.antt`, then `Laws`: who runs a scenario keeps `IsRun` of `event_run`, and cites
//! `RunIsExplained`.
#![tactic(auto)]

ghost use Rattle.run_explained.specs.Laws.{DueIs, EventKeepsRequests, EventRunIsExplained, FlatIs, FlatStartIs, OrderIsOfRequests, RunIsExplained, TurnKeepsRequests};

/// The flat run of the laws of runs begins as the scenario's flat run does.
pub fn law_flat_start_is()
    ensures { FlatStartIs }
{}

/// The same orders are legal in both, and lead to the same states.
pub fn law_flat_is()
    ensures { FlatIs }
{}

/// In both a request is due the same answers.
pub fn law_due_is()
    ensures { DueIs }
{}

/// The order of a run names only requests that its clients have.
pub fn law_order_is_of_requests()
    ensures { OrderIsOfRequests }
{}

/// No event changes how many requests there are.
pub fn law_event_keeps_requests()
    ensures { EventKeepsRequests }
{}

/// Nor does a turn of any live leg.
pub fn law_turn_keeps_requests()
    ensures { TurnKeepsRequests }
{}

/// Each world of a run of a scenario is explained by its flat run.
pub fn law_run_is_explained()
    ensures { RunIsExplained }
{}

/// So is the world after the scenario's own events.
pub fn law_event_run_is_explained()
    ensures { EventRunIsExplained }
{}
