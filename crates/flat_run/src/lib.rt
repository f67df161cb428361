//! The flat run: iterators over one flat memory, one whole iteration at a time.
//!
//! Read `specs/` first: `Request` and `Region` say what a run works on, `Step` who can step and what a step
//! changes, `Run` folds steps over an order, and `Due` says which answer a request is due. The functions
//! here compute just these definitions, plainly and slowly, so that other bodies can be compared with them.
//! `Laws` says what holds of every run. What stands in `specs/Views` says how the code holds these things.
//! No program that a check has accepted is needed for a call to be safe; an iterator's pad has 1 to 256 bytes.
#![tactic(auto)]

mod dues;
mod iteration;
mod laws;
mod next;
mod order;
mod state;
mod statements;
mod value;
mod walk;

pub use dues::{due, due_answer};
pub use iteration::{Begun, Iterated, begin, iterate};
pub use laws::{
    law_counts_are_places, law_counts_stay_within_limit, law_due_where_it_cannot_step,
    law_fault_leaves_memory, law_legal_concatenation, law_memory_stays_memory,
    law_no_step_changes_nothing, law_pads_keep_their_length, law_regions_keep_their_shape,
    law_run_goes_on_where_it_ended, law_step_changes_only_its_record,
    law_step_leaves_other_regions, law_step_leaves_other_requests,
};
pub use next::{can_step, step};
pub use order::{run, start};
pub use state::{FlatRegion, FlatRegions, FlatRequest, FlatRequests, FlatState};
pub use statements::{Ending, run_row};
pub use value::{Setting, State, value_of};
pub use walk::FlatWalk;
