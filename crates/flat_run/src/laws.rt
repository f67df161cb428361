// What holds of every step and of every run. Each function says a law in its contract, and does nothing.

ghost use Rattle.flat_run.specs.Laws.{RunLaw, LegalLaw, OthersLaw, RegionsLaw, RecordLaw, FaultLaw, StuckLaw, CountLaw, ShapeLaw, MemoryLaw, LimitLaw, PadLaw, DueLaw};

/// A run of a concatenation is the run of the second part from where the first ends.
pub fn law_run_goes_on_where_it_ended()
    ensures { RunLaw }
{}

/// A step of one request leaves every other request as it was.
pub fn law_step_leaves_other_requests()
    ensures { OthersLaw }
{}

/// A step leaves every region but that of its record as it was.
pub fn law_step_leaves_other_regions()
    ensures { RegionsLaw }
{}

/// A step leaves each byte of its region outside its record as it was.
pub fn law_step_changes_only_its_record()
    ensures { RecordLaw }
{}

/// An iteration that faults leaves the memory as it was.
pub fn law_fault_leaves_memory()
    ensures { FaultLaw }
{}

/// Where a request can't step, nothing changes.
pub fn law_no_step_changes_nothing()
    ensures { StuckLaw }
{}

/// In a legal order each request's count is the number of its places there, a faulting one aside.
pub fn law_counts_are_places()
    ensures { CountLaw }
{}

/// A concatenation is legal where its first part is, and its second from where the first ends.
pub fn law_legal_concatenation()
    ensures { LegalLaw }
{}

/// No span and no length of a region ever changes.
pub fn law_regions_keep_their_shape()
    ensures { ShapeLaw }
{}

/// Regions with as many bytes as their spans, which make a table, stay so.
pub fn law_memory_stays_memory()
    ensures { MemoryLaw }
{}

/// Counts that are at most the limit stay so.
pub fn law_counts_stay_within_limit()
    ensures { LimitLaw }
{}

/// A pad keeps its length.
pub fn law_pads_keep_their_length()
    ensures { PadLaw }
{}

/// A request that is there, with a count of at most the limit, is due nothing exactly where it can step.
pub fn law_due_where_it_cannot_step()
    ensures { DueLaw }
{}
