// The answer that a request is due.

ghost use Rattle.std.specs.Prelude.{◌≡◌};
ghost use Rattle.flat_run.specs.Walk.{walk_of, walks_of};
ghost use Rattle.flat_run.specs.Region.{spans};
ghost use Rattle.flat_run.specs.Due as d;

use crate::next::region_of;
use crate::state::{FlatRegion, FlatRequest, FlatState};
use crate::walk::FlatWalk;
use pulse_base::{Answer, FaultKind};

/// The answer that request `r` is due: that of its end, or the reason why it can't step. None where it can
/// step, and where there is no such request.
pub fn due(walks: &[FlatWalk], limit: u64, state: &FlatState, r: usize) -> Option<Answer>
    ensures { result ≡ d.due (walks_of walks.now) limit state.now r }
{
    if r >= walks.len() {
        return None;
    }
    if r >= state.requests.len() {
        return None;
    }
    due_answer(
        &walks[r],
        limit,
        state.regions.as_slice(),
        state.requests.get(r),
    )
}

/// The answer that a request of a walk is due in a memory: that of its end, or the reason why it can't step, which
/// is that it made `limit` iterations or that its record is not here. None where it can step.
pub fn due_answer(
    walk: &FlatWalk,
    limit: u64,
    regions: &[FlatRegion],
    request: &FlatRequest,
) -> Option<Answer>
    ensures { result ≡ d.due_answer (spans regions.now) limit (walk_of walk.now) request.now }
{
    match request {
        FlatRequest::Done { pad, count } => Some(Answer::Done {
            pad: *pad,
            count: *count,
        }),
        FlatRequest::Fault { kind, cur, count } => Some(fault(*kind, *cur, *count)),
        FlatRequest::Ready { cur, count, .. } => {
            if *count == limit {
                return Some(Answer::Spent { count: *count });
            }
            match region_of(regions, *cur, walk.fields) {
                None => Some(fault(FaultKind::Unmapped, *cur, *count)),
                Some(i) => {
                    if regions[i].span.read {
                        None
                    } else {
                        Some(fault(FaultKind::NotReadable, *cur, *count))
                    }
                }
            }
        }
    }
}

fn fault(kind: FaultKind, cur: u64, count: u64) -> Answer
    ensures { result ≡ Answer.Fault kind cur count }
{
    Answer::Fault { kind, cur, count }
}
