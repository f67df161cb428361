// A flat run in an order, from where each request was asked.

ghost use Rattle.std.specs.Prelude.{◌≡◌, ◌&&◌, IfOk, OnOk, OnErr};
ghost use Rattle.flat_run.specs.Walk.{walk_of, walks_of};
ghost use Rattle.flat_run.specs.Request as q;
ghost use Rattle.flat_run.specs.Run as r;

use crate::iteration::{Begun, begin};
use crate::next::{can_step, step};
use crate::state::{FlatRegions, FlatRequest, FlatState};
use crate::walk::FlatWalk;
use pulse_base::{FaultKind, Listed, Memory, PadBytes};
use std::alloc::Global;

fn asked(alloc: Global, walk: &FlatWalk) -> Result<FlatRequest, Memory>
    ensures { IfOk result (λ x. x ≡ q.asked (walk_of walk.now)) }
{
    match begin(alloc, walk.iter, walk.args)? {
        Begun::Ready { cur, pad } => Ok(FlatRequest::Ready {
            cur,
            pad: PadBytes::of(pad.as_slice()),
            count: 0,
        }),
        Begun::Ended { pad } => Ok(FlatRequest::Done {
            pad: PadBytes::of(pad.as_slice()),
            count: 0,
        }),
        Begun::DivZero => Ok(FlatRequest::Fault {
            kind: FaultKind::DivZero,
            cur: 0,
            count: 0,
        }),
    }
}

/// The state when each request was asked: its init has run.
pub fn start(alloc: Global, regions: FlatRegions, walks: &[FlatWalk]) -> Result<FlatState, Memory>
    ensures { IfOk result (λ x. x ≡ q.start regions (walks_of walks.now)) }
{
    let mut requests = Listed::new(alloc);
    'walks: for walk in walks {
        let request = asked(alloc, walk)?;
        requests.push(request)?;
    }
    Ok(FlatState { regions, requests })
}

fn both(a: bool, b: bool) -> bool
    ensures { result ≡ (a && b) }
{
    if a { b } else { false }
}

/// Steps in the order of a list of request numbers, and says whether each could step when its turn came.
/// For want of memory the state stands after some of the steps, before one that could be taken.
pub fn run(
    alloc: Global,
    walks: &[FlatWalk],
    limit: u64,
    state: &mut FlatState,
    order: &[u32],
) -> Result<bool, Memory>
    ensures state { OnOk result (state.new ≡ r.flat_run (walks_of walks.now) limit state.old order.now) }
    ensures legal { IfOk result (λ legal. legal ≡ r.is_legal (walks_of walks.now) limit state.old order.now) }
    ensures stopped { OnErr result (r.AfterSome (walks_of walks.now) limit state.old state.new order.now) }
{
    let mut legal = true;
    'order: for r in order {
        let able = can_step(walks, limit, state, *r as usize);
        step(alloc, walks, limit, state, *r as usize)?;
        legal = both(legal, able);
    }
    Ok(legal)
}
