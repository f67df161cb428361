// One step of a flat run.

ghost use Rattle.std.specs.Prelude.{◌≡◌, ◌+◌, ◌-◌, ◌^◌, ◌<◌, ◌≤◌, length, slice_set, true, option_map, IfOk, IfSome, OnOk, OnErr};
ghost use Rattle.range_table.specs.Memory.{holds, region_of};
ghost use Rattle.iter_check.specs.Layout as l;
ghost use Rattle.flat_run.specs.Walk.{walk_of, walks_of};
ghost use Rattle.flat_run.specs.Region.{spans, bytes_at, spliced, put_record};
ghost use Rattle.flat_run.specs.Step as s;
ghost use Rattle.flat_run.specs.Views.Interpreter.{iterated_of, next_is, Fits, HasRoom, HasPadLeft};

use crate::iteration::{Iterated, iterate};
use crate::state::{FlatRegion, FlatRegions, FlatRequest, FlatRequests, FlatState};
use crate::walk::FlatWalk;
use iter_check::size_of;
use iter_syntax::FieldDecl;
use pulse_base::{FaultKind, Listed, Memory, PadBytes};
use range_table::RegionSpan;
use std::alloc::Global;
use std::mem;

// The iteration that a request can make.
#[derive(Clone, Copy)]
struct Next<'a> {
    walk: FlatWalk<'a>,
    region: usize,
    cur: u64,
    pad: &'a PadBytes,
    count: u64,
}

// Whether the region holds a record with these fields at `p`.
fn holds(span: &RegionSpan, p: u64, fields: &[FieldDecl]) -> bool
    ensures { result ≡ holds span.now p (l.size_of fields.now) }
{
    let base = span.base;
    let len = span.len;
    match size_of(fields) {
        None => false,
        Some(size) => {
            if p < base || len < p - base {
                return false;
            }
            size <= len - (p - base)
        }
    }
}

// The first region that holds a record with these fields at `p`.
pub(crate) fn region_of(regions: &[FlatRegion], p: u64, fields: &[FieldDecl]) -> Option<usize>
    ensures at { result ≡ region_of (spans regions.now) p (l.size_of fields.now) }
    ensures within { IfSome result (λ i. i < length regions.now) }
{
    for (i, region) in regions.iter().enumerate() {
        if holds(&region.span, p, fields) {
            return Some(i);
        }
    }
    None
}

// The bytes of a record with these fields at `p` in a region.
fn record_bytes<'a>(region: &'a FlatRegion, p: u64, fields: &[FieldDecl]) -> &'a [u8]
    ensures { result.now ≡ bytes_at (Some region.now) p (l.size_of fields.now) }
{
    let bytes = region.bytes.as_slice();
    let offset = p.saturating_sub(region.span.base);
    if offset >= bytes.len() as u64 {
        return &[];
    }
    let rest = &bytes[offset as usize..];
    match size_of(fields) {
        None => rest,
        Some(size) => {
            if size < rest.len() as u64 {
                &rest[..size as usize]
            } else {
                rest
            }
        }
    }
}

// The next iteration of a request that is ready.
fn next_from<'a>(
    walk: &'a FlatWalk<'a>,
    limit: u64,
    regions: &[FlatRegion],
    cur: u64,
    pad: &'a PadBytes,
    count: u64,
) -> Option<Next<'a>>
    ensures next { option_map next_is result ≡ s.next_from (spans regions.now) limit (Some (walk_of walk.now)) (Some (FlatRequest.Ready cur pad.now count)) }
    ensures region { IfSome result (λ t. t.region < length regions.now) }
    ensures count { IfSome result (λ t. t.count < limit) }
{
    if count >= limit {
        return None;
    }
    match region_of(regions, cur, walk.fields) {
        None => None,
        Some(region) => {
            if regions[region].span.read {
                Some(Next {
                    walk: *walk,
                    region,
                    cur,
                    pad,
                    count,
                })
            } else {
                None
            }
        }
    }
}

// The next iteration of a request where it can step.
fn next_of<'a>(
    walks: &'a [FlatWalk<'a>],
    limit: u64,
    state: &'a FlatState,
    r: usize,
) -> Option<Next<'a>>
    ensures next { option_map next_is result ≡ s.next_of (walks_of walks.now) limit state.now r }
    ensures region { IfSome result (λ t. t.region < length state.now.regions) }
    ensures count { IfSome result (λ t. t.count < limit) }
    ensures request { IfSome result (λ t. r < length state.now.requests) }
{
    if r >= walks.len() {
        return None;
    }
    if r >= state.requests.len() {
        return None;
    }
    match state.requests.get(r) {
        FlatRequest::Ready { cur, pad, count } => next_from(
            &walks[r],
            limit,
            state.regions.as_slice(),
            *cur,
            pad,
            *count,
        ),
        FlatRequest::Done { .. } => None,
        FlatRequest::Fault { .. } => None,
    }
}

/// Whether request `r` can step: it is ready, its record is here, and its count is below the limit,
/// which is rounds times budget.
pub fn can_step(walks: &[FlatWalk], limit: u64, state: &FlatState, r: usize) -> bool
    ensures { result ≡ s.can_step (walks_of walks.now) limit state.now r }
{
    next_of(walks, limit, state, r).is_some()
}

// What the next iteration gives: a record no longer than the bytes that it came from, and a pad of 1 to 256 bytes.
fn iterates(alloc: Global, state: &FlatState, next: &Next) -> Result<Iterated, Memory>
    requires { next.now.region < length state.now.regions }
    ensures is { IfOk result (λ x. iterated_of x ≡ s.iterates state.now (next_is next.now)) }
    ensures room { IfOk result (λ x. HasRoom state.now.regions next.now.region next.now.cur x) }
    ensures pad { IfOk result HasPadLeft }
{
    let region = state.regions.get(next.region);
    let bytes = record_bytes(region, next.cur, next.walk.fields);
    let pad = next.pad.bytes();
    let outcome = iterate(
        alloc,
        next.walk.fields,
        next.walk.iter,
        bytes,
        next.cur,
        pad,
        region.span.write,
    )?;
    Ok(outcome)
}

// Puts other bytes in the place of as many from `offset` on.
fn splice(bytes: &mut [u8], offset: u64, new: &[u8])
    requires { length new.now ≤ length bytes.old - offset }
    ensures { bytes.new ≡ spliced bytes.old offset new.now }
{
    if !new.is_empty() {
        let start = offset as usize;
        bytes[start..start + new.len()].copy_from_slice(new);
    }
}

fn put_bytes(alloc: Global, region: &mut FlatRegion, p: u64, new: &[u8])
    requires { length new.now ≤ length region.old.bytes - (p - region.old.span.base) }
    ensures { region.new ≡ record region.old { bytes = spliced region.old.bytes (p - region.old.span.base) new.now } }
{
    let offset = p.saturating_sub(region.span.base);
    let mut bytes = mem::replace(&mut region.bytes, Listed::new(alloc)).into_vec();
    splice(&mut bytes, offset, new);
    region.bytes = Listed::from_vec(bytes);
}

#[tactic(auto, using(crate::proofs::RegionLaws::put_by))]
fn put_record(alloc: Global, regions: &mut FlatRegions, i: usize, p: u64, new: &[u8])
    requires region { i < length regions.old }
    requires fits { Fits regions.old i p (length new.now) }
    ensures { regions.new ≡ put_record regions.old i p new.now }
{
    let mut items = mem::replace(regions, Listed::new(alloc)).into_vec();
    put_bytes(alloc, &mut items[i], p, new);
    *regions = Listed::from_vec(items);
}

fn put_request(alloc: Global, requests: &mut FlatRequests, r: usize, request: FlatRequest)
    requires { r < length requests.old }
    ensures { requests.new ≡ slice_set requests.old r request }
{
    let mut items = mem::replace(requests, Listed::new(alloc)).into_vec();
    items[r] = request;
    *requests = Listed::from_vec(items);
}

// What an iteration of request `r` leaves.
fn settle(
    alloc: Global,
    state: &mut FlatState,
    r: usize,
    region: usize,
    cur: u64,
    count: u64,
    outcome: Iterated,
)
    requires request { r < length state.old.requests }
    requires region { region < length state.old.regions }
    requires count { count + 1 < 2 ^ 64 }
    requires room { HasRoom state.old.regions region cur outcome }
    requires pad { HasPadLeft outcome }
    ensures { (t : s.Next) → t.region ≡ region → t.cur ≡ cur → t.count ≡ count → state.new ≡ s.settled state.old r t (iterated_of outcome) }
{
    let request = match outcome {
        Iterated::Done { record, pad } => {
            let pad = PadBytes::of(pad.as_slice());
            put_record(alloc, &mut state.regions, region, cur, record.as_slice());
            let count = count + 1;
            FlatRequest::Done { pad, count }
        }
        Iterated::Goes { to, record, pad } => {
            let pad = PadBytes::of(pad.as_slice());
            put_record(alloc, &mut state.regions, region, cur, record.as_slice());
            let (cur, count) = (to, count + 1);
            FlatRequest::Ready { cur, pad, count }
        }
        Iterated::Fault(cause) => {
            let kind = FaultKind::from(cause);
            FlatRequest::Fault { kind, cur, count }
        }
    };
    put_request(alloc, &mut state.requests, r, request);
}

/// One whole iteration of request `r`. Where it can't step, nothing changes, and so for want of memory, of
/// which there is none where it can't step.
pub fn step(
    alloc: Global,
    walks: &[FlatWalk],
    limit: u64,
    state: &mut FlatState,
    r: usize,
) -> Result<(), Memory>
    ensures ok { OnOk result (state.new ≡ s.flat_step (walks_of walks.now) limit state.old r) }
    ensures err { OnErr result (state.new ≡ state.old) }
    ensures memory { OnErr result (s.can_step (walks_of walks.now) limit state.old r ≡ true) }
{
    let next = match next_of(walks, limit, state, r) {
        None => return Ok(()),
        Some(next) => next,
    };
    let outcome = iterates(alloc, state, &next)?;
    let (region, cur, count) = (next.region, next.cur, next.count);
    settle(alloc, state, r, region, cur, count, outcome);
    Ok(())
}
