// The checker.

ghost use Rattle.std.specs.Prelude.{◌≡◌, [], None, OnOk, IfOk, IfErr};
ghost use Rattle.iter_check.specs.FaultList.{fault_list};
ghost use Rattle.iter_check.specs.Accepted.{IsFirst};
ghost use Rattle.iter_check.specs.First.Least.{each};
ghost use Rattle.iter_check.specs.First.Decl as first;

use crate::checked::Checked;
use crate::declared::check_list;
use crate::iterator::{check_iter, index_iter};
use crate::kind::{CheckError, CheckKind, Fault};
use crate::nodes::{body_count, init_count};
use crate::sizes::check_fields;
use iter_syntax::{Iter, Program, RecordDecl};
use pulse_base::Memory;
use std::alloc::Global;

/// The most records of a program, and the most iterators.
const MOST: usize = 64;

fn check_record(best: &mut Option<Fault>, decl: &RecordDecl)
    ensures { best.new ≡ first.first_record decl.now best.old }
{
    check_fields(
        best,
        CheckKind::RecordSize,
        &decl.name,
        decl.fields.as_slice(),
    );
}

fn check_records(best: &mut Option<Fault>, records: &[RecordDecl])
    ensures { best.new ≡ each first.first_record records.now best.old }
{
    'walk: for decl in records {
        check_record(best, decl);
    }
}

fn check_iters(
    alloc: Global,
    best: &mut Option<Fault>,
    records: &[RecordDecl],
    iters: &[Iter],
) -> Result<(), Memory>
    ensures { OnOk result (best.new ≡ each (first.first_iter records.now) iters.now best.old) }
{
    'walk: for it in iters {
        check_iter(alloc, best, records, it)?;
    }
    Ok(())
}

// The first of all faults but those of Code and Index.
fn first_of_group(
    alloc: Global,
    records: &[RecordDecl],
    iters: &[Iter],
) -> Result<Option<Fault>, Memory>
    ensures { IfOk result (λ f. f ≡ first.first_of_group records.now iters.now None) }
{
    let mut best = None;
    check_list(&mut best, CheckKind::Count, MOST, records);
    check_list(&mut best, CheckKind::Count, MOST, iters);
    check_records(&mut best, records);
    check_iters(alloc, &mut best, records, iters)?;
    Ok(best)
}

fn too_many_nodes(it: &Iter) -> bool
    ensures { result ≡ first.too_many_nodes it.now }
{
    init_count(it) > 2000 || body_count(it) > 2000
}

// The first fault of Code.
fn first_code(iters: &[Iter]) -> Option<Fault>
    ensures { result ≡ first.first_code iters.now }
{
    'walk: for it in iters {
        if too_many_nodes(it) {
            return Some(Fault {
                kind: CheckKind::Code,
                place: it.name.place.0,
            });
        }
    }
    None
}

// The first fault of Index.
fn first_index(
    alloc: Global,
    records: &[RecordDecl],
    iters: &[Iter],
) -> Result<Option<Fault>, Memory>
    ensures { IfOk result (λ f. f ≡ each (first.first_iter_indices records.now) iters.now None) }
{
    let mut best = None;
    index_iters(alloc, &mut best, records, iters)?;
    Ok(best)
}

fn index_iters(
    alloc: Global,
    best: &mut Option<Fault>,
    records: &[RecordDecl],
    iters: &[Iter],
) -> Result<(), Memory>
    ensures { OnOk result (best.new ≡ each (first.first_iter_indices records.now) iters.now best.old) }
{
    'walk: for it in iters {
        index_iter(alloc, best, records, it)?;
    }
    Ok(())
}

// The first fault of Code, or where there is none of Index.
fn first_later(
    alloc: Global,
    records: &[RecordDecl],
    iters: &[Iter],
) -> Result<Option<Fault>, Memory>
    ensures { IfOk result (λ f. f ≡ first.first_later records.now iters.now) }
{
    match first_code(iters) {
        Some(fault) => Ok(Some(fault)),
        None => {
            let found = first_index(alloc, records, iters)?;
            Ok(found)
        }
    }
}

// The first entry of the fault list.
fn first_fault(
    alloc: Global,
    records: &[RecordDecl],
    iters: &[Iter],
) -> Result<Option<Fault>, Memory>
    ensures { IfOk result (λ f. f ≡ first.first_fault records.now iters.now) }
{
    let found = first_of_group(alloc, records, iters)?;
    match found {
        Some(fault) => Ok(Some(fault)),
        None => {
            let later = first_later(alloc, records, iters)?;
            Ok(later)
        }
    }
}

/// Accepts a program whose fault list is empty; of any other it tells the list's first fault.
///
/// The work grows with the text, times the names in scope or the fields of a list where a name is looked
/// up; an index is computed for each turn of the loops around it.
#[tactic(auto, using(crate::proofs::Joins::first_of_all, crate::proofs::Joins::none_is_accepted))]
pub fn check(alloc: Global, program: Program) -> Result<Checked, CheckError>
    ensures accepted { IfOk result (λ checked. (checked ≡ program) × (fault_list program ≡ [])) }
    ensures first { IfErr result (λ error. IsFirst (fault_list program) error) }
{
    match first_fault(alloc, program.records.as_slice(), program.iters.as_slice()) {
        Ok(None) => Ok(Checked::accept(program)),
        Ok(Some(fault)) => Err(CheckError::Fault {
            kind: fault.kind,
            place: fault.place,
        }),
        Err(Memory) => Err(CheckError::Memory),
    }
}
