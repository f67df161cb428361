// The faults of an iterator.

ghost use Rattle.std.specs.Prelude.{◌≡◌, [], option_map, OnOk, IfOk};
ghost use Rattle.iter_syntax.specs.Tree.{block};
ghost use Rattle.iter_check.specs.Paths.{ends};
ghost use Rattle.iter_check.specs.FaultList as fl;
ghost use Rattle.iter_check.specs.First.Expr.{ground_of};
ghost use Rattle.iter_check.specs.First.Index.{first_indices};
ghost use Rattle.iter_check.specs.First.Decl as first;

use crate::best::note;
use crate::declared::check_list;
use crate::expr::Site;
use crate::index::index_block;
use crate::kind::{CheckKind, Fault};
use crate::path::path_block;
use crate::scope::{Scope, declare};
use crate::sizes::check_fields;
use crate::sort::{Part, Sort};
use crate::stmt::check_block;
use iter_syntax::{Arg, Block, FieldDecl, Iter, RecordDecl};
use pulse_base::Memory;
use std::alloc::Global;

/// The most arguments of an iterator.
const MOST_ARGS: usize = 8;

/// The record that an iterator is on: the first of that name that stands before it.
pub(crate) fn record_for<'a>(records: &'a [RecordDecl], it: &Iter) -> Option<&'a RecordDecl>
    ensures { option_map (λ r. r.now) result ≡ fl.record_for records.now it.now }
{
    records.iter().find(|r| r.place.0 < it.place.0
        && r.name.text.as_slice() == it.on.text.as_slice())
}

/// The fields of an iterator's record.
pub fn record_fields<'a>(records: &'a [RecordDecl], it: &Iter) -> &'a [FieldDecl]
    ensures { result.now ≡ fl.record_fields records.now it.now }
{
    match record_for(records, it) {
        None => &[],
        Some(decl) => decl.fields.as_slice(),
    }
}

/// Where a block of an iterator stands.
fn site_of<'a>(records: &'a [RecordDecl], it: &'a Iter, part: Part) -> Site<'a>
    ensures { ground_of result ≡ fl.ground records.now it.now part }
{
    Site {
        part,
        record_fields: record_fields(records, it),
        pad_fields: it.pad.as_slice(),
    }
}

fn arg_sort(arg: &Arg) -> Sort
    ensures { result ≡ fl.arg_sort arg.now }
{
    if arg.pointer { Sort::Ptr } else { Sort::Int }
}

// Brings the arguments in scope.
fn declare_args(alloc: Global, scope: &mut Scope, args: &[Arg]) -> Result<(), Memory>
    ensures { OnOk result (scope.new.items ≡ fl.with_args args.now scope.old.items) }
{
    'listed: for arg in args {
        declare(alloc, scope, &arg.name, Some(arg_sort(arg)), false)?;
    }
    Ok(())
}

// The faults of a block, and whether it ends.
fn check_part(
    alloc: Global,
    best: &mut Option<Fault>,
    site: &Site,
    scope: &mut Scope,
    body: &Block,
) -> Result<bool, Memory>
    ensures faults { OnOk result (best.new ≡ first.first_block (ground_of site.now) scope.old.items body.now best.old) }
    ensures ends { IfOk result (λ b. b ≡ ends (block body.now)) }
{
    check_block(alloc, best, site, scope, body)?;
    Ok(path_block(best, site.part, body))
}

// The faults of a block that must end.
fn check_ending(
    alloc: Global,
    best: &mut Option<Fault>,
    site: &Site,
    scope: &mut Scope,
    body: &Block,
) -> Result<(), Memory>
    ensures { OnOk result (best.new ≡ first.first_ending (ground_of site.now) scope.old.items body.now best.old) }
{
    let ends = check_part(alloc, best, site, scope, body)?;
    note(best, CheckKind::Path, body.close, !ends);
    Ok(())
}

fn check_init(
    alloc: Global,
    best: &mut Option<Fault>,
    records: &[RecordDecl],
    it: &Iter,
) -> Result<(), Memory>
    ensures { OnOk result (best.new ≡ first.first_ending (fl.ground records.now it.now Part.Init) (fl.with_args (it.now).args []) (it.now).init_part best.old) }
{
    let site = site_of(records, it, Part::Init);
    let mut scope = Vec::new(alloc);
    declare_args(alloc, &mut scope, it.args.as_slice())?;
    check_ending(alloc, best, &site, &mut scope, &it.init_part)?;
    Ok(())
}

fn check_end(
    alloc: Global,
    best: &mut Option<Fault>,
    records: &[RecordDecl],
    it: &Iter,
) -> Result<(), Memory>
    ensures { OnOk result (best.new ≡ first.first_block (fl.ground records.now it.now Part.End) [] (it.now).end_part best.old) }
{
    let site = site_of(records, it, Part::End);
    let mut scope = Vec::new(alloc);
    let _ends = check_part(alloc, best, &site, &mut scope, &it.end_part)?;
    Ok(())
}

fn check_next(
    alloc: Global,
    best: &mut Option<Fault>,
    records: &[RecordDecl],
    it: &Iter,
) -> Result<(), Memory>
    ensures { OnOk result (best.new ≡ first.first_ending (fl.ground records.now it.now Part.Next) [] (it.now).next_part best.old) }
{
    let site = site_of(records, it, Part::Next);
    let mut scope = Vec::new(alloc);
    check_ending(alloc, best, &site, &mut scope, &it.next_part)?;
    Ok(())
}

// The faults of an iterator's record, pad and arguments.
fn check_head(best: &mut Option<Fault>, records: &[RecordDecl], it: &Iter)
    ensures { best.new ≡ first.first_head records.now it.now best.old }
{
    note(
        best,
        CheckKind::Name,
        it.on.place,
        record_for(records, it).is_none(),
    );
    check_fields(best, CheckKind::PadSize, &it.name, it.pad.as_slice());
    check_list(best, CheckKind::ArgCount, MOST_ARGS, it.args.as_slice());
}

/// All faults of an iterator but those of Code and Index.
pub(crate) fn check_iter(
    alloc: Global,
    best: &mut Option<Fault>,
    records: &[RecordDecl],
    it: &Iter,
) -> Result<(), Memory>
    ensures { OnOk result (best.new ≡ first.first_iter records.now it.now best.old) }
{
    check_head(best, records, it);
    check_init(alloc, best, records, it)?;
    check_end(alloc, best, records, it)?;
    check_next(alloc, best, records, it)?;
    Ok(())
}

// The faults of the indices in a block of an iterator.
fn index_part(
    alloc: Global,
    best: &mut Option<Fault>,
    site: &Site,
    body: &Block,
) -> Result<(), Memory>
    ensures { OnOk result (best.new ≡ first_indices (ground_of site.now) [] (block body.now) best.old) }
{
    let mut loops = Vec::new(alloc);
    index_block(alloc, best, site, &mut loops, body)?;
    Ok(())
}

/// The faults of an iterator's indices.
pub(crate) fn index_iter(
    alloc: Global,
    best: &mut Option<Fault>,
    records: &[RecordDecl],
    it: &Iter,
) -> Result<(), Memory>
    ensures { OnOk result (best.new ≡ first.first_iter_indices records.now it.now best.old) }
{
    index_part(
        alloc,
        best,
        &site_of(records, it, Part::Init),
        &it.init_part,
    )?;
    index_part(alloc, best, &site_of(records, it, Part::End), &it.end_part)?;
    index_part(
        alloc,
        best,
        &site_of(records, it, Part::Next),
        &it.next_part,
    )?;
    Ok(())
}
