// The faults of statements, paths aside: names, types, depths, locals and loop bounds.

ghost use Rattle.std.specs.Prelude.{◌≡◌, OnOk, Some, true, false};
ghost use Rattle.iter_syntax.specs.declared.tree.Place.{Place};
ghost use Rattle.iter_syntax.specs.Tree.{Sts, ex, st, sts, block, used, to_pad, to_cur};
ghost use Rattle.iter_check.specs.declared.sort.Sort.TheVariants as s;
ghost use Rattle.iter_check.specs.Scope as sc;
ghost use Rattle.iter_check.specs.Scoping as sp;
ghost use Rattle.iter_check.specs.Typing as ty;
ghost use Rattle.iter_check.specs.First.Expr.{ground_of};
ghost use Rattle.iter_check.specs.First.Stmt as fs;

use crate::best::note;
use crate::expr::{Site, check_expr, check_use, note_deep, place_of};
use crate::kind::{CheckKind, Fault};
use crate::scope::{Binding, Scope, bound, declare, how_many, is_full, keep_oldest};
use crate::sort::Sort;
use crate::typing::{differ, in_init, is_bool, of_cur};
use iter_syntax::{Block, Expr, FieldUse, Place, Stmt, Word};
use pulse_base::Memory;
use std::alloc::Global;

// The type of a whole expression, and its faults.
fn check_whole(
    best: &mut Option<Fault>,
    site: &Site,
    scope: &[Binding],
    expr: &Expr,
) -> Option<Sort>
    ensures sort { result ≡ ty.sort_of (ground_of site.now) scope.now (ex expr.now) }
    ensures faults { best.new ≡ fs.first_whole (ground_of site.now) scope.now (ex expr.now) best.old }
{
    note_deep(best, expr);
    check_expr(best, site, scope, expr)
}

// The faults of a whole expression of a wanted type.
fn check_wanted(
    best: &mut Option<Fault>,
    site: &Site,
    scope: &[Binding],
    wanted: Option<Sort>,
    expr: &Expr,
)
    ensures { best.new ≡ fs.first_wanted (ground_of site.now) scope.now wanted (ex expr.now) best.old }
{
    let sort = check_whole(best, site, scope, expr);
    note(
        best,
        CheckKind::Typing,
        place_of(expr),
        differ(wanted, sort),
    );
}

fn let_sort(sort: Option<Sort>) -> Option<Sort>
    ensures { result ≡ sp.let_sort sort }
{
    match sort {
        None => None,
        Some(Sort::Int) => Some(Sort::Int),
        Some(Sort::Ptr) => Some(Sort::Ptr),
        Some(Sort::Bool) => None,
    }
}

// The type of the let that a name is bound to.
fn target_sort(scope: &[Binding], name: &Word) -> Option<Sort>
    ensures { result ≡ sp.target_sort (sc.bound scope.now name.now) }
{
    match bound(scope, name) {
        None => None,
        Some(binding) => if binding.is_let { binding.sort } else { None },
    }
}

fn is_let(scope: &[Binding], name: &Word) -> bool
    ensures { result ≡ sp.is_let (sc.bound scope.now name.now) }
{
    match bound(scope, name) {
        None => false,
        Some(binding) => binding.is_let,
    }
}

// A let, whose name comes in scope behind it.
fn check_let(
    alloc: Global,
    best: &mut Option<Fault>,
    site: &Site,
    scope: &mut Scope,
    name: &Word,
    value: &Expr,
) -> Result<(), Memory>
    ensures faults { OnOk result (best.new ≡ fs.first_let (ground_of site.now) scope.old.items name.now (ex value.now) best.old) }
    ensures scope { OnOk result (scope.new.items ≡ sc.bind name.now (sp.let_sort (ty.sort_of (ground_of site.now) scope.old.items (ex value.now))) true scope.old.items) }
{
    note(
        best,
        CheckKind::Name,
        name.place,
        bound(scope.as_slice(), name).is_some(),
    );
    note(
        best,
        CheckKind::LocalCount,
        name.place,
        is_full(scope.as_slice()),
    );
    let sort = check_whole(best, site, scope.as_slice(), value);
    note(best, CheckKind::Typing, place_of(value), is_bool(sort));
    declare(alloc, scope, name, let_sort(sort), true)
}

// An assignment to a let.
fn check_set(best: &mut Option<Fault>, site: &Site, scope: &[Binding], name: &Word, value: &Expr)
    ensures { best.new ≡ fs.first_set (ground_of site.now) scope.now name.now (ex value.now) best.old }
{
    note(best, CheckKind::Name, name.place, !is_let(scope, name));
    check_wanted(best, site, scope, target_sort(scope, name), value);
}

#[tactic(auto, using(crate::proofs::ScopeLaws::store_pad_is))]
fn check_store_pad(
    best: &mut Option<Fault>,
    site: &Site,
    scope: &[Binding],
    target: &FieldUse,
    value: &Expr,
)
    ensures { (p : Place) (rest : Sts) → fs.first_scoping (ground_of site.now) scope.now (to_pad p (used target.now).0 (used target.now).1 (ex value.now) rest) best.old ≡ fs.first_scoping (ground_of site.now) scope.now rest best.new }
{
    let sort = check_use(best, site, scope, site.pad_fields, target);
    check_wanted(best, site, scope, sort, value);
}

#[tactic(auto, using(crate::proofs::ScopeLaws::store_cur_is))]
fn check_store_cur(
    best: &mut Option<Fault>,
    site: &Site,
    scope: &[Binding],
    place: Place,
    target: &FieldUse,
    value: &Expr,
)
    ensures { (rest : Sts) → fs.first_scoping (ground_of site.now) scope.now (to_cur place (used target.now).0 (used target.now).1 (ex value.now) rest) best.old ≡ fs.first_scoping (ground_of site.now) scope.now rest best.new }
{
    note(best, CheckKind::Name, place, in_init(site.part));
    let sort = check_use(best, site, scope, site.record_fields, target);
    check_wanted(best, site, scope, of_cur(site.part, sort), value);
}

// The name and the bounds of a loop.
fn check_bounds(best: &mut Option<Fault>, scope: &[Binding], name: &Word, first: u64, past: u64)
    ensures { best.new ≡ fs.first_loop scope.now name.now first past best.old }
{
    note(
        best,
        CheckKind::Name,
        name.place,
        bound(scope, name).is_some(),
    );
    note(
        best,
        CheckKind::LoopTurns,
        name.place,
        past <= first || past - first > 64,
    );
}

#[cycle(stmts)]
fn check_stmt(
    alloc: Global,
    best: &mut Option<Fault>,
    site: &Site,
    scope: &mut Scope,
    s: &Stmt,
) -> Result<(), Memory>
    ensures faults { OnOk result (fs.Passes (ground_of site.now) scope.old.items scope.new.items (st s.now) best.old best.new) }
    ensures grows { OnOk result (fs.Grows scope.old.items scope.new.items) }
{
    match s {
        Stmt::Let { name, value, .. } => check_let(alloc, best, site, scope, name, value)?,
        Stmt::Set { name, value, .. } => check_set(best, site, scope.as_slice(), name, value),
        Stmt::SetPad { target, value, .. } => {
            check_store_pad(best, site, scope.as_slice(), target, value);
        }
        Stmt::SetCur {
            place,
            target,
            value,
        } => check_store_cur(best, site, scope.as_slice(), *place, target, value),
        Stmt::If { test, yes, no, .. } => {
            check_wanted(best, site, scope.as_slice(), Some(Sort::Bool), test);
            check_block(alloc, best, site, scope, yes)?;
            if let Some(other) = no {
                check_block(alloc, best, site, scope, other)?;
            }
        }
        Stmt::For {
            name,
            first,
            past,
            body,
            ..
        } => check_loop(alloc, best, site, scope, name, *first, *past, body)?,
        Stmt::Done { .. } => {}
        Stmt::Go { to, .. } => check_wanted(best, site, scope.as_slice(), Some(Sort::Ptr), to),
    }
    Ok(())
}

/// A block, whose names leave with it.
#[cycle(stmts)]
pub(crate) fn check_block(
    alloc: Global,
    best: &mut Option<Fault>,
    site: &Site,
    scope: &mut Scope,
    body: &Block,
) -> Result<(), Memory>
    ensures faults { OnOk result (best.new ≡ fs.first_scoping (ground_of site.now) scope.old.items (block body.now) best.old) }
    ensures same { OnOk result (scope.new.items ≡ scope.old.items) }
{
    let outer = how_many(scope);
    check_row(alloc, best, site, scope, body.stmts.as_slice())?;
    keep_oldest(scope, outer);
    Ok(())
}

#[cycle(stmts)]
fn check_loop(
    alloc: Global,
    best: &mut Option<Fault>,
    site: &Site,
    scope: &mut Scope,
    name: &Word,
    first: u64,
    past: u64,
    body: &Block,
) -> Result<(), Memory>
    ensures faults { OnOk result (best.new ≡ fs.first_scoping (ground_of site.now) (sc.bind name.now (Some s.Int) false scope.old.items) (block body.now) (fs.first_loop scope.old.items name.now first past best.old)) }
    ensures same { OnOk result (scope.new.items ≡ scope.old.items) }
{
    let len = how_many(scope);
    check_bounds(best, scope.as_slice(), name, first, past);
    declare(alloc, scope, name, Some(Sort::Int), false)?;
    check_block(alloc, best, site, scope, body)?;
    keep_oldest(scope, len);
    Ok(())
}

#[cycle(stmts)]
fn check_row(
    alloc: Global,
    best: &mut Option<Fault>,
    site: &Site,
    scope: &mut Scope,
    stmts: &[Stmt],
) -> Result<(), Memory>
    ensures faults { OnOk result (best.new ≡ fs.first_scoping (ground_of site.now) scope.old.items (sts stmts.now) best.old) }
    ensures grows { OnOk result (fs.Grows scope.old.items scope.new.items) }
{
    'row: for s in stmts {
        check_stmt(alloc, best, site, scope, s)?;
    }
    Ok(())
}
