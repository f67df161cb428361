// Statements.

ghost use Rattle.std.specs.Prelude.{◌≡◌, OnOk};
ghost use Rattle.iter_syntax.specs.declared.tree.Place.{Place};
ghost use Rattle.iter_syntax.specs.Tree as s;
ghost use Rattle.iter_syntax.specs.Tree.{ex, used, to_pad, to_cur};
ghost use Rattle.iter_unroll.specs.unrolling.Views.{env_of, shape_of, Small};
ghost use Rattle.iter_unroll.specs.unrolling.Steps.{Adds, One, Keeps, Grew};

use crate::expr::{Shape, unroll_expr};
use crate::field::use_at;
use crate::refused::Refused;
use crate::scope::{Entry, Meant, Scope, let_slot};
use crate::tree::{FlatBlock, FlatStmt};
use iter_syntax::{Expr, FieldUse, Word};
use std::alloc::Global;

/// Appends a statement, or tells why there is none.
pub fn add(out: &mut FlatBlock, s: Result<FlatStmt, Refused>) -> Result<(), Refused>
    ensures { Adds out.old s result out.new }
{
    match s {
        Ok(s) => match out.push(s) {
            Ok(()) => Ok(()),
            Err(_) => Err(Refused::Memory),
        },
        Err(e) => Err(e),
    }
}

/// A let, in the next slot.
#[tactic(auto, using(crate::proofs::unrolling::Flats::let_is, crate::proofs::unrolling::Flats::let_none, crate::proofs::unrolling::Flats::let_full))]
pub fn flat_let<'a>(
    alloc: Global,
    shape: &Shape,
    scope: &mut Scope<'a>,
    name: &'a Word,
    value: &Expr,
) -> Result<FlatStmt, Refused>
    requires shape { Small (shape_of shape.now) }
    ensures one { (p : Place) → One (shape_of shape.now) (λ rest. s.bind p name.now (ex value.now) rest) scope.old result scope.new }
    ensures grows { OnOk result (Grew scope.old scope.new) }
{
    if scope.lets >= 8 {
        return Err(Refused::Unknown);
    }
    let value = unroll_expr(alloc, shape, &scope.entries, value)?;
    let slot = scope.lets;
    match scope.declare(name, Meant::Slot(slot)) {
        Ok(()) => {
            scope.lets = slot + 1;
            Ok(FlatStmt::Local { slot, value })
        }
        Err(_) => Err(Refused::Memory),
    }
}

/// An assignment to a let.
#[tactic(auto, using(crate::proofs::unrolling::Flats::set_is, crate::proofs::unrolling::Flats::set_no_slot, crate::proofs::unrolling::Flats::set_no_value))]
pub fn flat_set(
    alloc: Global,
    shape: &Shape,
    entries: &[Entry],
    name: &Word,
    value: &Expr,
) -> Result<FlatStmt, Refused>
    requires shape { Small (shape_of shape.now) }
    ensures { (p : Place) → Keeps (shape_of shape.now) (λ rest. s.set p name.now (ex value.now) rest) (env_of entries.now) result }
{
    match let_slot(entries, name) {
        None => Err(Refused::Unknown),
        Some(slot) => {
            let value = unroll_expr(alloc, shape, entries, value)?;
            Ok(FlatStmt::Local { slot, value })
        }
    }
}

/// A store to the pad.
#[tactic(auto, using(crate::proofs::unrolling::Flats::pad_is, crate::proofs::unrolling::Flats::pad_no_field, crate::proofs::unrolling::Flats::pad_no_value))]
pub fn flat_pad(
    alloc: Global,
    shape: &Shape,
    entries: &[Entry],
    target: &FieldUse,
    value: &Expr,
) -> Result<FlatStmt, Refused>
    requires shape { Small (shape_of shape.now) }
    ensures { (p : Place) → Keeps (shape_of shape.now) (λ rest. to_pad p (used target.now).0 (used target.now).1 (ex value.now) rest) (env_of entries.now) result }
{
    let target = use_at(shape.pad_fields, entries, target)?;
    let value = unroll_expr(alloc, shape, entries, value)?;
    Ok(FlatStmt::Pad { target, value })
}

/// A store to the record.
#[tactic(auto, using(crate::proofs::unrolling::Flats::cur_is, crate::proofs::unrolling::Flats::cur_no_field, crate::proofs::unrolling::Flats::cur_no_value))]
pub fn flat_cur(
    alloc: Global,
    shape: &Shape,
    entries: &[Entry],
    target: &FieldUse,
    value: &Expr,
) -> Result<FlatStmt, Refused>
    requires shape { Small (shape_of shape.now) }
    ensures { (p : Place) → Keeps (shape_of shape.now) (λ rest. to_cur p (used target.now).0 (used target.now).1 (ex value.now) rest) (env_of entries.now) result }
{
    let target = use_at(shape.record_fields, entries, target)?;
    let value = unroll_expr(alloc, shape, entries, value)?;
    Ok(FlatStmt::Cur { target, value })
}

/// `go`.
#[tactic(auto, using(crate::proofs::unrolling::Flats::go_is, crate::proofs::unrolling::Flats::go_none))]
pub fn flat_go(
    alloc: Global,
    shape: &Shape,
    entries: &[Entry],
    to: &Expr,
) -> Result<FlatStmt, Refused>
    requires shape { Small (shape_of shape.now) }
    ensures { (p : Place) → Keeps (shape_of shape.now) (λ rest. s.go p (ex to.now) rest) (env_of entries.now) result }
{
    let to = unroll_expr(alloc, shape, entries, to)?;
    Ok(FlatStmt::Go { to })
}
