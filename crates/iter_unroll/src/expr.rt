// Expressions.

ghost use Rattle.std.specs.Prelude.{◌≡◌, Some, option_map};
ghost use Rattle.iter_syntax.specs.declared.tree.Place.{Place};
ghost use Rattle.iter_syntax.specs.Tree.{ex, used, cur_use, pad_use};
ghost use Rattle.iter_check.specs.Layout.{text};
ghost use Rattle.iter_unroll.specs.Tree.{fx};
ghost use Rattle.iter_unroll.specs.unrolling.Scope.{lookup};
ghost use Rattle.iter_unroll.specs.unrolling.Flattened as t;
ghost use Rattle.iter_unroll.specs.unrolling.Views.{env_of, shape_of, Flattens, Small};

use crate::field::use_at;
use crate::refused::Refused;
use crate::scope::{Entry, Meant, find};
use crate::tree::FlatExpr;
use iter_syntax::{Expr, FieldDecl, FieldUse, Word};
use sqlite_items::Boxed;
use std::alloc::Global;

/// The fields of the record and of the pad.
#[derive(Clone, Copy)]
pub struct Shape<'a> {
    pub record_fields: &'a [FieldDecl],
    pub pad_fields: &'a [FieldDecl],
}

fn boxed(alloc: Global, e: FlatExpr) -> Result<Boxed<FlatExpr>, Refused>
    ensures { Flattens (λ b. b) result (Some e) }
{
    match Boxed::new(alloc, e) {
        Ok(b) => Ok(b),
        Err(_) => Err(Refused::Memory),
    }
}

fn named(entries: &[Entry], word: &Word) -> Result<FlatExpr, Refused>
    ensures { Flattens fx result (option_map t.named (lookup (text word.now) (env_of entries.now))) }
{
    match find(entries, word) {
        None => Err(Refused::Unknown),
        Some(Meant::Slot(slot)) => Ok(FlatExpr::Local { slot }),
        Some(Meant::Number(value)) => Ok(FlatExpr::Num { value }),
        Some(Meant::Argument(number)) => Ok(FlatExpr::Arg { number }),
    }
}

#[tactic(auto, using(crate::proofs::unrolling::Uses::cur_use_is))]
fn cur_field(shape: &Shape, entries: &[Entry], field: &FieldUse) -> Result<FlatExpr, Refused>
    requires shape { Small (shape_of shape.now) }
    ensures { (p : Place) → Flattens fx result (t.flat_ex (shape_of shape.now) (env_of entries.now) (cur_use p (used field.now).0 (used field.now).1)) }
{
    match use_at(shape.record_fields, entries, field) {
        Ok(field) => Ok(FlatExpr::CurField { field }),
        Err(Refused::Unknown) => Err(Refused::Unknown),
        Err(Refused::Memory) => Err(Refused::Memory),
    }
}

#[tactic(auto, using(crate::proofs::unrolling::Uses::pad_use_is))]
fn pad_field(shape: &Shape, entries: &[Entry], field: &FieldUse) -> Result<FlatExpr, Refused>
    requires shape { Small (shape_of shape.now) }
    ensures { (p : Place) → Flattens fx result (t.flat_ex (shape_of shape.now) (env_of entries.now) (pad_use p (used field.now).0 (used field.now).1)) }
{
    match use_at(shape.pad_fields, entries, field) {
        Ok(field) => Ok(FlatExpr::PadField { field }),
        Err(Refused::Unknown) => Err(Refused::Unknown),
        Err(Refused::Memory) => Err(Refused::Memory),
    }
}

/// The straight code of an expression.
pub fn unroll_expr(
    alloc: Global,
    shape: &Shape,
    entries: &[Entry],
    e: &Expr,
) -> Result<FlatExpr, Refused>
    requires shape { Small (shape_of shape.now) }
    ensures { Flattens fx result (t.flat_ex (shape_of shape.now) (env_of entries.now) (ex e.now)) }
{
    match e {
        Expr::Num { value, .. } => Ok(FlatExpr::Num { value: *value }),
        Expr::Null { .. } => Ok(FlatExpr::Null),
        Expr::Name { name } => named(entries, name),
        Expr::Cur { .. } => Ok(FlatExpr::Cur),
        Expr::CurField { field, .. } => cur_field(shape, entries, field),
        Expr::PadField { field, .. } => pad_field(shape, entries, field),
        Expr::Not { of, .. } => {
            let of = boxed(alloc, unroll_expr(alloc, shape, entries, of.get())?)?;
            Ok(FlatExpr::Not { of })
        }
        Expr::Flip { of, .. } => {
            let of = boxed(alloc, unroll_expr(alloc, shape, entries, of.get())?)?;
            Ok(FlatExpr::Flip { of })
        }
        Expr::Binary {
            op,
            left,
            right,
            ..
        } => {
            let left = boxed(alloc, unroll_expr(alloc, shape, entries, left.get())?)?;
            let right = boxed(alloc, unroll_expr(alloc, shape, entries, right.get())?)?;
            Ok(FlatExpr::Binary {
                op: *op,
                left,
                right,
            })
        }
        Expr::At { base, offset, .. } => {
            let base = boxed(alloc, unroll_expr(alloc, shape, entries, base.get())?)?;
            let offset = boxed(alloc, unroll_expr(alloc, shape, entries, offset.get())?)?;
            Ok(FlatExpr::At { base, offset })
        }
    }
}
