// A slot in place of each read of a field.

ghost use Rattle.std.specs.Prelude.{◌≡◌, IfOk};
ghost use Rattle.iter_unroll.specs.Flat.{Fs, cur_field, pad_field};
ghost use Rattle.iter_unroll.specs.Tree.{fx, fst, fsts};
ghost use Rattle.flat_hoist.specs.hoisting.Swapped.{in_slot, all_in_slot, before};

use crate::field::Field;
use iter_unroll::{FlatBlock, FlatExpr, FlatStmt, FlatUse};
use pulse_base::Memory;
use sqlite_items::Boxed;
use std::alloc::Global;

fn boxed(alloc: Global, e: FlatExpr) -> Result<Boxed<FlatExpr>, Memory>
    ensures { IfOk result (λ b. b ≡ e) }
{
    match Boxed::new(alloc, e) {
        Ok(b) => Ok(b),
        Err(_) => Err(Memory),
    }
}

// A read of these bytes of the record, or the slot where they are the field.
fn swap_cur(field: Field, slot: u8, bytes: FlatUse) -> FlatExpr
    ensures { fx result ≡ in_slot field slot (cur_field bytes.off bytes.width) }
{
    if !field.pad && field.has_bytes(bytes) {
        FlatExpr::Local { slot }
    } else {
        FlatExpr::CurField { field: bytes }
    }
}

// A read of these bytes of the pad, or the slot where they are the field.
fn swap_pad(field: Field, slot: u8, bytes: FlatUse) -> FlatExpr
    ensures { fx result ≡ in_slot field slot (pad_field bytes.off bytes.width) }
{
    if field.pad && field.has_bytes(bytes) {
        FlatExpr::Local { slot }
    } else {
        FlatExpr::PadField { field: bytes }
    }
}

// The expression, with the slot in place of each read of the field.
fn swap_expr(alloc: Global, field: Field, slot: u8, e: &FlatExpr) -> Result<FlatExpr, Memory>
    ensures { IfOk result (λ swapped. fx swapped ≡ in_slot field slot (fx e.now)) }
{
    match e {
        FlatExpr::Num { value } => Ok(FlatExpr::Num { value: *value }),
        FlatExpr::Null => Ok(FlatExpr::Null),
        FlatExpr::Arg { number } => Ok(FlatExpr::Arg { number: *number }),
        FlatExpr::Local { slot } => Ok(FlatExpr::Local { slot: *slot }),
        FlatExpr::Cur => Ok(FlatExpr::Cur),
        FlatExpr::CurField { field: bytes } => Ok(swap_cur(field, slot, *bytes)),
        FlatExpr::PadField { field: bytes } => Ok(swap_pad(field, slot, *bytes)),
        FlatExpr::Not { of } => {
            let of = swap_expr(alloc, field, slot, of.get())?;
            Ok(FlatExpr::Not {
                of: boxed(alloc, of)?,
            })
        }
        FlatExpr::Flip { of } => {
            let of = swap_expr(alloc, field, slot, of.get())?;
            Ok(FlatExpr::Flip {
                of: boxed(alloc, of)?,
            })
        }
        FlatExpr::Binary { op, left, right } => {
            let left = swap_expr(alloc, field, slot, left.get())?;
            let right = swap_expr(alloc, field, slot, right.get())?;
            Ok(FlatExpr::Binary {
                op: *op,
                left: boxed(alloc, left)?,
                right: boxed(alloc, right)?,
            })
        }
        FlatExpr::At { base, offset } => {
            let base = swap_expr(alloc, field, slot, base.get())?;
            let offset = swap_expr(alloc, field, slot, offset.get())?;
            Ok(FlatExpr::At {
                base: boxed(alloc, base)?,
                offset: boxed(alloc, offset)?,
            })
        }
    }
}

#[cycle(swap)]
fn swap_stmt(alloc: Global, field: Field, slot: u8, s: &FlatStmt) -> Result<FlatStmt, Memory>
    ensures { IfOk result (λ swapped. (rest : Fs) → fst swapped (all_in_slot field slot rest) ≡ all_in_slot field slot (fst s.now rest)) }
{
    match s {
        FlatStmt::Local { slot: set, value } => {
            let value = swap_expr(alloc, field, slot, value)?;
            Ok(FlatStmt::Local { slot: *set, value })
        }
        FlatStmt::Pad { target, value } => {
            let value = swap_expr(alloc, field, slot, value)?;
            Ok(FlatStmt::Pad {
                target: *target,
                value,
            })
        }
        FlatStmt::Cur { target, value } => {
            let value = swap_expr(alloc, field, slot, value)?;
            Ok(FlatStmt::Cur {
                target: *target,
                value,
            })
        }
        FlatStmt::If { test, yes, no } => {
            let test = swap_expr(alloc, field, slot, test)?;
            let first = swap_row(alloc, field, slot, FlatBlock::new(alloc), yes.as_slice())?;
            let other = swap_row(alloc, field, slot, FlatBlock::new(alloc), no.as_slice())?;
            Ok(FlatStmt::If {
                test,
                yes: first,
                no: other,
            })
        }
        FlatStmt::Done => Ok(FlatStmt::Done),
        FlatStmt::Go { to } => {
            let to = swap_expr(alloc, field, slot, to)?;
            Ok(FlatStmt::Go { to })
        }
    }
}

/// Puts statements behind some that are there, with the slot in place of each read of the field.
#[cycle(swap)]
pub fn swap_row(
    alloc: Global,
    field: Field,
    slot: u8,
    head: FlatBlock,
    stmts: &[FlatStmt],
) -> Result<FlatBlock, Memory>
    ensures { IfOk result (λ row. fsts row ≡ before head (all_in_slot field slot (fsts stmts.now))) }
{
    let mut row = head;
    'row: for s in stmts {
        row.push(swap_stmt(alloc, field, slot, s)?)?;
    }
    Ok(row)
}
