// Whether code leaves a slot and a field alone.

ghost use Rattle.std.specs.Prelude.{◌≡◌, ◌&&◌};
ghost use Rattle.iter_unroll.specs.Flat.{Fs};
ghost use Rattle.iter_unroll.specs.Tree.{fx, fst, fsts};
ghost use Rattle.flat_hoist.specs.hoisting.Clear as c;

use crate::field::Field;
use iter_unroll::{FlatExpr, FlatStmt};

// Whether an expression does not name a slot.
fn spares(slot: u8, e: &FlatExpr) -> bool
    ensures { result ≡ c.spares slot (fx e.now) }
{
    match e {
        FlatExpr::Num { .. } => true,
        FlatExpr::Null => true,
        FlatExpr::Arg { .. } => true,
        FlatExpr::Local { slot: named } => *named != slot,
        FlatExpr::Cur => true,
        FlatExpr::CurField { .. } => true,
        FlatExpr::PadField { .. } => true,
        FlatExpr::Not { of } => spares(slot, of.get()),
        FlatExpr::Flip { of } => spares(slot, of.get()),
        FlatExpr::Binary { left, right, .. } => {
            let first = spares(slot, left.get());
            let second = spares(slot, right.get());
            first && second
        }
        FlatExpr::At { base, offset } => {
            let first = spares(slot, base.get());
            let second = spares(slot, offset.get());
            first && second
        }
    }
}

fn all_three(tested: bool, first: bool, other: bool) -> bool
    ensures { result ≡ ((tested && first) && other) }
{
    tested && first && other
}

#[cycle(clear)]
fn is_clear_stmt(field: Field, slot: u8, s: &FlatStmt) -> bool
    ensures { (rest : Fs) → c.clear field slot (fst s.now rest) ≡ (result && c.clear field slot rest) }
{
    match s {
        FlatStmt::Local { slot: set, value } => {
            let spared = spares(slot, value);
            *set != slot && spared
        }
        FlatStmt::Pad { target, value } => {
            let missed = field.misses(*target);
            let spared = spares(slot, value);
            (!field.pad || missed) && spared
        }
        FlatStmt::Cur { target, value } => {
            let missed = field.misses(*target);
            let spared = spares(slot, value);
            (field.pad || missed) && spared
        }
        FlatStmt::If { test, yes, no } => {
            let tested = spares(slot, test);
            let first = is_clear(field, slot, yes.as_slice());
            let other = is_clear(field, slot, no.as_slice());
            all_three(tested, first, other)
        }
        FlatStmt::Done => true,
        FlatStmt::Go { to } => spares(slot, to),
    }
}

/// Whether statements in a row neither name the slot nor store over the field.
#[cycle(clear)]
pub fn is_clear(field: Field, slot: u8, stmts: &[FlatStmt]) -> bool
    ensures { result ≡ c.clear field slot (fsts stmts.now) }
{
    let mut all = true;
    'row: for s in stmts {
        let one = is_clear_stmt(field, slot, s);
        all = all && one;
    }
    all
}
