// The span of the record's fields.

ghost use Rattle.std.specs.Prelude.{◌≡◌};
ghost use Rattle.iter_unroll.specs.Flat.{Fs};
ghost use Rattle.iter_unroll.specs.Tree.{fx, fst, fsts};
ghost use Rattle.iter_unroll.specs.Uses.{flat_uses};
ghost use Rattle.iter_unroll.specs.Span.{HoldsAll, IsSpan};
ghost use Rattle.iter_unroll.specs.unrolling.Views.{use_of};
ghost use Rattle.iter_unroll.specs.unrolling.Bounds.{bounds_of, wider, wider_fx, wider_fs};

use crate::tree::{Flat, FlatExpr, FlatStmt, FlatUse};
use iter_check::width_bytes;

/// Where the bytes of some fields begin, and where they are past.
#[derive(Clone, Copy, Debug, PartialEq, Eq)]
pub struct Bounds {
    pub from: u32,
    pub past: u32,
}

// The bounds with one more field.
fn wider(bounds: Option<Bounds>, field: FlatUse) -> Option<Bounds>
    ensures { bounds_of result ≡ wider (bounds_of bounds) (use_of field) }
{
    let from = field.off as u32;
    let past = from + width_bytes(field.width) as u32;
    match bounds {
        None => Some(Bounds { from, past }),
        Some(b) => Some(Bounds {
            from: from.min(b.from),
            past: past.max(b.past),
        }),
    }
}

// The bounds with the fields of an expression.
fn wider_expr(bounds: Option<Bounds>, e: &FlatExpr) -> Option<Bounds>
    ensures { bounds_of result ≡ wider_fx (bounds_of bounds) (fx e.now) }
{
    match e {
        FlatExpr::Num { .. } => bounds,
        FlatExpr::Null => bounds,
        FlatExpr::Arg { .. } => bounds,
        FlatExpr::Local { .. } => bounds,
        FlatExpr::Cur => bounds,
        FlatExpr::CurField { field } => wider(bounds, *field),
        FlatExpr::PadField { .. } => bounds,
        FlatExpr::Not { of } => wider_expr(bounds, of.get()),
        FlatExpr::Flip { of } => wider_expr(bounds, of.get()),
        FlatExpr::Binary { left, right, .. } => {
            let first = wider_expr(bounds, left.get());
            wider_expr(first, right.get())
        }
        FlatExpr::At { base, offset } => {
            let first = wider_expr(bounds, base.get());
            wider_expr(first, offset.get())
        }
    }
}

// The bounds with the fields of a statement.
#[cycle(span)]
fn wider_stmt(bounds: Option<Bounds>, s: &FlatStmt) -> Option<Bounds>
    ensures { (rest : Fs) → wider_fs (bounds_of bounds) (fst s.now rest) ≡ wider_fs (bounds_of result) rest }
{
    match s {
        FlatStmt::Local { value, .. } => wider_expr(bounds, value),
        FlatStmt::Pad { value, .. } => wider_expr(bounds, value),
        FlatStmt::Cur { target, value } => wider_expr(wider(bounds, *target), value),
        FlatStmt::If { test, yes, no } => {
            let tested = wider_expr(bounds, test);
            let first = wider_row(tested, yes.as_slice());
            wider_row(first, no.as_slice())
        }
        FlatStmt::Done => bounds,
        FlatStmt::Go { to } => wider_expr(bounds, to),
    }
}

// The bounds with the fields of statements in a row.
#[cycle(span)]
fn wider_row(bounds: Option<Bounds>, stmts: &[FlatStmt]) -> Option<Bounds>
    ensures { bounds_of result ≡ wider_fs (bounds_of bounds) (fsts stmts.now) }
{
    let mut all = bounds;
    'row: for s in stmts {
        all = wider_stmt(all, s);
    }
    all
}

/// The offset and the length of the least interval of the record that holds the bytes of every field
/// used in end or next, read or written; (0, 0) where none is. It takes no memory.
pub fn span(flat: &Flat) -> (u16, u16)
    requires inside { HoldsAll (0, flat.now.record_size) (flat_uses flat.now) }
    ensures least { IsSpan (flat_uses flat.now) result }
{
    let _size = flat.record_size;
    let first = wider_row(None, flat.end_part.as_slice());
    match wider_row(first, flat.next_part.as_slice()) {
        None => (0, 0),
        Some(b) => (b.from as u16, (b.past - b.from) as u16),
    }
}
