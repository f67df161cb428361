// How many nodes code has, and how many of them read a field.

ghost use Rattle.std.specs.Prelude.{◌≡◌, ◌≤◌, ◌+◌};
ghost use Rattle.iter_unroll.specs.Flat.{Fs, end};
ghost use Rattle.iter_unroll.specs.Limits.{fx_nodes, fs_nodes};
ghost use Rattle.iter_unroll.specs.Tree.{fx, fst, fsts};
ghost use Rattle.flat_hoist.specs.hoisting.Reads as r;

use crate::field::Field;
use iter_unroll::{FlatExpr, FlatStmt};

/// The nodes of some code, and those of them that read a field.
#[derive(Clone, Copy)]
pub struct Count {
    pub nodes: u32,
    pub reads: u32,
}

impl Count {
    // None of either.
    fn none() -> Count
        ensures nodes { result.nodes ≡ 0 }
        ensures reads { result.reads ≡ 0 }
    {
        Count { nodes: 0, reads: 0 }
    }

    // With the nodes of more code.
    fn with(self, more: Count) -> Count
        requires few { self.nodes + more.nodes ≤ 2001 }
        requires own { self.reads ≤ self.nodes }
        requires more { more.reads ≤ more.nodes }
        ensures nodes { result.nodes ≡ self.nodes + more.nodes }
        ensures reads { result.reads ≡ self.reads + more.reads }
    {
        Count {
            nodes: self.nodes + more.nodes,
            reads: self.reads + more.reads,
        }
    }

    // With the node that these are the parts of.
    fn under(self, reads: bool) -> Count
        requires few { self.nodes ≤ 2000 }
        requires own { self.reads ≤ self.nodes }
        ensures nodes { result.nodes ≡ 1 + self.nodes }
        ensures reads { result.reads ≡ r.once reads + self.reads }
    {
        Count {
            nodes: 1 + self.nodes,
            reads: if reads { 1 + self.reads } else { self.reads },
        }
    }
}

fn count_expr(field: Field, e: &FlatExpr) -> Count
    requires few { fx_nodes (fx e.now) ≤ 2000 }
    ensures nodes { result.nodes ≡ fx_nodes (fx e.now) }
    ensures reads { result.reads ≡ r.reads field (fx e.now) }
    ensures most { result.reads ≤ result.nodes }
{
    match e {
        FlatExpr::Num { .. } => Count::none().under(false),
        FlatExpr::Null => Count::none().under(false),
        FlatExpr::Arg { .. } => Count::none().under(false),
        FlatExpr::Local { .. } => Count::none().under(false),
        FlatExpr::Cur => Count::none().under(false),
        FlatExpr::CurField { field: bytes } => Count::none().under(
            !field.pad && field.has_bytes(*bytes),
        ),
        FlatExpr::PadField { field: bytes } => Count::none().under(
            field.pad && field.has_bytes(*bytes),
        ),
        FlatExpr::Not { of } => count_expr(field, of.get()).under(false),
        FlatExpr::Flip { of } => count_expr(field, of.get()).under(false),
        FlatExpr::Binary { left, right, .. } => {
            let first = count_expr(field, left.get());
            first.with(count_expr(field, right.get())).under(false)
        }
        FlatExpr::At { base, offset } => {
            let first = count_expr(field, base.get());
            first.with(count_expr(field, offset.get())).under(false)
        }
    }
}

#[cycle(count)]
fn count_stmt(field: Field, s: &FlatStmt) -> Count
    requires few { fs_nodes (fst s.now end) ≤ 2000 }
    ensures nodes { result.nodes ≡ fs_nodes (fst s.now end) }
    ensures reads { (rest : Fs) → r.all_reads field (fst s.now rest) ≡ result.reads + r.all_reads field rest }
    ensures most { result.reads ≤ result.nodes }
{
    match s {
        FlatStmt::Local { value, .. } => count_expr(field, value).under(false),
        FlatStmt::Pad { value, .. } => count_expr(field, value).under(false),
        FlatStmt::Cur { value, .. } => count_expr(field, value).under(false),
        FlatStmt::If { test, yes, no } => {
            let first = count_row(field, yes.as_slice());
            let other = count_row(field, no.as_slice());
            count_expr(field, test).with(first).with(other).under(false)
        }
        FlatStmt::Done => Count::none().under(false),
        FlatStmt::Go { to } => count_expr(field, to).under(false),
    }
}

/// The nodes of statements in a row, and those that read a field.
#[cycle(count)]
pub fn count_row(field: Field, stmts: &[FlatStmt]) -> Count
    requires few { fs_nodes (fsts stmts.now) ≤ 2000 }
    ensures nodes { result.nodes ≡ fs_nodes (fsts stmts.now) }
    ensures reads { result.reads ≡ r.all_reads field (fsts stmts.now) }
    ensures most { result.reads ≤ result.nodes }
{
    let mut all = Count::none();
    'row: for s in stmts {
        all = all.with(count_stmt(field, s));
    }
    all
}
