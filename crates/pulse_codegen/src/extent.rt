// How many instructions the code of statements has, before any of it is there.

ghost use Rattle.std.specs.Prelude.{◌≡◌, ◌≤◌, ◌<◌, ◌+◌, ◌*◌, ◌^◌, ◌++◌, OnOk};
ghost use Rattle.iter_unroll.specs.Flat.{choose, end};
ghost use Rattle.iter_unroll.specs.Limits.{fx_nodes, fs_nodes};
ghost use Rattle.iter_unroll.specs.Tree.{fx, fst, fsts};
ghost use Rattle.flat_code.specs.Statements as s;
ghost use Rattle.pulse_codegen.specs.Extends.{Extends};

use crate::lengths::measure;
use crate::value::Code;
use iter_unroll::{FlatExpr, FlatStmt};
use pulse_base::Memory;
use pulse_isa::Instr;

/// How many instructions statements have, and whether each way through them ends the iteration.
#[derive(Clone, Copy)]
pub(crate) struct Extent {
    pub len: u32,
    pub leaves: bool,
}

impl Extent {
    /// How many jumps stand between these statements and `other` instructions of an `else`.
    pub fn jumps_over(self, other: u32) -> u32
        ensures over { result ≡ s.over_len self.leaves other }
        ensures most { result ≤ 1 }
    {
        if self.leaves || other == 0 { 0 } else { 1 }
    }

    /// Puts that jump, to `out`.
    pub fn emit_over(self, code: &mut Code, other: u32, out: u32) -> Result<(), Memory>
        ensures { OnOk result (code.new ≡ code.old ++ s.over self.leaves other out) }
    {
        if self.leaves || other == 0 {
            Ok(())
        } else {
            code.push(Instr::Jmp { to: out })
        }
    }
}

#[cycle(extent)]
fn if_extent(test: &FlatExpr, yes: &[FlatStmt], no: &[FlatStmt]) -> Extent
    requires few { 1 + fx_nodes (fx test.now) + fs_nodes (fsts yes.now) + fs_nodes (fsts no.now) ≤ 2000 }
    ensures extends { Extends result (choose (fx test.now) (fsts yes.now) (fsts no.now)) }
    ensures few { result.len ≤ 4 * (1 + fx_nodes (fx test.now) + fs_nodes (fsts yes.now) + fs_nodes (fsts no.now)) }
{
    let first = extent_of(yes);
    let other = extent_of(no);
    Extent {
        len: measure(test).branch + first.len + first.jumps_over(other.len) + other.len,
        leaves: first.leaves && other.leaves,
    }
}

#[cycle(extent)]
fn stmt_extent(stmt: &FlatStmt) -> Extent
    requires few { fs_nodes (fst stmt.now end) ≤ 2000 }
    ensures extends { Extends result (fst stmt.now) }
    ensures few { result.len ≤ 4 * fs_nodes (fst stmt.now end) }
{
    match stmt {
        FlatStmt::Local { value, .. } => Extent {
            len: measure(value).slot,
            leaves: false,
        },
        FlatStmt::Pad { value, .. } => Extent {
            len: measure(value).operand() + 1,
            leaves: false,
        },
        FlatStmt::Cur { value, .. } => Extent {
            len: measure(value).operand() + 1,
            leaves: false,
        },
        FlatStmt::If { test, yes, no } => if_extent(test, yes.as_slice(), no.as_slice()),
        FlatStmt::Done => Extent {
            len: 1,
            leaves: true,
        },
        FlatStmt::Go { to } => Extent {
            len: measure(to).operand() + 1,
            leaves: true,
        },
    }
}

/// The extent of statements in a row.
#[cycle(extent)]
pub(crate) fn extent_of(stmts: &[FlatStmt]) -> Extent
    requires few { fs_nodes (fsts stmts.now) ≤ 2000 }
    ensures len { result.len ≡ s.sts_len (fsts stmts.now) }
    ensures leaves { result.leaves ≡ s.leaves (fsts stmts.now) }
    ensures few { result.len ≤ 4 * fs_nodes (fsts stmts.now) }
{
    let mut len = 0;
    let mut leaves = false;
    'row: for stmt in stmts {
        let one = stmt_extent(stmt);
        len += one.len;
        leaves = leaves || one.leaves;
    }
    Extent { len, leaves }
}
