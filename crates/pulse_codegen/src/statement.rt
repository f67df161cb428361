// The code of statements.

ghost use Rattle.std.specs.Prelude.{◌≡◌, ◌≤◌, ◌<◌, ◌+◌, ◌*◌, ◌^◌, ◌++◌, length, OnOk};
ghost use Rattle.iter_unroll.specs.Flat.{choose, end};
ghost use Rattle.iter_unroll.specs.Limits.{fx_nodes, fs_nodes};
ghost use Rattle.iter_unroll.specs.Tree.{fx, fst, fsts};
ghost use Rattle.flat_code.specs.Statements.{sts_code};
ghost use Rattle.pulse_codegen.specs.Extends.{Puts};
ghost use Rattle.pulse_codegen.specs.Shallow.{IsShallow};

use crate::extent::extent_of;
use crate::lengths::measure;
use crate::value::{Code, bytes, emit_branch, emit_operand, emit_value};
use iter_unroll::{FlatExpr, FlatStmt};
use pulse_base::Memory;
use pulse_isa::Instr;

/// The first register that no slot has.
const FIRST: u8 = 8;

// The branches of an `if`, behind the jump by its test.
#[cycle(statement)]
fn emit_if(
    code: &mut Code,
    test: &FlatExpr,
    yes: &[FlatStmt],
    no: &[FlatStmt],
) -> Result<(), Memory>
    requires shallow { IsShallow (choose (fx test.now) (fsts yes.now) (fsts no.now) end) }
    requires few { 1 + fx_nodes (fx test.now) + fs_nodes (fsts yes.now) + fs_nodes (fsts no.now) ≤ 2000 }
    requires room { length code.old + 4 * (1 + fx_nodes (fx test.now) + fs_nodes (fsts yes.now) + fs_nodes (fsts no.now)) < 2 ^ 20 }
    ensures { OnOk result (Puts code.old (choose (fx test.now) (fsts yes.now) (fsts no.now)) code.new) }
{
    let first = extent_of(yes);
    let other = extent_of(no);
    let first_at = code.len() as u32 + measure(test).branch;
    let else_at = first_at + first.len + first.jumps_over(other.len);
    emit_branch(code, test, false, else_at, FIRST)?;
    emit_statements(code, yes)?;
    first.emit_over(code, other.len, else_at + other.len)?;
    emit_statements(code, no)
}

#[cycle(statement)]
fn emit_statement(code: &mut Code, stmt: &FlatStmt) -> Result<(), Memory>
    requires shallow { IsShallow (fst stmt.now end) }
    requires few { fs_nodes (fst stmt.now end) ≤ 2000 }
    requires room { length code.old + 4 * fs_nodes (fst stmt.now end) < 2 ^ 20 }
    ensures { OnOk result (Puts code.old (fst stmt.now) code.new) }
{
    match stmt {
        FlatStmt::Local { slot, value } => emit_value(code, value, *slot, FIRST),
        FlatStmt::Pad { target, value } => {
            let a = emit_operand(code, value, FIRST)?;
            code.push(Instr::PutP {
                a,
                w: bytes(target.width),
                off: u32::from(target.off),
            })
        }
        FlatStmt::Cur { target, value } => {
            let a = emit_operand(code, value, FIRST)?;
            code.push(Instr::PutW {
                a,
                w: bytes(target.width),
                off: u32::from(target.off),
            })
        }
        FlatStmt::If { test, yes, no } => emit_if(code, test, yes.as_slice(), no.as_slice()),
        FlatStmt::Done => code.push(Instr::Return),
        FlatStmt::Go { to } => {
            let a = emit_operand(code, to, FIRST)?;
            code.push(Instr::NextIter { a })
        }
    }
}

/// The code of statements in a row, behind what is there.
#[cycle(statement)]
pub(crate) fn emit_statements(code: &mut Code, stmts: &[FlatStmt]) -> Result<(), Memory>
    requires shallow { IsShallow (fsts stmts.now) }
    requires few { fs_nodes (fsts stmts.now) ≤ 2000 }
    requires room { length code.old + 4 * fs_nodes (fsts stmts.now) < 2 ^ 20 }
    ensures { OnOk result (code.new ≡ code.old ++ sts_code (fsts stmts.now) (length code.old)) }
{
    'row: for stmt in stmts {
        emit_statement(code, stmt)?;
    }
    Ok(())
}
