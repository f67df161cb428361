// The faults of indices.

ghost use Rattle.std.specs.Prelude.{◌≡◌, ◌++◌, ◌∷◌, [], OnOk};
ghost use Rattle.iter_syntax.specs.Tree.{Sts, ex, st, sts, block, used};
ghost use Rattle.iter_check.specs.Scope as sc;
ghost use Rattle.iter_check.specs.Indices as ix;
ghost use Rattle.iter_check.specs.First.Least.{least};
ghost use Rattle.iter_check.specs.First.Expr.{ground_of};
ghost use Rattle.iter_check.specs.First.Index as fi;

use crate::best::note;
use crate::expr::Site;
use crate::kind::{CheckKind, Fault};
use crate::loops::{Loop, Loops, enter, how_many, in_some_turn};
use crate::scope::declared_field;
use iter_syntax::{Block, Expr, FieldDecl, FieldUse, Stmt, Word};
use pulse_base::Memory;
use std::alloc::Global;

fn array_len(fields: &[FieldDecl], name: &Word) -> u64
    ensures { result ≡ ix.array_len (sc.declared_field fields.now name.now) }
{
    match declared_field(fields, name) {
        None => 0,
        Some(field) => match field.len {
            None => 0,
            Some(len) => len,
        },
    }
}

// Notes an index that is not below its array's length in some turn of the loops around.
fn note_index(
    alloc: Global,
    best: &mut Option<Fault>,
    fields: &[FieldDecl],
    loops: &[Loop],
    name: &Word,
    index: &Expr,
) -> Result<(), Memory>
    ensures { OnOk result (best.new ≡ least best.old (ix.index_fault fields.now loops.now name.now (ex index.now))) }
{
    let mut turn = Vec::new(alloc);
    let bad = in_some_turn(loops, &mut turn, index, array_len(fields, name))?;
    note(best, CheckKind::Index, name.place, bad);
    Ok(())
}

// The faults of the indices in an expression.
#[cycle(indices)]
fn index_expr(
    alloc: Global,
    best: &mut Option<Fault>,
    site: &Site,
    loops: &[Loop],
    expr: &Expr,
) -> Result<(), Memory>
    ensures { OnOk result (best.new ≡ fi.first_expr_index (ground_of site.now) loops.now (ex expr.now) best.old) }
{
    match expr {
        Expr::Num { .. } | Expr::Null { .. } | Expr::Name { .. } | Expr::Cur { .. } => Ok(()),
        Expr::CurField { field, .. } => {
            index_use(alloc, best, site, site.record_fields, loops, field)?;
            Ok(())
        }
        Expr::PadField { field, .. } => {
            index_use(alloc, best, site, site.pad_fields, loops, field)?;
            Ok(())
        }
        Expr::Not { of, .. } | Expr::Flip { of, .. } => {
            index_expr(alloc, best, site, loops, of.get())?;
            Ok(())
        }
        Expr::Binary { left, right, .. } => {
            index_expr(alloc, best, site, loops, left.get())?;
            index_expr(alloc, best, site, loops, right.get())?;
            Ok(())
        }
        Expr::At { base, offset, .. } => {
            index_expr(alloc, best, site, loops, base.get())?;
            index_expr(alloc, best, site, loops, offset.get())?;
            Ok(())
        }
    }
}

#[cycle(indices)]
fn index_use(
    alloc: Global,
    best: &mut Option<Fault>,
    site: &Site,
    fields: &[FieldDecl],
    loops: &[Loop],
    field: &FieldUse,
) -> Result<(), Memory>
    ensures { OnOk result (best.new ≡ fi.first_use_index (ground_of site.now) fields.now loops.now (used field.now).0 (used field.now).1 best.old) }
{
    match &field.index {
        None => Ok(()),
        Some(index) => {
            note_index(alloc, best, fields, loops, &field.name, index.get())?;
            index_expr(alloc, best, site, loops, index.get())?;
            Ok(())
        }
    }
}

// The faults of the indices of a store.
fn index_store(
    alloc: Global,
    best: &mut Option<Fault>,
    site: &Site,
    fields: &[FieldDecl],
    loops: &Loops,
    target: &FieldUse,
    value: &Expr,
) -> Result<(), Memory>
    ensures { OnOk result (best.new ≡ fi.first_expr_index (ground_of site.now) loops.now.items (ex value.now) (fi.first_use_index (ground_of site.now) fields.now loops.now.items (used target.now).0 (used target.now).1 best.old)) }
{
    index_use(alloc, best, site, fields, loops.as_slice(), target)?;
    index_expr(alloc, best, site, loops.as_slice(), value)?;
    Ok(())
}

#[cycle(rows)]
#[tactic(auto, using(crate::proofs::IndexLaws::pad_index_is, crate::proofs::IndexLaws::cur_index_is))]
fn index_stmt(
    alloc: Global,
    best: &mut Option<Fault>,
    site: &Site,
    loops: &mut Loops,
    s: &Stmt,
) -> Result<(), Memory>
    ensures faults { OnOk result ((rest : Sts) → fi.first_indices (ground_of site.now) loops.old.items (st s.now rest) best.old ≡ fi.first_indices (ground_of site.now) loops.old.items rest best.new) }
    ensures same { OnOk result (loops.new.items ≡ loops.old.items) }
{
    match s {
        Stmt::Let { value, .. } | Stmt::Set { value, .. } | Stmt::Go { to: value, .. } => {
            index_expr(alloc, best, site, loops.as_slice(), value)?;
        }
        Stmt::SetPad { target, value, .. } => {
            index_store(alloc, best, site, site.pad_fields, loops, target, value)?;
        }
        Stmt::SetCur { target, value, .. } => {
            index_store(alloc, best, site, site.record_fields, loops, target, value)?;
        }
        Stmt::If { test, yes, no, .. } => {
            index_expr(alloc, best, site, loops.as_slice(), test)?;
            index_block(alloc, best, site, loops, yes)?;
            if let Some(other) = no {
                index_block(alloc, best, site, loops, other)?;
            }
        }
        Stmt::For {
            name,
            first,
            past,
            body,
            ..
        } => index_loop(alloc, best, site, loops, name, *first, *past, body)?,
        Stmt::Done { .. } => {}
    }
    Ok(())
}

/// The faults of the indices in a block.
#[cycle(rows)]
pub(crate) fn index_block(
    alloc: Global,
    best: &mut Option<Fault>,
    site: &Site,
    loops: &mut Loops,
    body: &Block,
) -> Result<(), Memory>
    ensures faults { OnOk result (best.new ≡ fi.first_indices (ground_of site.now) loops.old.items (block body.now) best.old) }
    ensures same { OnOk result (loops.new.items ≡ loops.old.items) }
{
    index_row(alloc, best, site, loops, body.stmts.as_slice())?;
    Ok(())
}

#[cycle(rows)]
fn index_loop(
    alloc: Global,
    best: &mut Option<Fault>,
    site: &Site,
    loops: &mut Loops,
    name: &Word,
    first: u64,
    past: u64,
    body: &Block,
) -> Result<(), Memory>
    ensures faults { OnOk result (best.new ≡ fi.first_indices (ground_of site.now) (loops.old.items ++ ix.loop_of name.now first past ∷ []) (block body.now) best.old) }
    ensures same { OnOk result (loops.new.items ≡ loops.old.items) }
{
    let around = how_many(loops);
    enter(alloc, loops, name, first, past)?;
    index_block(alloc, best, site, loops, body)?;
    loops.truncate(around);
    Ok(())
}

#[cycle(rows)]
fn index_row(
    alloc: Global,
    best: &mut Option<Fault>,
    site: &Site,
    loops: &mut Loops,
    stmts: &[Stmt],
) -> Result<(), Memory>
    ensures faults { OnOk result (best.new ≡ fi.first_indices (ground_of site.now) loops.old.items (sts stmts.now) best.old) }
    ensures same { OnOk result (loops.new.items ≡ loops.old.items) }
{
    'row: for s in stmts {
        index_stmt(alloc, best, site, loops, s)?;
    }
    Ok(())
}
