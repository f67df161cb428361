// Blocks, loops and rows of statements.

ghost use Rattle.std.specs.Prelude.{◌∷◌, OnOk};
ghost use Rattle.iter_syntax.specs.declared.tree.Place.{Place};
ghost use Rattle.iter_syntax.specs.Tree as s;
ghost use Rattle.iter_syntax.specs.Tree.{ex, st, sts, block, branch};
ghost use Rattle.iter_check.specs.Layout.{text};
ghost use Rattle.iter_unroll.specs.declared.scope.Meant.TheVariants as m;
ghost use Rattle.iter_unroll.specs.Tree.{fsts};
ghost use Rattle.iter_unroll.specs.unrolling.Flattened as t;
ghost use Rattle.iter_unroll.specs.unrolling.Views.{env_of, shape_of, Flattens, Small};
ghost use Rattle.iter_unroll.specs.unrolling.Steps.{One, Steps, Rowed, Grew, SameScope, flat_in, option_block};

use crate::expr::{Shape, unroll_expr};
use crate::refused::Refused;
use crate::scope::{Meant, Scope};
use crate::stmt::{add, flat_cur, flat_go, flat_let, flat_pad, flat_set};
use crate::tree::{FlatBlock, FlatStmt};
use iter_syntax::{Block, Expr, Stmt, Word};
use pulse_base::Listed;
use std::alloc::Global;

#[cycle(unroll)]
fn flat_if<'a>(
    alloc: Global,
    shape: &Shape,
    scope: &mut Scope<'a>,
    test: &Expr,
    yes: &'a Block,
    no: &'a Option<Block>,
) -> Result<FlatStmt, Refused>
    requires shape { Small (shape_of shape.now) }
    ensures one { (p : Place) → One (shape_of shape.now) (λ rest. branch p (ex test.now) (block yes.now) (option_block no.now) rest) scope.old result scope.new }
    ensures same { OnOk result (SameScope scope.old scope.new) }
{
    let test = unroll_expr(alloc, shape, &scope.entries, test)?;
    let yes = unroll_block(alloc, shape, scope, yes)?;
    match no {
        None => Ok(FlatStmt::If {
            test,
            yes,
            no: Listed::new(alloc),
        }),
        Some(other) => {
            let no = unroll_block(alloc, shape, scope, other)?;
            Ok(FlatStmt::If { test, yes, no })
        }
    }
}

#[cycle(unroll)]
fn unroll_stmt<'a>(
    alloc: Global,
    shape: &Shape,
    scope: &mut Scope<'a>,
    out: &mut FlatBlock,
    s: &'a Stmt,
) -> Result<(), Refused>
    requires shape { Small (shape_of shape.now) }
    ensures steps { Steps (shape_of shape.now) (st s.now) scope.old out.old result scope.new out.new }
    ensures grows { OnOk result (Grew scope.old scope.new) }
{
    match s {
        Stmt::Let { name, value, .. } => add(out, flat_let(alloc, shape, scope, name, value)),
        Stmt::Set { name, value, .. } => {
            add(out, flat_set(alloc, shape, &scope.entries, name, value))
        }
        Stmt::SetPad { target, value, .. } => {
            add(out, flat_pad(alloc, shape, &scope.entries, target, value))
        }
        Stmt::SetCur { target, value, .. } => {
            add(out, flat_cur(alloc, shape, &scope.entries, target, value))
        }
        Stmt::If { test, yes, no, .. } => add(out, flat_if(alloc, shape, scope, test, yes, no)),
        Stmt::For {
            name,
            first,
            past,
            body,
            ..
        } => unroll_loop(alloc, shape, scope, out, name, *first, *past, body),
        Stmt::Done { .. } => add(out, Ok(FlatStmt::Done)),
        Stmt::Go { to, .. } => add(out, flat_go(alloc, shape, &scope.entries, to)),
    }
}

#[cycle(unroll)]
pub fn unroll_block<'a>(
    alloc: Global,
    shape: &Shape,
    scope: &mut Scope<'a>,
    body: &'a Block,
) -> Result<FlatBlock, Refused>
    requires shape { Small (shape_of shape.now) }
    ensures block { Flattens fsts result (flat_in (shape_of shape.now) scope.old (block body.now)) }
    ensures same { OnOk result (SameScope scope.old scope.new) }
{
    let len = scope.len();
    let lets = scope.lets;
    let mut out = Listed::new(alloc);
    match unroll_row(alloc, shape, scope, &mut out, body.stmts.as_slice()) {
        Ok(()) => {
            scope.leave(len, lets);
            Ok(out)
        }
        Err(e) => Err(e),
    }
}

// One turn of a loop.
#[cycle(unroll)]
fn unroll_turn<'a>(
    alloc: Global,
    shape: &Shape,
    scope: &mut Scope<'a>,
    out: &mut FlatBlock,
    name: &'a Word,
    i: u64,
    body: &'a Block,
) -> Result<(), Refused>
    requires shape { Small (shape_of shape.now) }
    ensures row { Rowed out.old (t.flat_of (shape_of shape.now) scope.old.lets ((text name.now, m.Number i) ∷ env_of scope.old.entries.items) (block body.now)) result out.new }
    ensures same { OnOk result (SameScope scope.old scope.new) }
{
    let len = scope.len();
    let lets = scope.lets;
    match scope.declare(name, Meant::Number(i)) {
        Ok(()) => {
            match unroll_row(alloc, shape, scope, out, body.stmts.as_slice()) {
                Ok(()) => {
                    scope.leave(len, lets);
                    Ok(())
                }
                Err(e) => Err(e),
            }
        }
        Err(_) => Err(Refused::Memory),
    }
}

#[cycle(unroll)]
fn unroll_loop<'a>(
    alloc: Global,
    shape: &Shape,
    scope: &mut Scope<'a>,
    out: &mut FlatBlock,
    name: &'a Word,
    first: u64,
    past: u64,
    body: &'a Block,
) -> Result<(), Refused>
    requires shape { Small (shape_of shape.now) }
    ensures steps { (p : Place) → Steps (shape_of shape.now) (λ rest. s.loop p name.now first past (block body.now) rest) scope.old out.old result scope.new out.new }
    ensures same { OnOk result (SameScope scope.old scope.new) }
{
    let mut i = first;
    'turns: while i < past {
        match unroll_turn(alloc, shape, scope, out, name, i, body) {
            Ok(()) => {}
            Err(e) => return Err(e),
        }
        i += 1;
    }
    Ok(())
}

/// The straight code of statements, behind what is there.
#[cycle(unroll)]
pub fn unroll_row<'a>(
    alloc: Global,
    shape: &Shape,
    scope: &mut Scope<'a>,
    out: &mut FlatBlock,
    stmts: &'a [Stmt],
) -> Result<(), Refused>
    requires shape { Small (shape_of shape.now) }
    ensures row { Rowed out.old (flat_in (shape_of shape.now) scope.old (sts stmts.now)) result out.new }
    ensures grows { OnOk result (Grew scope.old scope.new) }
{
    'row: for s in stmts {
        unroll_stmt(alloc, shape, scope, out, s)?;
    }
    Ok(())
}
