// Statements and blocks.

#![tactic(auto, using(crate::proofs::Printing::all_append))]

ghost use Rattle.std.specs.Prelude.{◌≡◌, OnOk};
ghost use Rattle.iter_syntax.specs.Tree.{ex, used, st, sts, end};
ghost use Rattle.iter_syntax.specs.Printed as P;
ghost use Rattle.iter_syntax.specs.Steps.Printing.{add, add_all, use_kinds, given, range_kinds};

use super::expr::{put_expr, put_field};
use super::text::{put_keyword, put_name, put_number, put_symbol};
use crate::token::{Keyword, Symbol};
use crate::tree::{Block, Expr, FieldUse, Stmt, Word};
use pulse_base::{Bytes, Memory};

/// `= value ;`
fn put_value(text: &mut Bytes, value: &Expr) -> Result<(), Memory>
    ensures { OnOk result (text.new ≡ add_all (given (ex value.now)) text.old) }
{
    put_symbol(text, Symbol::Assign)?;
    put_expr(text, value)?;
    put_symbol(text, Symbol::Semicolon)
}

/// `name = value ;`
fn put_set(text: &mut Bytes, name: &Word, value: &Expr) -> Result<(), Memory>
    ensures { OnOk result (text.new ≡ add_all (given (ex value.now)) (add (P.word name.now) text.old)) }
{
    put_name(text, name)?;
    put_value(text, value)?;
    Ok(())
}

/// `pad . target = value ;`, or the same of `cur`.
fn put_store(
    text: &mut Bytes,
    owner: Keyword,
    target: &FieldUse,
    value: &Expr,
) -> Result<(), Memory>
    ensures { OnOk result (text.new ≡ add_all (given (ex value.now)) (add_all (use_kinds (used target.now)) (add (P.sym Symbol.Dot) (add (P.key owner) text.old)))) }
{
    put_field(text, owner, target)?;
    put_value(text, value)?;
    Ok(())
}

/// `done ;`
fn put_done(text: &mut Bytes) -> Result<(), Memory>
    ensures { OnOk result (text.new ≡ add (P.sym Symbol.Semicolon) (add (P.key Keyword.Done) text.old)) }
{
    put_keyword(text, Keyword::Done)?;
    put_symbol(text, Symbol::Semicolon)?;
    Ok(())
}

/// `go to ;`
fn put_go(text: &mut Bytes, to: &Expr) -> Result<(), Memory>
    ensures { OnOk result (text.new ≡ add (P.sym Symbol.Semicolon) (add_all (P.expr_kinds (ex to.now)) (add (P.key Keyword.Go) text.old))) }
{
    put_keyword(text, Keyword::Go)?;
    put_expr(text, to)?;
    put_symbol(text, Symbol::Semicolon)?;
    Ok(())
}

/// `for name in first .. past`
fn put_range(text: &mut Bytes, name: &Word, first: u64, past: u64) -> Result<(), Memory>
    ensures { OnOk result (text.new ≡ add_all (range_kinds name.now first past) text.old) }
{
    put_keyword(text, Keyword::For)?;
    put_name(text, name)?;
    put_keyword(text, Keyword::In)?;
    put_number(text, first)?;
    put_symbol(text, Symbol::Range)?;
    put_number(text, past)?;
    Ok(())
}

#[cycle(stmt)]
fn put_stmt(text: &mut Bytes, s: &Stmt) -> Result<(), Memory>
    ensures { OnOk result (text.new ≡ add_all (P.stmt_kinds (st s.now end)) text.old) }
{
    match s {
        Stmt::Let { name, value, .. } => {
            put_keyword(text, Keyword::Let)?;
            put_set(text, name, value)?;
            Ok(())
        }
        Stmt::Set { name, value, .. } => put_set(text, name, value),
        Stmt::SetPad { target, value, .. } => put_store(text, Keyword::Pad, target, value),
        Stmt::SetCur { target, value, .. } => put_store(text, Keyword::Cur, target, value),
        Stmt::If { test, yes, no, .. } => {
            put_keyword(text, Keyword::If)?;
            put_expr(text, test)?;
            put_block(text, yes)?;
            match no {
                None => Ok(()),
                Some(other) => {
                    put_keyword(text, Keyword::Else)?;
                    put_block(text, other)?;
                    Ok(())
                }
            }
        }
        Stmt::For {
            name,
            first,
            past,
            body,
            ..
        } => {
            put_range(text, name, *first, *past)?;
            put_block(text, body)?;
            Ok(())
        }
        Stmt::Done { .. } => put_done(text),
        Stmt::Go { to, .. } => put_go(text, to),
    }
}

/// `{ statements }`
#[cycle(stmt)]
pub(super) fn put_block(text: &mut Bytes, block: &Block) -> Result<(), Memory>
    ensures { OnOk result (text.new ≡ add_all (P.block_kinds block.now) text.old) }
{
    put_symbol(text, Symbol::OpenBrace)?;
    put_row(text, block.stmts.as_slice())?;
    put_symbol(text, Symbol::CloseBrace)?;
    Ok(())
}

#[cycle(stmt)]
fn put_row(text: &mut Bytes, stmts: &[Stmt]) -> Result<(), Memory>
    ensures { OnOk result (text.new ≡ add_all (P.stmt_kinds (sts stmts.now)) text.old) }
{
    'row: for s in stmts {
        put_stmt(text, s)?;
    }
    Ok(())
}
