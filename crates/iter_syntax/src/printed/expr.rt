// Expressions, with parentheses only where the grouping needs them.

#![tactic(auto, using(crate::proofs::Printing::all_append))]

ghost use Rattle.std.specs.Prelude.{◌≡◌, OnOk};
ghost use Rattle.iter_syntax.specs.Tree.{ex, used};
ghost use Rattle.iter_syntax.specs.Printed as P;
ghost use Rattle.iter_syntax.specs.Steps.Printing.{add, add_all, use_kinds};

use super::text::{put_keyword, put_name, put_number, put_symbol};
use crate::token::{Keyword, Symbol};
use crate::tree::{Expr, FieldUse};
use pulse_base::{Bytes, Memory};

/// The level of the comparisons, which do not stand in a row.
const COMPARISON: usize = 5;

/// The loosest level that may stand at the left of an operator without parentheses: operators of one level
/// group to the left.
fn left_level(level: usize) -> usize
    ensures { result ≡ P.left_level level }
{
    if level == COMPARISON {
        COMPARISON - 1
    } else {
        level
    }
}

/// The level of an expression: unary expressions and atoms have 0.
fn level_of(e: &Expr) -> usize
    ensures { result ≡ P.level_of (ex e.now) }
{
    match e {
        Expr::Binary { op, .. } => op.level(),
        _ => 0,
    }
}

/// An expression without parentheses around it.
#[cycle(expr)]
pub(super) fn put_expr(text: &mut Bytes, e: &Expr) -> Result<(), Memory>
    ensures { OnOk result (text.new ≡ add_all (P.expr_kinds (ex e.now)) text.old) }
{
    match e {
        Expr::Num { value, .. } => put_number(text, *value),
        Expr::Null { .. } => put_keyword(text, Keyword::Null),
        Expr::Name { name } => put_name(text, name),
        Expr::Cur { .. } => put_keyword(text, Keyword::Cur),
        Expr::CurField { field, .. } => put_field(text, Keyword::Cur, field),
        Expr::PadField { field, .. } => put_field(text, Keyword::Pad, field),
        Expr::Not { of, .. } => put_unary(text, Symbol::Bang, of.get()),
        Expr::Flip { of, .. } => put_unary(text, Symbol::Tilde, of.get()),
        Expr::Binary {
            op,
            left,
            right,
            ..
        } => {
            let level = op.level();
            put_operand(text, left.get(), left_level(level))?;
            put_symbol(text, op.symbol())?;
            put_operand(text, right.get(), level - 1)?;
            Ok(())
        }
        Expr::At { base, offset, .. } => {
            put_keyword(text, Keyword::At)?;
            put_symbol(text, Symbol::OpenRound)?;
            put_expr(text, base.get())?;
            put_symbol(text, Symbol::Comma)?;
            put_expr(text, offset.get())?;
            put_symbol(text, Symbol::CloseRound)?;
            Ok(())
        }
    }
}

/// `!` or `~`, and its operand.
#[cycle(expr)]
fn put_unary(text: &mut Bytes, sign: Symbol, of: &Expr) -> Result<(), Memory>
    ensures { OnOk result (text.new ≡ add_all (P.in_parentheses 0 (P.level_of (ex of.now)) (P.expr_kinds (ex of.now))) (add (P.sym sign) text.old)) }
{
    put_symbol(text, sign)?;
    put_operand(text, of, 0)?;
    Ok(())
}

/// `cur` or `pad`, and a field of it.
#[cycle(expr)]
pub(super) fn put_field(text: &mut Bytes, owner: Keyword, field: &FieldUse) -> Result<(), Memory>
    ensures { OnOk result (text.new ≡ add_all (use_kinds (used field.now)) (add (P.sym Symbol.Dot) (add (P.key owner) text.old))) }
{
    put_keyword(text, owner)?;
    put_symbol(text, Symbol::Dot)?;
    put_name(text, &field.name)?;
    match &field.index {
        None => Ok(()),
        Some(index) => {
            put_symbol(text, Symbol::OpenSquare)?;
            put_expr(text, index.get())?;
            put_symbol(text, Symbol::CloseSquare)?;
            Ok(())
        }
    }
}

/// An expression where none looser than a level may stand without parentheses.
#[cycle(expr)]
fn put_operand(text: &mut Bytes, e: &Expr, loosest: usize) -> Result<(), Memory>
    ensures { OnOk result (text.new ≡ add_all (P.in_parentheses loosest (P.level_of (ex e.now)) (P.expr_kinds (ex e.now))) text.old) }
{
    if loosest < level_of(e) {
        put_symbol(text, Symbol::OpenRound)?;
        put_expr(text, e)?;
        put_symbol(text, Symbol::CloseRound)?;
        Ok(())
    } else {
        put_expr(text, e)?;
        Ok(())
    }
}
