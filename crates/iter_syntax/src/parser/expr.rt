// Expressions: the binary levels, unary operators, and what stands between them.

ghost use Rattle.std.specs.Prelude.{◌≡◌, ◌≤◌, ◌<◌, ◌+◌, ◌-◌, drop, length, is_ok, IfOk, IfErr};
ghost use Rattle.iter_syntax.specs.Kinds.{kind_operator, is_operator};
ghost use Rattle.iter_syntax.specs.Form.{maybe};
ghost use Rattle.iter_syntax.specs.Steps.Parsers.{at_first};
ghost use Rattle.iter_syntax.specs.Productions as P;
ghost use Rattle.iter_syntax.specs.Steps.Reads.{Finds, Reads, comparison_rest, chain_rest};

use super::reader::{Class, Refused, boxed, expect, read_number, read_word, stands};
use crate::token::{Keyword, Symbol, Token, TokenKind};
use crate::tree::{BinaryOp, Expr, FieldUse, Place};
use sqlite_items::Boxed;
use std::alloc::Global;

/// The level of `||`, the loosest; level 0 is a unary expression.
const LOOSEST: usize = 7;

/// The level of the comparisons, of which one may stand.
const COMPARISON: usize = 5;

/// The operator that a token is.
fn operator(kind: &TokenKind) -> Option<BinaryOp>
    ensures { result ≡ kind_operator kind.now }
{
    match kind {
        TokenKind::Symbol(symbol) => BinaryOp::of_symbol(*symbol),
        _ => None,
    }
}

/// The operator of this level that stands here, with its place.
fn read_operator(
    tokens: &[Token],
    at: usize,
    level: usize,
) -> Result<((Place, BinaryOp), usize), Refused>
    requires { at ≤ length tokens.now }
    ensures finds { Finds (P.operator level).parse tokens.now at (at + 1) result }
    ensures first { is_ok result ≡ at_first (is_operator level) (drop at tokens.now) }
{
    if at >= tokens.len() {
        return Err(Refused::At(at));
    }
    match operator(&tokens[at].kind) {
        Some(op) => {
            if op.level() == level {
                Ok(((tokens[at].place, op), at + 1))
            } else {
                Err(Refused::At(at))
            }
        }
        None => Err(Refused::At(at)),
    }
}

fn binary(
    alloc: Global,
    operator: (Place, BinaryOp),
    left: Expr,
    right: Expr,
) -> Result<Expr, Refused>
    ensures whole { IfOk result (λ e. e ≡ Expr.Binary operator.0 operator.1 left right) }
    ensures cause { IfErr result (λ e. e ≡ Refused.Memory) }
{
    let (op_place, op) = operator;
    let left = boxed(alloc, left)?;
    let right = boxed(alloc, right)?;
    Ok(Expr::Binary {
        op_place,
        op,
        left,
        right,
    })
}

/// An expression; `depth` bounds its nesting.
pub(crate) fn read_expr(
    alloc: Global,
    tokens: &[Token],
    at: usize,
    depth: usize,
) -> Result<(Expr, usize), Refused>
    requires { at ≤ length tokens.now }
    ensures { Reads (P.expr depth).parse tokens.now at (at + 1) result }
{
    read_level(alloc, tokens, at, LOOSEST, depth)
}

/// Operands of the level below with the operators of this level between them, grouped to the left.
#[cycle(expr)]
fn read_level(
    alloc: Global,
    tokens: &[Token],
    at: usize,
    level: usize,
    depth: usize,
) -> Result<(Expr, usize), Refused>
    requires { at ≤ length tokens.now }
    ensures { Reads (P.level level (P.unary depth)).parse tokens.now at (at + 1) result }
{
    if level == 0 {
        return read_unary(alloc, tokens, at, depth);
    }
    match read_level(alloc, tokens, at, level - 1, depth) {
        Ok((first, at)) => {
            if level == COMPARISON {
                read_comparison(alloc, tokens, at, first, depth)
            } else {
                read_row(alloc, tokens, at, first, level, depth)
            }
        }
        Err(refused) => Err(refused),
    }
}

/// What may follow the first operand of a comparison.
#[cycle(expr)]
fn read_comparison(
    alloc: Global,
    tokens: &[Token],
    at: usize,
    first: Expr,
    depth: usize,
) -> Result<(Expr, usize), Refused>
    requires { at ≤ length tokens.now }
    ensures { Reads (comparison_rest first (P.level 4 (P.unary depth))) tokens.now at at result }
{
    if let Ok((operator, at)) = read_operator(tokens, at, COMPARISON) {
        let (right, at) = read_level(alloc, tokens, at, COMPARISON - 1, depth)?;
        let whole = binary(alloc, operator, first, right)?;
        Ok((whole, at))
    } else {
        Ok((first, at))
    }
}

/// The operators and operands that follow the first operand of a level.
#[cycle(expr)]
fn read_row(
    alloc: Global,
    tokens: &[Token],
    at: usize,
    first: Expr,
    level: usize,
    depth: usize,
) -> Result<(Expr, usize), Refused>
    requires at { at ≤ length tokens.now }
    requires level { 1 ≤ level }
    ensures { Reads (chain_rest level first (P.level (level - 1) (P.unary depth))) tokens.now at at result }
{
    let mut left = first;
    let mut at = at;
    'row: while let Ok((operator, next)) = read_operator(tokens, at, level) {
        match read_level(alloc, tokens, next, level - 1, depth) {
            Ok((right, next)) => {
                left = binary(alloc, operator, left, right)?;
                at = next;
            }
            Err(refused) => return Err(refused),
        }
    }
    Ok((left, at))
}

/// A unary expression of at most this depth.
#[cycle(expr)]
fn read_unary(
    alloc: Global,
    tokens: &[Token],
    at: usize,
    depth: usize,
) -> Result<(Expr, usize), Refused>
    requires { at ≤ length tokens.now }
    ensures { Reads (P.unary depth).parse tokens.now at (at + 1) result }
{
    if depth == 0 {
        return Err(Refused::At(at));
    }
    read_operand(alloc, tokens, at, depth - 1)
}

/// A unary expression whose parts have at most this depth.
#[cycle(expr)]
fn read_operand(
    alloc: Global,
    tokens: &[Token],
    at: usize,
    depth: usize,
) -> Result<(Expr, usize), Refused>
    requires { at ≤ length tokens.now }
    ensures { Reads (P.unary_over (P.unary depth)).parse tokens.now at (at + 1) result }
{
    if let Ok((place, at)) = expect(tokens, at, Class::Symbol(Symbol::Bang)) {
        let (of, at) = read_unary(alloc, tokens, at, depth)?;
        let of = boxed(alloc, of)?;
        Ok((Expr::Not { place, of }, at))
    } else if let Ok((place, at)) = expect(tokens, at, Class::Symbol(Symbol::Tilde)) {
        let (of, at) = read_unary(alloc, tokens, at, depth)?;
        let of = boxed(alloc, of)?;
        Ok((Expr::Flip { place, of }, at))
    } else {
        read_atom(alloc, tokens, at, depth)
    }
}

#[cycle(expr)]
fn read_atom(
    alloc: Global,
    tokens: &[Token],
    at: usize,
    depth: usize,
) -> Result<(Expr, usize), Refused>
    requires { at ≤ length tokens.now }
    ensures { Reads (P.atom_over (P.expr depth)).parse tokens.now at (at + 1) result }
{
    if stands(tokens, at, Class::Number) {
        let ((place, value), at) = read_number(tokens, at)?;
        Ok((Expr::Num { place, value }, at))
    } else if let Ok((place, at)) = expect(tokens, at, Class::Keyword(Keyword::Null)) {
        Ok((Expr::Null { place }, at))
    } else if stands(tokens, at, Class::Name) {
        let (name, at) = read_word(tokens, at)?;
        Ok((Expr::Name { name }, at))
    } else if stands(tokens, at, Class::Keyword(Keyword::Cur)) {
        read_cur(alloc, tokens, at, depth)
    } else if stands(tokens, at, Class::Keyword(Keyword::Pad)) {
        read_pad(alloc, tokens, at, depth)
    } else if stands(tokens, at, Class::Keyword(Keyword::At)) {
        read_at(alloc, tokens, at, depth)
    } else {
        let (_, at) = expect(tokens, at, Class::Symbol(Symbol::OpenRound))?;
        let (inner, at) = read_level(alloc, tokens, at, LOOSEST, depth)?;
        let (_, at) = expect(tokens, at, Class::Symbol(Symbol::CloseRound))?;
        Ok((inner, at))
    }
}

/// `cur`, or a field of the record.
#[cycle(expr)]
fn read_cur(
    alloc: Global,
    tokens: &[Token],
    at: usize,
    depth: usize,
) -> Result<(Expr, usize), Refused>
    requires { at ≤ length tokens.now }
    ensures { Reads (P.cur_over (P.expr depth)).parse tokens.now at (at + 1) result }
{
    let (place, at) = expect(tokens, at, Class::Keyword(Keyword::Cur))?;
    if let Ok((_, at)) = expect(tokens, at, Class::Symbol(Symbol::Dot)) {
        let (field, at) = read_use(alloc, tokens, at, depth)?;
        Ok((Expr::CurField { place, field }, at))
    } else {
        Ok((Expr::Cur { place }, at))
    }
}

/// A field of the pad.
#[cycle(expr)]
fn read_pad(
    alloc: Global,
    tokens: &[Token],
    at: usize,
    depth: usize,
) -> Result<(Expr, usize), Refused>
    requires { at ≤ length tokens.now }
    ensures { Reads (P.pad_over (P.expr depth)).parse tokens.now at (at + 1) result }
{
    let (place, at) = expect(tokens, at, Class::Keyword(Keyword::Pad))?;
    let (_, at) = expect(tokens, at, Class::Symbol(Symbol::Dot))?;
    let (field, at) = read_use(alloc, tokens, at, depth)?;
    Ok((Expr::PadField { place, field }, at))
}

/// `at ( base , offset )`.
#[cycle(expr)]
fn read_at(
    alloc: Global,
    tokens: &[Token],
    at: usize,
    depth: usize,
) -> Result<(Expr, usize), Refused>
    requires { at ≤ length tokens.now }
    ensures { Reads (P.at_over (P.expr depth)).parse tokens.now at (at + 1) result }
{
    let (place, at) = expect(tokens, at, Class::Keyword(Keyword::At))?;
    let (_, at) = expect(tokens, at, Class::Symbol(Symbol::OpenRound))?;
    let (base, at) = read_level(alloc, tokens, at, LOOSEST, depth)?;
    let (_, at) = expect(tokens, at, Class::Symbol(Symbol::Comma))?;
    let (offset, at) = read_level(alloc, tokens, at, LOOSEST, depth)?;
    let (_, at) = expect(tokens, at, Class::Symbol(Symbol::CloseRound))?;
    let base = boxed(alloc, base)?;
    let offset = boxed(alloc, offset)?;
    Ok((
        Expr::At {
            place,
            base,
            offset,
        },
        at,
    ))
}

/// The use of a field.
#[cycle(expr)]
pub(crate) fn read_use(
    alloc: Global,
    tokens: &[Token],
    at: usize,
    depth: usize,
) -> Result<(FieldUse, usize), Refused>
    requires { at ≤ length tokens.now }
    ensures { Reads (P.field_use depth).parse tokens.now at (at + 1) result }
{
    let (name, at) = read_word(tokens, at)?;
    let (index, at) = read_index(alloc, tokens, at, depth)?;
    Ok((FieldUse { name, index }, at))
}

/// An index in square brackets, or nothing.
#[cycle(expr)]
fn read_index(
    alloc: Global,
    tokens: &[Token],
    at: usize,
    depth: usize,
) -> Result<(Option<Boxed<Expr>>, usize), Refused>
    requires { at ≤ length tokens.now }
    ensures { Reads (maybe (P.brackets Symbol.OpenSquare (P.expr depth) Symbol.CloseSquare)).parse tokens.now at at result }
{
    if let Ok((_, at)) = expect(tokens, at, Class::Symbol(Symbol::OpenSquare)) {
        let (index, at) = read_level(alloc, tokens, at, LOOSEST, depth)?;
        let (_, at) = expect(tokens, at, Class::Symbol(Symbol::CloseSquare))?;
        let index = boxed(alloc, index)?;
        Ok((Some(index), at))
    } else {
        Ok((None, at))
    }
}
