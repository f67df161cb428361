// Blocks and statements.

ghost use Rattle.std.specs.Prelude.{◌≡◌, ◌≤◌, ◌<◌, ◌+◌, drop, length, IsTrue};
ghost use Rattle.iter_syntax.specs.Form.{any};
ghost use Rattle.iter_syntax.specs.Steps.Parsers.{at_first};
ghost use Rattle.iter_syntax.specs.Productions as P;
ghost use Rattle.iter_syntax.specs.Steps.Sets;
ghost use Rattle.iter_syntax.specs.Steps.Reads.{Finds, Reads};

use super::expr::{read_expr, read_use};
use super::reader::{Class, Refused, expect, put, read_number, read_word, stands};
use crate::token::{Keyword, Symbol, Token, TokenKind};
use crate::tree::{Block, Expr, FieldUse, Place, Stmt, Stmts};
use pulse_base::Listed;
use std::alloc::Global;

fn begins_stmt(kind: &TokenKind) -> bool
    ensures { result ≡ Sets.kind_begins_stmt kind.now }
{
    match kind {
        TokenKind::Name(_) => true,
        TokenKind::Keyword(keyword) => keyword_begins_stmt(*keyword),
        _ => false,
    }
}

fn keyword_begins_stmt(keyword: Keyword) -> bool
    ensures { result ≡ Sets.keyword_begins_stmt keyword }
{
    match keyword {
        Keyword::Let
        | Keyword::Pad
        | Keyword::Cur
        | Keyword::If
        | Keyword::For
        | Keyword::Done
        | Keyword::Go => true,
        _ => false,
    }
}

/// Whether a statement may begin with the token at a place.
fn stmt_stands(tokens: &[Token], at: usize) -> bool
    requires { at ≤ length tokens.now }
    ensures first { result ≡ at_first Sets.begins_stmt (drop at tokens.now) }
    ensures inside { IsTrue result → at < length tokens.now }
{
    at < tokens.len() && begins_stmt(&tokens[at].kind)
}

/// A block; `depth` bounds the nesting of blocks and of each expression.
#[cycle(stmt)]
pub(crate) fn read_block(
    alloc: Global,
    tokens: &[Token],
    at: usize,
    depth: usize,
) -> Result<(Block, usize), Refused>
    requires { at ≤ length tokens.now }
    ensures { Reads (P.block depth).parse tokens.now at (at + 1) result }
{
    if depth == 0 {
        return Err(Refused::At(at));
    }
    read_braces(alloc, tokens, at, depth - 1)
}

/// A block whose parts have at most this depth.
#[cycle(stmt)]
fn read_braces(
    alloc: Global,
    tokens: &[Token],
    at: usize,
    depth: usize,
) -> Result<(Block, usize), Refused>
    requires { at ≤ length tokens.now }
    ensures { Reads (P.block_over (P.expr depth) (P.block depth)).parse tokens.now at (at + 1) result }
{
    let (place, at) = expect(tokens, at, Class::Symbol(Symbol::OpenBrace))?;
    let (stmts, at) = read_stmts(alloc, tokens, at, depth)?;
    let (close, at) = expect(tokens, at, Class::Symbol(Symbol::CloseBrace))?;
    Ok((
        Block {
            place,
            stmts,
            close,
        },
        at,
    ))
}

/// Statements as long as one begins.
#[cycle(stmt)]
fn read_stmts(
    alloc: Global,
    tokens: &[Token],
    at: usize,
    depth: usize,
) -> Result<(Stmts, usize), Refused>
    requires { at ≤ length tokens.now }
    ensures { Reads (any (P.stmt depth)).parse tokens.now at at result }
{
    let mut found = Listed::new(alloc);
    let mut at = at;
    'row: while stmt_stands(tokens, at) {
        match read_stmt(alloc, tokens, at, depth) {
            Ok((stmt, next)) => {
                put(&mut found, stmt)?;
                at = next;
            }
            Err(refused) => return Err(refused),
        }
    }
    Ok((found, at))
}

/// One statement.
#[cycle(stmt)]
fn read_stmt(
    alloc: Global,
    tokens: &[Token],
    at: usize,
    depth: usize,
) -> Result<(Stmt, usize), Refused>
    requires { at ≤ length tokens.now }
    ensures { Reads (P.stmt depth).parse tokens.now at (at + 1) result }
{
    if stands(tokens, at, Class::Keyword(Keyword::Let)) {
        read_let(alloc, tokens, at, depth)
    } else if stands(tokens, at, Class::Name) {
        read_set(alloc, tokens, at, depth)
    } else if stands(tokens, at, Class::Keyword(Keyword::Pad)) {
        let ((place, target, value), at) = read_target(alloc, tokens, at, Keyword::Pad, depth)?;
        Ok((
            Stmt::SetPad {
                place,
                target,
                value,
            },
            at,
        ))
    } else if stands(tokens, at, Class::Keyword(Keyword::Cur)) {
        let ((place, target, value), at) = read_target(alloc, tokens, at, Keyword::Cur, depth)?;
        Ok((
            Stmt::SetCur {
                place,
                target,
                value,
            },
            at,
        ))
    } else if stands(tokens, at, Class::Keyword(Keyword::If)) {
        read_if(alloc, tokens, at, depth)
    } else if stands(tokens, at, Class::Keyword(Keyword::For)) {
        read_for(alloc, tokens, at, depth)
    } else if stands(tokens, at, Class::Keyword(Keyword::Done)) {
        read_done(tokens, at)
    } else {
        read_go(alloc, tokens, at, depth)
    }
}

/// `let name = value ;`
fn read_let(
    alloc: Global,
    tokens: &[Token],
    at: usize,
    depth: usize,
) -> Result<(Stmt, usize), Refused>
    requires { at ≤ length tokens.now }
    ensures { Reads (P.let_over (P.expr depth)).parse tokens.now at (at + 1) result }
{
    let (place, at) = expect(tokens, at, Class::Keyword(Keyword::Let))?;
    let (name, at) = read_word(tokens, at)?;
    let (_, at) = expect(tokens, at, Class::Symbol(Symbol::Assign))?;
    let (value, at) = read_expr(alloc, tokens, at, depth)?;
    let (_, at) = expect(tokens, at, Class::Symbol(Symbol::Semicolon))?;
    Ok((Stmt::Let { place, name, value }, at))
}

/// `name = value ;`
fn read_set(
    alloc: Global,
    tokens: &[Token],
    at: usize,
    depth: usize,
) -> Result<(Stmt, usize), Refused>
    requires { at ≤ length tokens.now }
    ensures { Reads (P.set_over (P.expr depth)).parse tokens.now at (at + 1) result }
{
    let (name, at) = read_word(tokens, at)?;
    let (_, at) = expect(tokens, at, Class::Symbol(Symbol::Assign))?;
    let (value, at) = read_expr(alloc, tokens, at, depth)?;
    let (_, at) = expect(tokens, at, Class::Symbol(Symbol::Semicolon))?;
    let place = name.place;
    Ok((Stmt::Set { place, name, value }, at))
}

/// `pad . target = value ;`, or the same of `cur`.
fn read_target(
    alloc: Global,
    tokens: &[Token],
    at: usize,
    owner: Keyword,
    depth: usize,
) -> Result<((Place, FieldUse, Expr), usize), Refused>
    requires { at ≤ length tokens.now }
    ensures { Reads (P.target_over owner (P.expr depth)).parse tokens.now at (at + 1) result }
{
    let (place, at) = expect(tokens, at, Class::Keyword(owner))?;
    let (_, at) = expect(tokens, at, Class::Symbol(Symbol::Dot))?;
    let (target, at) = read_use(alloc, tokens, at, depth)?;
    let (_, at) = expect(tokens, at, Class::Symbol(Symbol::Assign))?;
    let (value, at) = read_expr(alloc, tokens, at, depth)?;
    let (_, at) = expect(tokens, at, Class::Symbol(Symbol::Semicolon))?;
    Ok(((place, target, value), at))
}

/// `if test yes`, or with `else no`.
#[cycle(stmt)]
fn read_if(
    alloc: Global,
    tokens: &[Token],
    at: usize,
    depth: usize,
) -> Result<(Stmt, usize), Refused>
    requires { at ≤ length tokens.now }
    ensures { Reads (P.if_over (P.expr depth) (P.block depth)).parse tokens.now at (at + 1) result }
{
    let (place, at) = expect(tokens, at, Class::Keyword(Keyword::If))?;
    let (test, at) = read_expr(alloc, tokens, at, depth)?;
    let (yes, at) = read_block(alloc, tokens, at, depth)?;
    let (no, at) = read_else(alloc, tokens, at, depth)?;
    Ok((
        Stmt::If {
            place,
            test,
            yes,
            no,
        },
        at,
    ))
}

/// `else` and a block, or nothing.
#[cycle(stmt)]
fn read_else(
    alloc: Global,
    tokens: &[Token],
    at: usize,
    depth: usize,
) -> Result<(Option<Block>, usize), Refused>
    requires { at ≤ length tokens.now }
    ensures { Reads (P.else_over (P.block depth)).parse tokens.now at at result }
{
    if let Ok((_, at)) = expect(tokens, at, Class::Keyword(Keyword::Else)) {
        let (no, at) = read_block(alloc, tokens, at, depth)?;
        Ok((Some(no), at))
    } else {
        Ok((None, at))
    }
}

/// `for name in first .. past body`
#[cycle(stmt)]
fn read_for(
    alloc: Global,
    tokens: &[Token],
    at: usize,
    depth: usize,
) -> Result<(Stmt, usize), Refused>
    requires { at ≤ length tokens.now }
    ensures { Reads (P.for_over (P.block depth)).parse tokens.now at (at + 1) result }
{
    let (place, at) = expect(tokens, at, Class::Keyword(Keyword::For))?;
    let (name, at) = read_word(tokens, at)?;
    let (_, at) = expect(tokens, at, Class::Keyword(Keyword::In))?;
    let ((_, first), at) = read_number(tokens, at)?;
    let (_, at) = expect(tokens, at, Class::Symbol(Symbol::Range))?;
    let ((_, past), at) = read_number(tokens, at)?;
    let (body, at) = read_block(alloc, tokens, at, depth)?;
    Ok((
        Stmt::For {
            place,
            name,
            first,
            past,
            body,
        },
        at,
    ))
}

/// `done ;`
fn read_done(tokens: &[Token], at: usize) -> Result<(Stmt, usize), Refused>
    requires { at ≤ length tokens.now }
    ensures { Finds P.done_stmt.parse tokens.now at (at + 1) result }
{
    let (place, at) = expect(tokens, at, Class::Keyword(Keyword::Done))?;
    let (_, at) = expect(tokens, at, Class::Symbol(Symbol::Semicolon))?;
    Ok((Stmt::Done { place }, at))
}

/// `go to ;`
fn read_go(
    alloc: Global,
    tokens: &[Token],
    at: usize,
    depth: usize,
) -> Result<(Stmt, usize), Refused>
    requires { at ≤ length tokens.now }
    ensures { Reads (P.go_over (P.expr depth)).parse tokens.now at (at + 1) result }
{
    let (place, at) = expect(tokens, at, Class::Keyword(Keyword::Go))?;
    let (to, at) = read_expr(alloc, tokens, at, depth)?;
    let (_, at) = expect(tokens, at, Class::Symbol(Symbol::Semicolon))?;
    Ok((Stmt::Go { place, to }, at))
}
