// Records, iterators and programs.

ghost use Rattle.std.specs.Prelude.{◌≡◌, ◌≤◌, ◌<◌, ◌+◌, drop, length, IsTrue};
ghost use Rattle.iter_syntax.specs.Form.{any};
ghost use Rattle.iter_syntax.specs.Steps.Parsers.{at_first};
ghost use Rattle.iter_syntax.specs.Productions as P;
ghost use Rattle.iter_syntax.specs.Steps.Sets;
ghost use Rattle.iter_syntax.specs.Steps.Reads.{Finds, Reads, args_rest};

use super::reader::{Class, Refused, expect, put, read_number, read_word, stands};
use super::stmt::read_block;
use crate::token::{Keyword, Symbol, Token, TokenKind};
use crate::tree::{Arg, Args, FieldDecl, Fields, Iter, Program, RecordDecl, Width};
use pulse_base::Listed;
use std::alloc::Global;

/// The name of a width.
fn read_width(tokens: &[Token], at: usize) -> Result<(Width, usize), Refused>
    requires { at ≤ length tokens.now }
    ensures { Finds P.width.parse tokens.now at (at + 1) result }
{
    if let Ok((_, at)) = expect(tokens, at, Class::Keyword(Keyword::U8)) {
        Ok((Width::U8, at))
    } else if let Ok((_, at)) = expect(tokens, at, Class::Keyword(Keyword::U16)) {
        Ok((Width::U16, at))
    } else if let Ok((_, at)) = expect(tokens, at, Class::Keyword(Keyword::U32)) {
        Ok((Width::U32, at))
    } else if let Ok((_, at)) = expect(tokens, at, Class::Keyword(Keyword::U64)) {
        Ok((Width::U64, at))
    } else {
        let (_, at) = expect(tokens, at, Class::Keyword(Keyword::Ptr))?;
        Ok((Width::Ptr, at))
    }
}

/// A width, or a width and a length in square brackets.
fn read_type(tokens: &[Token], at: usize) -> Result<((Width, Option<u64>), usize), Refused>
    requires { at ≤ length tokens.now }
    ensures { Finds P.field_type.parse tokens.now at (at + 1) result }
{
    if let Ok((_, at)) = expect(tokens, at, Class::Symbol(Symbol::OpenSquare)) {
        let (width, at) = read_width(tokens, at)?;
        let (_, at) = expect(tokens, at, Class::Symbol(Symbol::Semicolon))?;
        let ((_, len), at) = read_number(tokens, at)?;
        let (_, at) = expect(tokens, at, Class::Symbol(Symbol::CloseSquare))?;
        Ok(((width, Some(len)), at))
    } else {
        let (width, at) = read_width(tokens, at)?;
        Ok(((width, None), at))
    }
}

/// One field.
fn read_field(tokens: &[Token], at: usize) -> Result<(FieldDecl, usize), Refused>
    requires { at ≤ length tokens.now }
    ensures { Finds P.field.parse tokens.now at (at + 1) result }
{
    let (name, at) = read_word(tokens, at)?;
    let (_, at) = expect(tokens, at, Class::Symbol(Symbol::Colon))?;
    let ((width, len), at) = read_type(tokens, at)?;
    let (_, at) = expect(tokens, at, Class::Symbol(Symbol::Semicolon))?;
    Ok((FieldDecl { name, width, len }, at))
}

/// Fields as long as one begins.
fn read_row(alloc: Global, tokens: &[Token], at: usize) -> Result<(Fields, usize), Refused>
    requires { at ≤ length tokens.now }
    ensures { Reads (any P.field).parse tokens.now at at result }
{
    let mut found = Listed::new(alloc);
    let mut at = at;
    'row: while stands(tokens, at, Class::Name) {
        match read_field(tokens, at) {
            Ok((field, next)) => {
                put(&mut found, field)?;
                at = next;
            }
            Err(refused) => return Err(refused),
        }
    }
    Ok((found, at))
}

/// Fields in braces.
fn read_fields(alloc: Global, tokens: &[Token], at: usize) -> Result<(Fields, usize), Refused>
    requires { at ≤ length tokens.now }
    ensures { Reads P.fields.parse tokens.now at (at + 1) result }
{
    let (_, at) = expect(tokens, at, Class::Symbol(Symbol::OpenBrace))?;
    let (found, at) = read_row(alloc, tokens, at)?;
    let (_, at) = expect(tokens, at, Class::Symbol(Symbol::CloseBrace))?;
    Ok((found, at))
}

/// `record name { fields }`
fn read_record(alloc: Global, tokens: &[Token], at: usize) -> Result<(RecordDecl, usize), Refused>
    requires { at ≤ length tokens.now }
    ensures { Reads P.record_decl.parse tokens.now at (at + 1) result }
{
    let (place, at) = expect(tokens, at, Class::Keyword(Keyword::Record))?;
    let (name, at) = read_word(tokens, at)?;
    let (fields, at) = read_fields(alloc, tokens, at)?;
    Ok((
        RecordDecl {
            place,
            name,
            fields,
        },
        at,
    ))
}

/// Whether an argument is a pointer.
fn read_kind(tokens: &[Token], at: usize) -> Result<(bool, usize), Refused>
    requires { at ≤ length tokens.now }
    ensures { Finds P.arg_kind.parse tokens.now at (at + 1) result }
{
    if let Ok((_, at)) = expect(tokens, at, Class::Keyword(Keyword::Int)) {
        Ok((false, at))
    } else {
        let (_, at) = expect(tokens, at, Class::Keyword(Keyword::Ptr))?;
        Ok((true, at))
    }
}

/// One argument.
fn read_arg(tokens: &[Token], at: usize) -> Result<(Arg, usize), Refused>
    requires { at ≤ length tokens.now }
    ensures { Finds P.arg.parse tokens.now at (at + 1) result }
{
    let (name, at) = read_word(tokens, at)?;
    let (_, at) = expect(tokens, at, Class::Symbol(Symbol::Colon))?;
    let (pointer, at) = read_kind(tokens, at)?;
    Ok((Arg { name, pointer }, at))
}

/// A comma and one argument.
fn read_more_arg(tokens: &[Token], at: usize) -> Result<(Arg, usize), Refused>
    requires { at ≤ length tokens.now }
    ensures { Finds P.more_arg.parse tokens.now at (at + 1) result }
{
    let (_, at) = expect(tokens, at, Class::Symbol(Symbol::Comma))?;
    let (arg, at) = read_arg(tokens, at)?;
    Ok((arg, at))
}

/// The arguments from a first one on, each other with a comma before it.
fn read_args_from(
    alloc: Global,
    tokens: &[Token],
    at: usize,
    first: Arg,
) -> Result<(Args, usize), Refused>
    requires { at ≤ length tokens.now }
    ensures { Reads (args_rest first) tokens.now at at result }
{
    let mut found = Listed::new(alloc);
    put(&mut found, first)?;
    let mut at = at;
    'row: while stands(tokens, at, Class::Symbol(Symbol::Comma)) {
        match read_more_arg(tokens, at) {
            Ok((arg, next)) => {
                put(&mut found, arg)?;
                at = next;
            }
            Err(refused) => return Err(refused),
        }
    }
    Ok((found, at))
}

/// Arguments with commas between them, or none.
fn read_row_of_args(alloc: Global, tokens: &[Token], at: usize) -> Result<(Args, usize), Refused>
    requires { at ≤ length tokens.now }
    ensures { Reads P.row_of_args.parse tokens.now at at result }
{
    if stands(tokens, at, Class::Name) {
        let (first, at) = read_arg(tokens, at)?;
        read_args_from(alloc, tokens, at, first)
    } else {
        Ok((Listed::new(alloc), at))
    }
}

/// Arguments in parentheses.
fn read_args(alloc: Global, tokens: &[Token], at: usize) -> Result<(Args, usize), Refused>
    requires { at ≤ length tokens.now }
    ensures { Reads P.args.parse tokens.now at (at + 1) result }
{
    let (_, at) = expect(tokens, at, Class::Symbol(Symbol::OpenRound))?;
    let (found, at) = read_row_of_args(alloc, tokens, at)?;
    let (_, at) = expect(tokens, at, Class::Symbol(Symbol::CloseRound))?;
    Ok((found, at))
}

/// `iter name on on { pad init end next }`
fn read_iter(
    alloc: Global,
    tokens: &[Token],
    at: usize,
    depth: usize,
) -> Result<(Iter, usize), Refused>
    requires { at ≤ length tokens.now }
    ensures { Reads (P.iter_over (P.block depth)).parse tokens.now at (at + 1) result }
{
    let (place, at) = expect(tokens, at, Class::Keyword(Keyword::Iter))?;
    let (name, at) = read_word(tokens, at)?;
    let (_, at) = expect(tokens, at, Class::Keyword(Keyword::On))?;
    let (on, at) = read_word(tokens, at)?;
    let (_, at) = expect(tokens, at, Class::Symbol(Symbol::OpenBrace))?;
    let (_, at) = expect(tokens, at, Class::Keyword(Keyword::Pad))?;
    let (pad, at) = read_fields(alloc, tokens, at)?;
    let (_, at) = expect(tokens, at, Class::Keyword(Keyword::Init))?;
    let (args, at) = read_args(alloc, tokens, at)?;
    let (init_part, at) = read_block(alloc, tokens, at, depth)?;
    let (_, at) = expect(tokens, at, Class::Keyword(Keyword::End))?;
    let (end_part, at) = read_block(alloc, tokens, at, depth)?;
    let (_, at) = expect(tokens, at, Class::Next)?;
    let (next_part, at) = read_block(alloc, tokens, at, depth)?;
    let (_, at) = expect(tokens, at, Class::Symbol(Symbol::CloseBrace))?;
    let found = Iter {
        place,
        name,
        on,
        pad,
        args,
        init_part,
        end_part,
        next_part,
    };
    Ok((found, at))
}

fn begins_decl(kind: &TokenKind) -> bool
    ensures { result ≡ Sets.kind_begins_decl kind.now }
{
    match kind {
        TokenKind::Keyword(keyword) => keyword_begins_decl(*keyword),
        _ => false,
    }
}

fn keyword_begins_decl(keyword: Keyword) -> bool
    ensures { result ≡ Sets.keyword_begins_decl keyword }
{
    match keyword {
        Keyword::Record | Keyword::Iter => true,
        _ => false,
    }
}

/// Whether a record or an iterator may begin with the token at a place.
fn decl_stands(tokens: &[Token], at: usize) -> bool
    requires { at ≤ length tokens.now }
    ensures first { result ≡ at_first Sets.begins_decl (drop at tokens.now) }
    ensures inside { IsTrue result → at < length tokens.now }
{
    at < tokens.len() && begins_decl(&tokens[at].kind)
}

/// Records and iterators as long as one begins; `depth` bounds their nesting.
pub(crate) fn read_program(
    alloc: Global,
    tokens: &[Token],
    at: usize,
    depth: usize,
) -> Result<(Program, usize), Refused>
    requires { at ≤ length tokens.now }
    ensures { Reads (P.program depth).parse tokens.now at at result }
{
    let mut records = Listed::new(alloc);
    let mut iters = Listed::new(alloc);
    let mut at = at;
    'row: while decl_stands(tokens, at) {
        if stands(tokens, at, Class::Keyword(Keyword::Record)) {
            match read_record(alloc, tokens, at) {
                Ok((record, next)) => {
                    put(&mut records, record)?;
                    at = next;
                }
                Err(refused) => return Err(refused),
            }
        } else {
            match read_iter(alloc, tokens, at, depth) {
                Ok((iter, next)) => {
                    put(&mut iters, iter)?;
                    at = next;
                }
                Err(refused) => return Err(refused),
            }
        }
    }
    Ok((Program { records, iters }, at))
}
