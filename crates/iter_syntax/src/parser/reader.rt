// One token at a place of the list: whether it stands there, and what it gives.

ghost use Rattle.std.specs.Prelude.{◌≡◌, ◌≤◌, ◌<◌, ◌+◌, [], ◌∷◌, ◌++◌, drop, length, nat_eq, IsTrue, is_ok, IfOk, IfErr, OnOk};
ghost use Rattle.iter_syntax.specs.Kinds.{keyword_number, symbol_number, is_next_text};
ghost use Rattle.iter_syntax.specs.Steps.Parsers.{at_first};
ghost use Rattle.iter_syntax.specs.Productions.{word, number};
ghost use Rattle.iter_syntax.specs.Steps.Reads.{Finds, in_class, of_class};

use crate::token::{Keyword, Symbol, Token, TokenKind};
use crate::tree::{Expr, Place, Word};
use arrayvec::ArrayVec;
use pulse_base::Listed;
use sqlite_items::Boxed;
use std::alloc::Global;

/// What is asked of a token.
#[derive(Clone, Copy, Debug, PartialEq, Eq)]
pub(crate) enum Class {
    Name,
    /// The name `next`.
    Next,
    Number,
    Keyword(Keyword),
    Symbol(Symbol),
}

/// Why a form was not read: the token at this number does not fit, or memory ran out.
#[derive(Clone, Copy, Debug, PartialEq, Eq)]
pub(crate) enum Refused {
    At(usize),
    Memory,
}

fn is_next(text: &[u8]) -> bool
    ensures { result ≡ is_next_text text.now }
{
    text.len() == 4 && text[0] == b'n' && text[1] == b'e' && text[2] == b'x' && text[3] == b't'
}

fn same_keyword(wanted: Keyword, found: Keyword) -> bool
    ensures { result ≡ nat_eq (keyword_number wanted) (keyword_number found) }
{
    wanted == found
}

fn same_symbol(wanted: Symbol, found: Symbol) -> bool
    ensures { result ≡ nat_eq (symbol_number wanted) (symbol_number found) }
{
    wanted == found
}

fn is_in(token: &Token, class: Class) -> bool
    ensures { result ≡ in_class class token.now }
{
    match (&token.kind, class) {
        (TokenKind::Name(_), Class::Name) => true,
        (TokenKind::Name(text), Class::Next) => is_next(text.as_slice()),
        (TokenKind::Number(_), Class::Number) => true,
        (TokenKind::Keyword(found), Class::Keyword(wanted)) => same_keyword(wanted, *found),
        (TokenKind::Symbol(found), Class::Symbol(wanted)) => same_symbol(wanted, *found),
        _ => false,
    }
}

/// Whether a token of this class stands at a place.
pub(crate) fn stands(tokens: &[Token], at: usize, class: Class) -> bool
    requires { at ≤ length tokens.now }
    ensures first { result ≡ at_first (in_class class) (drop at tokens.now) }
    ensures inside { IsTrue result → at < length tokens.now }
{
    at < tokens.len() && is_in(&tokens[at], class)
}

/// The place of the token of this class that stands here.
pub(crate) fn expect(tokens: &[Token], at: usize, class: Class) -> Result<(Place, usize), Refused>
    requires { at ≤ length tokens.now }
    ensures finds { Finds (of_class class).parse tokens.now at (at + 1) result }
    ensures first { is_ok result ≡ at_first (in_class class) (drop at tokens.now) }
{
    if stands(tokens, at, class) {
        Ok((tokens[at].place, at + 1))
    } else {
        Err(Refused::At(at))
    }
}

fn copied(text: &[u8]) -> ArrayVec<u8, 32>
    requires { length text.now ≤ 32 }
    ensures { result.items ≡ text.now }
{
    let mut copy = ArrayVec::new();
    let _full = copy.try_extend_from_slice(text);
    copy
}

pub(crate) fn read_word(tokens: &[Token], at: usize) -> Result<(Word, usize), Refused>
    requires { at ≤ length tokens.now }
    ensures { Finds word.parse tokens.now at (at + 1) result }
{
    if at >= tokens.len() {
        return Err(Refused::At(at));
    }
    let token = &tokens[at];
    match &token.kind {
        TokenKind::Name(text) => {
            let text = copied(text.as_slice());
            Ok((
                Word {
                    place: token.place,
                    text,
                },
                at + 1,
            ))
        }
        _ => Err(Refused::At(at)),
    }
}

/// The place and the value of a number.
pub(crate) fn read_number(tokens: &[Token], at: usize) -> Result<((Place, u64), usize), Refused>
    requires { at ≤ length tokens.now }
    ensures { Finds number.parse tokens.now at (at + 1) result }
{
    if at >= tokens.len() {
        return Err(Refused::At(at));
    }
    let token = &tokens[at];
    match &token.kind {
        TokenKind::Number(value) => Ok(((token.place, *value), at + 1)),
        _ => Err(Refused::At(at)),
    }
}

pub(crate) fn put<T: Drop>(list: &mut Listed<T>, item: T) -> Result<(), Refused>
    ensures pushed { OnOk result (list.new ≡ list.old ++ item ∷ []) }
    ensures cause { IfErr result (λ e. e ≡ Refused.Memory) }
{
    match list.push(item) {
        Ok(()) => Ok(()),
        Err(_) => Err(Refused::Memory),
    }
}

pub(crate) fn boxed(alloc: Global, of: Expr) -> Result<Boxed<Expr>, Refused>
    ensures same { IfOk result (λ b. b ≡ of) }
    ensures cause { IfErr result (λ e. e ≡ Refused.Memory) }
{
    match Boxed::new(alloc, of) {
        Ok(of) => Ok(of),
        Err(_) => Err(Refused::Memory),
    }
}
