// The tokens of a text.

use crate::tree::Place;
use arrayvec::ArrayVec;

/// A token and where it begins in the text.
#[derive(Debug, Drop)]
pub struct Token {
    pub place: Place,
    pub kind: TokenKind,
}

/// What a token is. A reserved word is a keyword; `next` is a name.
#[derive(Debug, Drop)]
pub enum TokenKind {
    /// A word of 1 to 32 bytes that is not reserved.
    Name(ArrayVec<u8, 32>),
    Keyword(Keyword),
    Number(u64),
    Symbol(Symbol),
}

/// The reserved words.
#[derive(Clone, Copy, Debug, PartialEq, Eq)]
pub enum Keyword {
    Record,
    Iter,
    On,
    Pad,
    Init,
    End,
    Let,
    If,
    Else,
    For,
    In,
    Done,
    Go,
    Cur,
    Null,
    At,
    Int,
    Ptr,
    U8,
    U16,
    U32,
    U64,
}

/// The symbols, the two-byte ones first.
#[derive(Clone, Copy, Debug, PartialEq, Eq)]
pub enum Symbol {
    /// `..`
    Range,
    /// `==`
    EqualEqual,
    /// `!=`
    NotEqual,
    /// `<=`
    LessEqual,
    /// `>=`
    GreaterEqual,
    /// `<<`
    ShiftLeft,
    /// `>>`
    ShiftRight,
    /// `&&`
    AndAnd,
    /// `||`
    OrOr,
    /// `{`
    OpenBrace,
    /// `}`
    CloseBrace,
    /// `(`
    OpenRound,
    /// `)`
    CloseRound,
    /// `[`
    OpenSquare,
    /// `]`
    CloseSquare,
    /// `:`
    Colon,
    /// `;`
    Semicolon,
    /// `,`
    Comma,
    /// `.`
    Dot,
    /// `=`
    Assign,
    /// `<`
    Less,
    /// `>`
    Greater,
    /// `+`
    Plus,
    /// `-`
    Minus,
    /// `*`
    Star,
    /// `/`
    Slash,
    /// `%`
    Percent,
    /// `&`
    And,
    /// `|`
    Or,
    /// `^`
    Caret,
    /// `!`
    Bang,
    /// `~`
    Tilde,
}
