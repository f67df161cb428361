// The texts of keywords and symbols.

ghost use Rattle.std.specs.Prelude.{◌≡◌, ◌≤◌, length};
ghost use Rattle.iter_syntax.specs.Spelling.{keyword_text, symbol_text, keyword_of, symbol_of};

use crate::token::{Keyword, Symbol};

const KEYWORDS: [Keyword; 22] = [
    Keyword::Record,
    Keyword::Iter,
    Keyword::On,
    Keyword::Pad,
    Keyword::Init,
    Keyword::End,
    Keyword::Let,
    Keyword::If,
    Keyword::Else,
    Keyword::For,
    Keyword::In,
    Keyword::Done,
    Keyword::Go,
    Keyword::Cur,
    Keyword::Null,
    Keyword::At,
    Keyword::Int,
    Keyword::Ptr,
    Keyword::U8,
    Keyword::U16,
    Keyword::U32,
    Keyword::U64,
];

const SYMBOLS: [Symbol; 32] = [
    Symbol::Range,
    Symbol::EqualEqual,
    Symbol::NotEqual,
    Symbol::LessEqual,
    Symbol::GreaterEqual,
    Symbol::ShiftLeft,
    Symbol::ShiftRight,
    Symbol::AndAnd,
    Symbol::OrOr,
    Symbol::OpenBrace,
    Symbol::CloseBrace,
    Symbol::OpenRound,
    Symbol::CloseRound,
    Symbol::OpenSquare,
    Symbol::CloseSquare,
    Symbol::Colon,
    Symbol::Semicolon,
    Symbol::Comma,
    Symbol::Dot,
    Symbol::Assign,
    Symbol::Less,
    Symbol::Greater,
    Symbol::Plus,
    Symbol::Minus,
    Symbol::Star,
    Symbol::Slash,
    Symbol::Percent,
    Symbol::And,
    Symbol::Or,
    Symbol::Caret,
    Symbol::Bang,
    Symbol::Tilde,
];

impl Keyword {
    /// The reserved word itself.
    pub(crate) fn text(self) -> &'static [u8]
        ensures { result.now ≡ keyword_text self }
    {
        match self {
            Keyword::Record => b"record",
            Keyword::Iter => b"iter",
            Keyword::On => b"on",
            Keyword::Pad => b"pad",
            Keyword::Init => b"init",
            Keyword::End => b"end",
            Keyword::Let => b"let",
            Keyword::If => b"if",
            Keyword::Else => b"else",
            Keyword::For => b"for",
            Keyword::In => b"in",
            Keyword::Done => b"done",
            Keyword::Go => b"go",
            Keyword::Cur => b"cur",
            Keyword::Null => b"null",
            Keyword::At => b"at",
            Keyword::Int => b"int",
            Keyword::Ptr => b"ptr",
            Keyword::U8 => b"u8",
            Keyword::U16 => b"u16",
            Keyword::U32 => b"u32",
            Keyword::U64 => b"u64",
        }
    }
}

impl Symbol {
    /// The one or two bytes of the symbol.
    pub(crate) fn text(self) -> &'static [u8]
        ensures { result.now ≡ symbol_text self }
    {
        match self {
            Symbol::Range => b"..",
            Symbol::EqualEqual => b"==",
            Symbol::NotEqual => b"!=",
            Symbol::LessEqual => b"<=",
            Symbol::GreaterEqual => b">=",
            Symbol::ShiftLeft => b"<<",
            Symbol::ShiftRight => b">>",
            Symbol::AndAnd => b"&&",
            Symbol::OrOr => b"||",
            Symbol::OpenBrace => b"{",
            Symbol::CloseBrace => b"}",
            Symbol::OpenRound => b"(",
            Symbol::CloseRound => b")",
            Symbol::OpenSquare => b"[",
            Symbol::CloseSquare => b"]",
            Symbol::Colon => b":",
            Symbol::Semicolon => b";",
            Symbol::Comma => b",",
            Symbol::Dot => b".",
            Symbol::Assign => b"=",
            Symbol::Less => b"<",
            Symbol::Greater => b">",
            Symbol::Plus => b"+",
            Symbol::Minus => b"-",
            Symbol::Star => b"*",
            Symbol::Slash => b"/",
            Symbol::Percent => b"%",
            Symbol::And => b"&",
            Symbol::Or => b"|",
            Symbol::Caret => b"^",
            Symbol::Bang => b"!",
            Symbol::Tilde => b"~",
        }
    }
}

// The keyword that a word is, where it is reserved.
#[tactic(auto, unfolding(crate::specs::Spelling::keyword_of))]
pub(crate) fn keyword_of(word: &[u8]) -> Option<Keyword>
    ensures { result ≡ keyword_of word.now }
{
    KEYWORDS
        .iter()
        .copied()
        .find(|keyword| keyword.text() == word)
}

// The symbol that these bytes are.
#[tactic(auto, unfolding(crate::specs::Spelling::symbol_of))]
pub(crate) fn symbol_of(bytes: &[u8]) -> Option<Symbol>
    ensures { result ≡ symbol_of bytes.now }
{
    SYMBOLS
        .iter()
        .copied()
        .find(|symbol| symbol.text() == bytes)
}
