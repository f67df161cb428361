//! The language of iterators: its tokens and its syntax tree, from text and back.
//!
//! Read [`Program`] first, then [`parse`] and [`print`]. A tree keeps the byte offsets of the text that it
//! came from, so that later faults can name a place. `docs/language.md` has the grammar and the meaning.
//! Nothing here knows what a program means, or whether its names stand for anything.
//!
//! The contracts of [`parse`] and [`print`] are said by the files of `specs/`; those in `specs/Steps` are
//! parser and printer step by step, and only private contracts and proofs cite them.
#![tactic(auto)]

mod fault;
mod operator;
mod parser;
mod printed;
mod spelling;
mod token;
mod tokens;
mod tree;

pub use fault::SyntaxFault;
pub use parser::parse;
pub use printed::print;
pub use token::{Keyword, Symbol, Token, TokenKind};
pub use tree::{
    Arg, Args, BinaryOp, Block, Expr, FieldDecl, FieldUse, Fields, Iter, Iters, Place, Program,
    RecordDecl, Records, Stmt, Stmts, Width, Word,
};
