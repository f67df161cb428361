//! The commands of `pulse`, and the words that name them.
//!
//! Read [`Command`] and [`read_words`]. `specs/Words.antt` says which words are which command and `specs/NumberWord.antt`
//! what the word of a number is; `specs/inner` is for private contracts and proofs alone. The words go through
//! `clap` first, and what it takes besides is refused.
#![tactic(auto)]

mod command;
mod line;
mod name;
mod number;
mod readers;
mod words;

pub use command::{Command, WordsFault};
pub use words::read_words;
