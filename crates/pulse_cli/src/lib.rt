//! The commands of `pulse`, over any source, sinks, link, spawner and yard.
//!
//! Read [`pulse`] first: it takes the words of a command and the ends of the outside, and answers a
//! status. The commands and their words are those of `pulse_words`. `specs/Answers.antt` says what each command answers to its
//! input, `Uses.antt` which ends it calls, `Sides.antt` what is said of yard, link and spawner, `Lines.antt` and `Ending.antt` how a
//! run ends; `Steps.antt` is for private contracts and proofs alone. `docs/run.md` has the rules, `docs/formats.md` the texts.
#![tactic(auto)]

mod answer;
mod document;
mod failure;
mod images;
mod input;
mod processes;
mod program;
mod top;

pub use input::MOST_INPUT;
pub use top::pulse;
