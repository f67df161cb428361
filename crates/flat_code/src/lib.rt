//! The code of flat programs, and that it does what they mean.
//!
//! Read `specs/Code.antt` first: the instructions of an expression, as a value in a register and as a jump.
//! `specs/Statements.antt` has those of statements and `specs/Segments.antt` those of both segments, with the
//! laws [`law_body`] and [`law_init`] over them; `specs/Frame.antt` says what a program is asked for them.
//! These definitions are no part of what a reader of the compiler must believe: `pulse_codegen` promises
//! meaning by the language's own definitions, and cites these on the way.
//! The crate emits no code and takes no memory.
#![tactic(auto)]

mod law;
mod operator;

pub use law::{law_body, law_init};
pub use operator::{Way, computing, jumping, way_for};
