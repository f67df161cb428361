//! The lines that tell where the fields of an accepted program lie, and how large its iterators are.
//!
//! `specs/Fields.antt` and `specs/Decls.antt` say them whole, byte by byte; [`layout`] gives them.
#![tactic(auto)]

mod decls;
mod fields;
mod text;

pub use decls::layout;
