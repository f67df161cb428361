//! From accepted programs to verified code.
//!
//! [`build`] makes an image of each iterator. Read `specs/Means.antt` first: when an image means an iterator. Then
//! `specs/OneLoad.antt`, what of a record its body loads, and `specs/Compiled.antt`, what is true of every [`Built`].
//! That is all that a reader must believe. The code itself is defined in `flat_code`; `specs/Measures.antt`, `Extends`,
//! `Shallow` and `Flat` serve the contracts of the steps that put it. Nothing here reads text or runs code.
#![tactic(auto)]

mod built;
mod extent;
mod lengths;
mod segments;
mod statement;
mod value;

pub use built::{Built, build};
