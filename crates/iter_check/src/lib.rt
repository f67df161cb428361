//! What a program of iterators means, which programs are accepted, and the parts of running one that other
//! crates share.
//!
//! Read `specs/` first, in the order `Layout`, `FieldValue`, `State`, `Value`, `Meaning`, `Iteration`:
//! they say where fields lie, what an expression is worth, what statements do, and what one iteration
//! gives. Every body that runs an iterator is held to these definitions.
//!
//! Then, for the faults of a program, `Faults`, `Scope`, `Typing`, `Expressions`, `Scoping`, `Paths`,
//! `Nodes`, `Indices` and `FaultList`: each rule is one line there. [`check`] accepts a program whose
//! fault list is empty. What stands in `specs/First` goes as the checker goes, for its proofs alone. What stands in `specs/Views` says how the code holds a place, a value and the names in
//! scope; nobody needs it to know what a program means. Nothing here runs an iterator or compiles a program.
#![tactic(auto)]

mod best;
mod checked;
mod checker;
mod declared;
mod expr;
mod fields;
mod index;
mod iterator;
mod kind;
mod laws;
mod loops;
mod names;
mod nodes;
mod path;
mod scope;
mod sizes;
mod sort;
mod stmt;
mod typing;
mod value;

pub use checked::Checked;
pub use checker::check;
pub use fields::{
    Slot, elements, field_size, find_field, read_at, read_item, size_of, width_bytes, write_at,
    write_item,
};
pub use iterator::record_fields;
pub use kind::{CheckError, CheckKind, Fault};
pub use laws::{
    law_iteration_keeps_lengths, law_store_touches_only_its_element, law_walk_has_its_pad,
};
pub use names::Names;
pub use sort::{Part, Sort};
pub use value::{Value, apply, binary, decided, flipped, moved, negated, word};
