//! Large documents that are made from a number: lists, chains of hash buckets and B-trees.
//!
//! Read [`list`], [`buckets`] and [`btree`], and [`generate`], which makes the document of a [`Shape`].
//! `specs/Documents.antt` says what each writes, over `Draws` (the generator), `Text` (lines, and how records are cut
//! into regions), `Programs`, `Requests` (events and requests), `Records` and `Tree`; `specs/Shape.antt` has the words
//! of the kinds. Time and memory are in proportion to the text.
#![tactic(auto)]

mod btree_document;
mod buckets_document;
mod draws;
mod events;
mod list_document;
mod programs;
mod shape;
mod text;
mod tree;

pub use btree_document::btree;
pub use buckets_document::buckets;
pub use list_document::list;
pub use shape::{Kind, Shape, generate};
