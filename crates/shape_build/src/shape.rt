// A document by its kind, its number of records and its seed.

ghost use Rattle.std.specs.Prelude.{◌≡◌, IfOk, IfSome, Some};
ghost use Rattle.shape_build.specs.Shape.{kind_word, InRange, shape_text};

use crate::btree_document::btree;
use crate::buckets_document::buckets;
use crate::list_document::list;
use pulse_base::{Bytes, Memory};
use std::alloc::Global;

/// The kinds of documents.
#[derive(Debug, Clone, Copy, PartialEq, Eq)]
pub enum Kind {
    /// One list.
    List,
    /// The chains of 64 heads.
    Buckets,
    /// A B-tree.
    Btree,
}

/// A document that is made from a number.
#[derive(Debug, Clone, Copy, PartialEq, Eq)]
pub struct Shape {
    /// What its records make up.
    pub kind: Kind,
    /// How many records it has, or keys for a B-tree: 1 to 20,000.
    pub count: u32,
    /// The seed of its draws.
    pub seed: u64,
}

impl Kind {
    /// The word of a kind.
    pub fn word(self) -> &'static str
        ensures { result.now ≡ kind_word self }
    {
        match self {
            Kind::List => "list",
            Kind::Buckets => "buckets",
            Kind::Btree => "btree",
        }
    }

    /// The kind of a word.
    pub fn named(word: &str) -> Option<Kind>
        ensures is { IfSome result (λ kind. word.now ≡ kind_word kind) }
        ensures each { (kind : Kind) → word.now ≡ kind_word kind → result ≡ Some kind }
    {
        match word {
            "list" => Some(Kind::List),
            "buckets" => Some(Kind::Buckets),
            "btree" => Some(Kind::Btree),
            _ => None,
        }
    }
}

/// The text of a document.
pub fn generate(alloc: Global, shape: &Shape) -> Result<Bytes, Memory>
    requires { InRange shape.now }
    ensures { IfOk result (λ text. text ≡ shape_text shape.now) }
{
    match shape.kind {
        Kind::List => list(alloc, shape.count, shape.seed),
        Kind::Buckets => buckets(alloc, shape.count, shape.seed),
        Kind::Btree => btree(alloc, shape.count, shape.seed),
    }
}
