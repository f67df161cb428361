// The types of expressions, and the blocks of an iterator.

/// The type of an expression.
#[derive(Clone, Copy, Debug, PartialEq, Eq)]
pub enum Sort {
    Int,
    Ptr,
    Bool,
}

/// A block of an iterator.
#[derive(Clone, Copy, Debug, PartialEq, Eq)]
pub enum Part {
    Init,
    End,
    Next,
}
