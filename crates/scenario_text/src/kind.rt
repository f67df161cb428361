// What the value at a key has to be.

/// What each entry of a list has to be.
#[derive(Clone, Copy, Debug, PartialEq, Eq)]
pub enum Entry {
    Text,
    Table,
    /// An argument of a request: a whole number from 0, or a text of digits, below 2^64.
    Argument,
}

/// What the value at a key has to be.
#[derive(Clone, Copy, Debug, PartialEq, Eq)]
pub enum Kind {
    Text,
    Truth,
    /// A whole number from `low` to `high`.
    Whole { low: u64, high: u64 },
    List(Entry),
}
