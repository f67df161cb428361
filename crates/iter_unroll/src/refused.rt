// Why there is no straight code.

/// Why there is no straight code. What is accepted is refused for memory alone.
#[derive(Clone, Copy, Debug, PartialEq, Eq)]
pub enum Refused {
    /// A name, a field or an element is not there, or a let has no slot.
    Unknown,
    Memory,
}
