/// Why bytes are no frame: the first check that fails, in this order but for the second `Short`.
#[derive(Clone, Copy, Debug, PartialEq, Eq)]
pub enum BadFrame {
    /// Fewer than 30 bytes; or, where nothing else is wrong, fewer after them than the pad's length.
    Short,
    /// The first two bytes are not `50 4c`.
    Magic,
    /// The version is not 1.
    Version,
    /// The kind is none of 1, 2 and 3.
    Kind,
    /// A field breaks the rules of its kind.
    Field,
    /// More bytes after the first 30 than the pad's length.
    Long,
}
