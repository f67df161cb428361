// A region with its bytes in place.

use range_table::RegionSpan;

/// A region of a node: its number, where it lies, and its bytes, which a turn changes in place.
#[derive(Drop)]
pub struct Held {
    pub number: u16,
    pub span: RegionSpan,
    pub bytes: Vec<u8>,
}
