// What comes in over a link in memory, and what was sent over it.

use pulse_base::{Bytes, Listed};

/// What comes in.
#[derive(Debug, Drop)]
pub enum Item {
    /// A frame from a port.
    Frame { port: u16, bytes: Bytes },
    /// No frame came for a while.
    Gap,
}

/// What comes in, in order.
pub type Items = Listed<Item>;

/// A frame that was sent to a port.
#[derive(Debug, Drop)]
pub struct Sent {
    pub port: u16,
    pub bytes: Bytes,
}
