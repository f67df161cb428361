// What is recorded of a child.

use pulse_base::{Bytes, Listed};

/// A child that was started.
#[derive(Debug, Drop)]
pub struct Start {
    pub words: Listed<Bytes>,
    pub input: Bytes,
    /// Its number.
    pub kid: u32,
}
