// How a loop ended.

/// Why a loop over a link ended.
#[derive(Clone, Copy, Debug, PartialEq, Eq)]
pub enum Served {
    /// A Stop came; or, of a client, all requests have their answers.
    Stopped,
    /// All turns were made.
    TurnsUsed,
    /// A call on the link failed.
    LinkFault,
    /// There was no memory to start a leg.
    Memory,
}
