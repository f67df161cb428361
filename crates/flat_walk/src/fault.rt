// Why a document has no report of a walk.

ghost use Rattle.std.specs.Prelude.{◌≡◌, IfOk};
ghost use Rattle.flat_walk.specs.Lines.{words_of};

use pulse_base::{Bytes, Memory};
use scenario_text::DocFault;
use std::alloc::Global;

/// Why a document has no report of a walk.
#[derive(Debug, Drop)]
pub enum WalkFault {
    /// It is refused: this is its first failing check. It is never want of memory.
    Document(DocFault),
    /// It is accepted, and does not ask for one walk: it has several regions or requests, or the key `events`.
    Form,
    /// The want of memory, which may come at any time.
    Memory,
}

impl WalkFault {
    /// What a user reads of the fault behind `pulse: `, without the line's end.
    pub fn words(&self, alloc: Global) -> Result<Bytes, Memory>
        ensures { IfOk result (λ line. line ≡ words_of self.now) }
    {
        match self {
            WalkFault::Document(fault) => fault.words(alloc),
            WalkFault::Form => Bytes::from_slice(alloc, b"document limit walk"),
            WalkFault::Memory => Bytes::from_slice(alloc, b"memory"),
        }
    }
}

impl From<Memory> for WalkFault {
    fn from(_memory: Memory) -> WalkFault
        ensures { result ≡ WalkFault.Memory }
    {
        WalkFault::Memory
    }
}
