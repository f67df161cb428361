// Why a document is refused.

use iter_check::CheckKind;
use iter_syntax::SyntaxFault;
use pulse_base::Bytes;
use range_table::TableFault;

/// Why a document is refused: its first failing check, in this order but for the last. A name is the key of
/// the document itself, or `region.I.KEY` or `request.I.KEY`; a number is a place in a list, from 0.
#[derive(Debug, Drop)]
pub enum DocFault {
    /// The text is no TOML document.
    Toml,
    /// A key that none of the tables of keys has.
    Key(Bytes),
    /// A needed key that is absent.
    Missing(Bytes),
    /// A key whose value is not of its kind or range.
    Value(Bytes),
    /// The region whose `hex` is no bytes.
    Hex(u32),
    /// The limit that is passed.
    Limit(Bytes),
    /// The program's text is no program. The fault is never want of memory.
    Program(SyntaxFault),
    /// The first entry of the program's fault list, with its byte offset in the program's text.
    Check { kind: CheckKind, place: u32 },
    /// The region that makes no table with those before it; of two that overlap, the later one. The fault is never that there
    /// are too many.
    Region(u32, TableFault),
    /// The request whose iterator the program does not have.
    Iter(u32),
    /// The request with another number of arguments than its iterator.
    Args(u32),
    /// The text that is no event.
    Event(u32),
    /// The want of memory, which may come at any time.
    Memory,
}
