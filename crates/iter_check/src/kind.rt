// What a fault of a program is: its kind and its place.

use std::fmt::{self, Display, Formatter, Write};

/// The kinds of faults. Of two faults at one place, the one whose kind stands earlier here is listed first.
#[derive(Clone, Copy, Debug, PartialEq, Eq)]
pub enum CheckKind {
    /// A name is declared again or is not known.
    Name,
    /// A rule of types fails.
    Typing,
    /// A path goes on where it ends, or ends where it may not, or does not end where it must.
    Path,
    /// A record has no field, an array of length 0, or more than 256 bytes.
    RecordSize,
    /// The same of a pad.
    PadSize,
    /// The ninth argument.
    ArgCount,
    /// A let with eight lets in scope.
    LocalCount,
    /// A whole expression or an index that is deeper than 7.
    Depth,
    /// A loop of no turn, or of more than 64.
    LoopTurns,
    /// The 65th record or iterator.
    Count,
    /// A segment of more than 2,000 nodes.
    Code,
    /// An index that is not below its array's length in some turn.
    Index,
}

impl Display for CheckKind {
    ghost use Rattle.std.specs.Prelude.{Some};
    ghost use Rattle.iter_check.specs.Words.{kind_word};

    ghost output = { λ k. Some (kind_word k) };

    fn fmt<W: Write>(&self, f: &mut Formatter<W>) -> fmt::Result {
        f.write_str(match self {
            CheckKind::Name => "name",
            CheckKind::Typing => "type",
            CheckKind::Path => "path",
            CheckKind::RecordSize => "record",
            CheckKind::PadSize => "pad",
            CheckKind::ArgCount => "args",
            CheckKind::LocalCount => "locals",
            CheckKind::Depth => "depth",
            CheckKind::LoopTurns => "loop",
            CheckKind::Count => "count",
            CheckKind::Code => "code",
            CheckKind::Index => "index",
        })
    }
}

/// A fault of a program, with the byte offset of its place in the text.
#[derive(Clone, Copy, Debug, PartialEq, Eq)]
pub struct Fault {
    pub kind: CheckKind,
    pub place: u32,
}

/// Why a program is not accepted.
#[derive(Clone, Copy, Debug, PartialEq, Eq)]
pub enum CheckError {
    /// The first fault of the program's list.
    Fault { kind: CheckKind, place: u32 },
    /// The want of memory.
    Memory,
}

impl Display for CheckError {
    ghost use Rattle.std.specs.Prelude.{Some};
    ghost use Rattle.iter_check.specs.Words.{error_words};

    ghost output = { λ e. Some (error_words e) };

    fn fmt<W: Write>(&self, f: &mut Formatter<W>) -> fmt::Result {
        match self {
            CheckError::Fault { kind, place } => write!(f, "program {kind} {place}"),
            CheckError::Memory => f.write_str("memory"),
        }
    }
}
