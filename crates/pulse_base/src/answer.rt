// How a request is answered.

ghost use Rattle.std.specs.Prelude.{◌≡◌, Some};
ghost use Rattle.pulse_base.specs.Cause.{kind_of};
ghost use Rattle.pulse_base.specs.Fault.{fault_name};

use crate::pad_bytes::PadBytes;
use std::fmt;

/// What can end an iteration that runs: the two faults that a statement or an instruction makes itself.
#[derive(Clone, Copy, Debug, PartialEq, Eq)]
pub enum Cause {
    /// A store to the record in a region that may not be written.
    NotWritable,
    /// A division or a remainder by zero.
    DivZero,
}

/// Why an iteration or a walk faulted.
#[derive(Clone, Copy, Debug, PartialEq, Eq)]
pub enum FaultKind {
    /// No region holds the record.
    Unmapped,
    /// The region that holds the record may not be read.
    NotReadable,
    /// A store to the record in a region that may not be written.
    NotWritable,
    /// A division or a remainder by zero.
    DivZero,
}

impl From<Cause> for FaultKind {
    ghost from_gives = { λ cause kind. kind ≡ kind_of cause };

    fn from(cause: Cause) -> FaultKind
        ensures { result ≡ kind_of cause }
    {
        match cause {
            Cause::NotWritable => FaultKind::NotWritable,
            Cause::DivZero => FaultKind::DivZero,
        }
    }
}

impl FaultKind {
    /// The kind's name in a report.
    pub fn name(self) -> &'static str
        ensures { result.now ≡ fault_name self }
    {
        match self {
            FaultKind::Unmapped => "unmapped",
            FaultKind::NotReadable => "not_readable",
            FaultKind::NotWritable => "not_writable",
            FaultKind::DivZero => "div_zero",
        }
    }
}

impl fmt::Display for FaultKind {
    ghost output = { λ kind. Some (fault_name kind) };

    fn fmt<W: fmt::Write>(&self, f: &mut fmt::Formatter<W>) -> fmt::Result {
        f.write_str(self.name())
    }
}

/// The answer of a request. A count is the number of its iterations that took effect.
#[derive(Clone, Copy, Debug, PartialEq, Eq)]
pub enum Answer {
    /// It was never asked.
    Unasked,
    /// It is asked and has no answer yet.
    Waiting,
    /// The walk ended with this pad.
    Done {
        pad: PadBytes,
        count: u64,
    },
    /// The walk faulted at the record at `cur`.
    Fault {
        kind: FaultKind,
        cur: u64,
        count: u64,
    },
    /// All its rounds are used up.
    Spent {
        count: u64,
    },
    /// It was given up after too many ticks without an answer.
    Silent,
}
