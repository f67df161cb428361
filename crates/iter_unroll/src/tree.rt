// Flat programs.

use iter_syntax::{BinaryOp, Width};
use pulse_base::Listed;
use sqlite_items::Boxed;

/// The bytes of a field, or of an element of an array: where they begin in the record or in the pad,
/// and how many they are.
#[derive(Clone, Copy, Debug, PartialEq, Eq)]
pub struct FlatUse {
    pub off: u16,
    pub width: Width,
}

/// A flat expression. A loop variable is the number that it has in its turn.
#[derive(Debug, Drop)]
pub enum FlatExpr {
    Num {
        value: u64,
    },
    Null,
    /// An argument, by its number from 0.
    Arg {
        number: u8,
    },
    /// A let, by its slot from 0 to 7.
    Local {
        slot: u8,
    },
    Cur,
    CurField {
        field: FlatUse,
    },
    PadField {
        field: FlatUse,
    },
    Not {
        of: Boxed<FlatExpr>,
    },
    Flip {
        of: Boxed<FlatExpr>,
    },
    Binary {
        op: BinaryOp,
        left: Boxed<FlatExpr>,
        right: Boxed<FlatExpr>,
    },
    At {
        base: Boxed<FlatExpr>,
        offset: Boxed<FlatExpr>,
    },
}

/// A list of flat statements.
pub type FlatBlock = Listed<FlatStmt>;

/// A flat statement.
#[derive(Debug, Drop)]
pub enum FlatStmt {
    /// A let, or an assignment to one.
    Local {
        slot: u8,
        value: FlatExpr,
    },
    /// A store to the pad.
    Pad {
        target: FlatUse,
        value: FlatExpr,
    },
    /// A store to the record.
    Cur {
        target: FlatUse,
        value: FlatExpr,
    },
    If {
        test: FlatExpr,
        yes: Listed<FlatStmt>,
        no: Listed<FlatStmt>,
    },
    Done,
    Go {
        to: FlatExpr,
    },
}

/// An iterator without loops, scopes and names: the bytes of its record and of its pad, the number of
/// its arguments, and its three parts.
#[derive(Debug, Drop)]
pub struct Flat {
    pub record_size: u16,
    pub pad_size: u16,
    pub args: u8,
    pub init_part: FlatBlock,
    pub end_part: FlatBlock,
    pub next_part: FlatBlock,
}
