// What code is verified for, and how it is refused.

/// What a segment is verified for.
#[derive(Clone, Copy, Debug, PartialEq, Eq)]
pub struct Sizes {
    /// Whether it is the segment that begins a walk, which has arguments and no record.
    pub init: bool,
    /// The bytes of the record, or of the arguments.
    pub window: u16,
    /// The bytes of the pad.
    pub pad: u16,
}

/// The first rule that code breaks.
#[derive(Clone, Copy, Debug, PartialEq, Eq)]
pub struct Bad {
    /// The place of the instruction that breaks it.
    pub at: u32,
    pub kind: BadKind,
}

/// The rules, in the order in which they are tried at one place.
#[derive(Clone, Copy, Debug, PartialEq, Eq)]
pub enum BadKind {
    /// There is no instruction.
    Empty,
    /// There are more than 8,192 instructions.
    TooLong,
    /// The first instruction is not `LOAD`.
    NoLoad,
    /// A `LOAD` stands past the first place.
    SecondLoad,
    /// A named register is above 15.
    Register,
    /// A `PUTW` or a `GETC` stands in init.
    Kind,
    /// A `LOAD` goes past the record or the arguments, or a `GETW` or a `PUTW` is not inside the window.
    Window,
    /// A `GETP` or a `PUTP` is not inside the pad.
    Pad,
    /// The target of a jump is not above its own place, or is not below the length.
    Jump,
    /// The last instruction is neither `RETURN` nor `NEXT_ITER`.
    FallsOff,
}
