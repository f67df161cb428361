// Which instruction an operator becomes.

ghost use Rattle.std.specs.Prelude.{◌≡◌, ◌<◌, ◌^◌};
ghost use Rattle.flat_code.specs.Operator.{way_of, computes, jumps};

use iter_syntax::BinaryOp;
use pulse_isa::Instr;

/// How the code of a binary operator is made.
#[derive(Clone, Copy, Debug, PartialEq, Eq)]
pub enum Way {
    /// `||` and `&&`: the right side is passed over where the left side's truth is `short`.
    Joined { short: bool },
    /// A comparison: one jump.
    Compared,
    /// Any other: one instruction of three registers.
    Computed,
}

/// How the code of an operator is made.
pub fn way_for(op: BinaryOp) -> Way
    ensures { result ≡ way_of op }
{
    match op {
        BinaryOp::Or => Way::Joined { short: true },
        BinaryOp::And => Way::Joined { short: false },
        BinaryOp::Eq | BinaryOp::Ne | BinaryOp::Lt | BinaryOp::Le | BinaryOp::Gt | BinaryOp::Ge =>
            Way::Compared,
        BinaryOp::BitAnd
        | BinaryOp::BitOr
        | BinaryOp::BitXor
        | BinaryOp::Shl
        | BinaryOp::Shr
        | BinaryOp::Add
        | BinaryOp::Sub
        | BinaryOp::Mul
        | BinaryOp::Div
        | BinaryOp::Mod => Way::Computed,
    }
}

/// The instruction that puts `op` of registers `b` and `c` into register `a`.
pub fn computing(op: BinaryOp, a: u8, b: u8, c: u8) -> Instr
    ensures { result ≡ computes op a b c }
{
    match op {
        BinaryOp::BitAnd => Instr::And { a, b, c },
        BinaryOp::BitOr => Instr::Or { a, b, c },
        BinaryOp::BitXor => Instr::Xor { a, b, c },
        BinaryOp::Shl => Instr::Shl { a, b, c },
        BinaryOp::Shr => Instr::Shr { a, b, c },
        BinaryOp::Sub => Instr::Sub { a, b, c },
        BinaryOp::Mul => Instr::Mul { a, b, c },
        BinaryOp::Div => Instr::Div { a, b, c },
        BinaryOp::Mod => Instr::Mod { a, b, c },
        _ => Instr::Add { a, b, c },
    }
}

/// The instruction that jumps to `to` where `op` of registers `a` and `b` is `sense`.
pub fn jumping(op: BinaryOp, sense: bool, a: u8, b: u8, to: u32) -> Instr
    ensures { result ≡ jumps op sense a b to }
{
    match (op, sense) {
        (BinaryOp::Eq, true) | (BinaryOp::Ne, false) => Instr::Jeq { a, b, to },
        (BinaryOp::Eq, false) | (BinaryOp::Ne, true) => Instr::Jne { a, b, to },
        (BinaryOp::Lt, true) | (BinaryOp::Ge, false) => Instr::Jlt { a, b, to },
        (BinaryOp::Le, true) | (BinaryOp::Gt, false) => Instr::Jle { a, b, to },
        (BinaryOp::Gt, true) | (BinaryOp::Le, false) => Instr::Jlt { a: b, b: a, to },
        (BinaryOp::Ge, true) | (BinaryOp::Lt, false) => Instr::Jle { a: b, b: a, to },
        _ => Instr::Jmp { to },
    }
}
