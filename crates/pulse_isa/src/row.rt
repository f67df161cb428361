// The instruction table, a row for each instruction.

ghost use Rattle.std.specs.Prelude.{◌≡◌, ◌≤◌, length};
ghost use Rattle.pulse_isa.specs.Table.{row};

use crate::instr::Instr;

/// What a row names beside its opcode, in the order in which the listing names it. `a`, `b` and `c` are registers, `w`
/// is a width in bytes, `off` and `len` count bytes, `imm` is a number and `to` a place.
#[derive(Clone, Copy, Debug, PartialEq, Eq)]
pub enum Operands {
    Window { off: u16, len: u16 },
    Access { a: u8, w: u8, off: u32 },
    Register { a: u8 },
    Constant { a: u8, imm: u32 },
    TwoRegisters { a: u8, b: u8 },
    ThreeRegisters { a: u8, b: u8, c: u8 },
    Target { to: u32 },
    Branch { a: u8, b: u8, to: u32 },
    Nothing,
}

/// A row: the opcode, the mnemonic and the operands.
#[derive(Clone, Copy)]
pub struct Row {
    pub opcode: u8,
    pub mnemonic: &'static str,
    pub operands: Operands,
}

/// The row of an instruction.
pub fn row_of(i: &Instr) -> Row
    ensures opcode { result.opcode ≡ (row i.now).opcode }
    ensures mnemonic { result.mnemonic.now ≡ (row i.now).mnemonic }
    ensures operands { result.operands ≡ (row i.now).operands }
    ensures short { length result.mnemonic.now ≤ 9 }
{
    let (opcode, mnemonic, operands) = match *i {
        Instr::Load { off, len } => (0x01, "LOAD", Operands::Window { off, len }),
        Instr::GetW { a, w, off } => (0x02, "GETW", Operands::Access { a, w, off }),
        Instr::PutW { a, w, off } => (0x03, "PUTW", Operands::Access { a, w, off }),
        Instr::GetP { a, w, off } => (0x04, "GETP", Operands::Access { a, w, off }),
        Instr::PutP { a, w, off } => (0x05, "PUTP", Operands::Access { a, w, off }),
        Instr::GetC { a } => (0x06, "GETC", Operands::Register { a }),
        Instr::SetL { a, imm } => (0x07, "SETL", Operands::Constant { a, imm }),
        Instr::SetH { a, imm } => (0x08, "SETH", Operands::Constant { a, imm }),
        Instr::Mov { a, b } => (0x09, "MOV", Operands::TwoRegisters { a, b }),
        Instr::Add { a, b, c } => (0x10, "ADD", Operands::ThreeRegisters { a, b, c }),
        Instr::Sub { a, b, c } => (0x11, "SUB", Operands::ThreeRegisters { a, b, c }),
        Instr::Mul { a, b, c } => (0x12, "MUL", Operands::ThreeRegisters { a, b, c }),
        Instr::Div { a, b, c } => (0x13, "DIV", Operands::ThreeRegisters { a, b, c }),
        Instr::Mod { a, b, c } => (0x14, "MOD", Operands::ThreeRegisters { a, b, c }),
        Instr::And { a, b, c } => (0x15, "AND", Operands::ThreeRegisters { a, b, c }),
        Instr::Or { a, b, c } => (0x16, "OR", Operands::ThreeRegisters { a, b, c }),
        Instr::Xor { a, b, c } => (0x17, "XOR", Operands::ThreeRegisters { a, b, c }),
        Instr::Not { a, b } => (0x18, "NOT", Operands::TwoRegisters { a, b }),
        Instr::Shl { a, b, c } => (0x19, "SHL", Operands::ThreeRegisters { a, b, c }),
        Instr::Shr { a, b, c } => (0x1a, "SHR", Operands::ThreeRegisters { a, b, c }),
        Instr::Jmp { to } => (0x20, "JMP", Operands::Target { to }),
        Instr::Jeq { a, b, to } => (0x21, "JEQ", Operands::Branch { a, b, to }),
        Instr::Jne { a, b, to } => (0x22, "JNE", Operands::Branch { a, b, to }),
        Instr::Jlt { a, b, to } => (0x23, "JLT", Operands::Branch { a, b, to }),
        Instr::Jle { a, b, to } => (0x24, "JLE", Operands::Branch { a, b, to }),
        Instr::Return => (0x30, "RETURN", Operands::Nothing),
        Instr::NextIter { a } => (0x31, "NEXT_ITER", Operands::Register { a }),
    };
    Row {
        opcode,
        mnemonic,
        operands,
    }
}
