// Instructions as words of eight bytes.

ghost use Rattle.std.specs.Prelude.{◌≡◌, ◌↔◌, Some, IfSome};
ghost use Rattle.pulse_isa.specs.Bytes.{is_width};
ghost use Rattle.pulse_isa.specs.Table.{row};
ghost use Rattle.pulse_isa.specs.Spelling.{has_spelling, HasSpelling};
ghost use Rattle.pulse_isa.specs.Words.{Fits, word, placed, spelling, Spells};
ghost use Rattle.pulse_isa.specs.Opcodes.{moving, computing, leading, named};
ghost use Rattle.pulse_isa.specs.declared.instr.Instr.{Instr};

use crate::instr::Instr;
use crate::row::{Operands, row_of};

/// The word that spells an instruction: its opcode, `a`, `b`, `c`, and a little-endian immediate of 32 bits.
/// What its row does not name is zero.
pub fn to_word(i: &Instr) -> [u8; 8]
    requires { HasSpelling i.now }
    ensures spelling { result ≡ spelling i.now }
    ensures fits { Fits (row i.now).operands }
{
    let row = row_of(i);
    placed(row.opcode, row.operands)
}

/// The instruction that a word spells, or `None` where it spells none: no row has its opcode, a field that the row
/// does not name is not zero, or the width is none of 1, 2, 4 and 8.
pub fn from_word(w: &[u8; 8]) -> Option<Instr>
    ensures spells { IfSome result (λ i. Spells i w.now) }
    ensures exact { (i : Instr) → (result ≡ Some i) ↔ Spells i w.now }
{
    let imm = u32::from_le_bytes([w[4], w[5], w[6], w[7]]);
    let i = named(w[0], w[1], w[2], w[3], imm)?;
    if has_spelling(&i) && to_word(&i) == *w {
        Some(i)
    } else {
        None
    }
}

// The word of an opcode and its operands.
fn placed(opcode: u8, operands: Operands) -> [u8; 8]
    ensures word { result ≡ placed opcode operands }
    ensures fits { Fits operands }
{
    match operands {
        Operands::Window { off, len } => {
            word(opcode, 0, 0, 0, u32::from(off) + u32::from(len) * 65536)
        }
        Operands::Access { a, w, off } => word(opcode, a, w, 0, off),
        Operands::Register { a } => word(opcode, a, 0, 0, 0),
        Operands::Constant { a, imm } => word(opcode, a, 0, 0, imm),
        Operands::TwoRegisters { a, b } => word(opcode, a, b, 0, 0),
        Operands::ThreeRegisters { a, b, c } => word(opcode, a, b, c, 0),
        Operands::Target { to } => word(opcode, 0, 0, 0, to),
        Operands::Branch { a, b, to } => word(opcode, a, b, 0, to),
        Operands::Nothing => word(opcode, 0, 0, 0, 0),
    }
}

fn word(opcode: u8, a: u8, b: u8, c: u8, imm: u32) -> [u8; 8]
    ensures { result ≡ word opcode a b c imm }
{
    let [low, second, third, high] = imm.to_le_bytes();
    [opcode, a, b, c, low, second, third, high]
}

// Whether the width, if there is one, is one that a word can spell.
fn has_spelling(i: &Instr) -> bool
    ensures { result ≡ has_spelling i.now }
{
    match *i {
        Instr::GetW { w, .. } | Instr::PutW { w, .. } => is_width(w),
        Instr::GetP { w, .. } | Instr::PutP { w, .. } => is_width(w),
        _ => true,
    }
}

fn is_width(w: u8) -> bool
    ensures { result ≡ is_width w }
{
    w == 1 || w == 2 || w == 4 || w == 8
}

// The instruction that the opcode names, read from the fields of a word. Other fields are not looked at.
fn named(opcode: u8, a: u8, b: u8, c: u8, imm: u32) -> Option<Instr>
    ensures value { result ≡ named opcode a b c imm }
    ensures fits { IfSome result (λ i. Fits (row i).operands) }
{
    if opcode < 0x10 {
        moving(opcode, a, b, imm)
    } else if opcode < 0x20 {
        computing(opcode, a, b, c)
    } else {
        leading(opcode, a, b, imm)
    }
}

fn moving(opcode: u8, a: u8, b: u8, imm: u32) -> Option<Instr>
    ensures value { result ≡ moving opcode a b imm }
    ensures fits { IfSome result (λ i. Fits (row i).operands) }
{
    match opcode {
        0x01 => Some(Instr::Load {
            off: (imm % 65536) as u16,
            len: (imm / 65536) as u16,
        }),
        0x02 => Some(Instr::GetW { a, w: b, off: imm }),
        0x03 => Some(Instr::PutW { a, w: b, off: imm }),
        0x04 => Some(Instr::GetP { a, w: b, off: imm }),
        0x05 => Some(Instr::PutP { a, w: b, off: imm }),
        0x06 => Some(Instr::GetC { a }),
        0x07 => Some(Instr::SetL { a, imm }),
        0x08 => Some(Instr::SetH { a, imm }),
        0x09 => Some(Instr::Mov { a, b }),
        _ => None,
    }
}

fn computing(opcode: u8, a: u8, b: u8, c: u8) -> Option<Instr>
    ensures value { result ≡ computing opcode a b c }
    ensures fits { IfSome result (λ i. Fits (row i).operands) }
{
    match opcode {
        0x10 => Some(Instr::Add { a, b, c }),
        0x11 => Some(Instr::Sub { a, b, c }),
        0x12 => Some(Instr::Mul { a, b, c }),
        0x13 => Some(Instr::Div { a, b, c }),
        0x14 => Some(Instr::Mod { a, b, c }),
        0x15 => Some(Instr::And { a, b, c }),
        0x16 => Some(Instr::Or { a, b, c }),
        0x17 => Some(Instr::Xor { a, b, c }),
        0x18 => Some(Instr::Not { a, b }),
        0x19 => Some(Instr::Shl { a, b, c }),
        0x1a => Some(Instr::Shr { a, b, c }),
        _ => None,
    }
}

fn leading(opcode: u8, a: u8, b: u8, imm: u32) -> Option<Instr>
    ensures value { result ≡ leading opcode a b imm }
    ensures fits { IfSome result (λ i. Fits (row i).operands) }
{
    match opcode {
        0x20 => Some(Instr::Jmp { to: imm }),
        0x21 => Some(Instr::Jeq { a, b, to: imm }),
        0x22 => Some(Instr::Jne { a, b, to: imm }),
        0x23 => Some(Instr::Jlt { a, b, to: imm }),
        0x24 => Some(Instr::Jle { a, b, to: imm }),
        0x30 => Some(Instr::Return),
        0x31 => Some(Instr::NextIter { a }),
        _ => None,
    }
}
