// Instructions as lines of a listing.

ghost use Rattle.std.specs.Prelude.{◌≡◌, ◌+◌, ◌≤◌, ◌++◌, length};
ghost use Rattle.arrayvec.specs.ArrayVec.{array_vec_len};
ghost use Rattle.pulse_isa.specs.Lines.{register, number, operand_text, line_text};

use crate::instr::Instr;
use crate::row::{Operands, row_of};
use arrayvec::ArrayVec;
use itoa::Buffer;

/// The text of an instruction: its mnemonic, and after a space each the operands of its row. A register is `r` and
/// its number; a width, an offset, a length and an immediate are numbers. All numbers are decimal.
pub fn line(i: &Instr) -> ArrayVec<u8, 40>
    ensures { result.items ≡ line_text i.now }
{
    let row = row_of(i);
    let mut text = ArrayVec::new();
    put(&mut text, row.mnemonic.as_bytes());
    put_operands(&mut text, row.operands);
    text
}

// Appends the operands, each after a space.
fn put_operands(text: &mut ArrayVec<u8, 40>, operands: Operands)
    requires { array_vec_len text.old ≤ 9 }
    ensures { text.new.items ≡ text.old.items ++ operand_text operands }
{
    match operands {
        Operands::Window { off, len } => {
            put_number(text, u32::from(off));
            put_number(text, u32::from(len));
        }
        Operands::Access { a, w, off } => {
            put_register(text, a);
            put_number(text, u32::from(w));
            put_number(text, off);
        }
        Operands::Register { a } => put_register(text, a),
        Operands::Constant { a, imm } => {
            put_register(text, a);
            put_number(text, imm);
        }
        Operands::TwoRegisters { a, b } => {
            put_register(text, a);
            put_register(text, b);
        }
        Operands::ThreeRegisters { a, b, c } => {
            put_register(text, a);
            put_register(text, b);
            put_register(text, c);
        }
        Operands::Target { to } => put_number(text, to),
        Operands::Branch { a, b, to } => {
            put_register(text, a);
            put_register(text, b);
            put_number(text, to);
        }
        Operands::Nothing => {}
    }
}

fn put_register(text: &mut ArrayVec<u8, 40>, r: u8)
    requires { array_vec_len text.old + 5 ≤ 40 }
    ensures text { text.new.items ≡ text.old.items ++ register r }
    ensures room { array_vec_len text.new ≤ array_vec_len text.old + 5 }
{
    put(text, b" r");
    put(text, Buffer::new().format(r).as_bytes());
}

fn put_number(text: &mut ArrayVec<u8, 40>, n: u32)
    requires { array_vec_len text.old + 11 ≤ 40 }
    ensures text { text.new.items ≡ text.old.items ++ number n }
    ensures room { array_vec_len text.new ≤ array_vec_len text.old + 11 }
{
    put(text, b" ");
    put(text, Buffer::new().format(n).as_bytes());
}

// Appends bytes, for which there is room.
fn put(text: &mut ArrayVec<u8, 40>, bytes: &[u8])
    requires { array_vec_len text.old + length bytes.now ≤ 40 }
    ensures text { text.new.items ≡ text.old.items ++ bytes.now }
    ensures len { array_vec_len text.new ≡ array_vec_len text.old + length bytes.now }
{
    text.try_extend_from_slice(bytes).unwrap();
}
