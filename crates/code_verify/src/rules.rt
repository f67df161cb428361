// The rules at one place, one function each.

ghost use Rattle.std.specs.Prelude.{◌≡◌, ◌+◌, ◌<◌, ◌^◌};
ghost use Rattle.pulse_isa.specs.Step.{is_inside};
ghost use Rattle.code_verify.specs.Rules.{is_load, is_end, are_registers, kind_fits, window_fits, pad_fits, target_in, jump_fits, broken_in, window_of};

use crate::bad::{BadKind, Sizes};
use pulse_isa::{Instr, Operands, row_of};

/// The window that the first instruction names.
#[derive(Clone, Copy)]
pub struct Loaded {
    pub off: u16,
    pub len: u16,
}

pub fn loaded_window(code: &[Instr]) -> Loaded
    ensures { record { off = result.off; len = result.len } ≡ window_of code.now }
{
    match code.first() {
        Some(&Instr::Load { off, len }) => Loaded { off, len },
        _ => Loaded { off: 0, len: 0 },
    }
}

fn loads(i: Instr) -> bool
    ensures { result ≡ is_load i }
{
    matches!(i, Instr::Load { .. })
}

fn ends(i: Instr) -> bool
    ensures { result ≡ is_end i }
{
    matches!(i, Instr::Return | Instr::NextIter { .. })
}

fn are_registers(operands: Operands) -> bool
    ensures { result ≡ are_registers operands }
{
    match operands {
        Operands::Window { .. } | Operands::Target { .. } | Operands::Nothing => true,
        Operands::Access { a, .. } | Operands::Register { a } | Operands::Constant { a, .. } => a
            < 16,
        Operands::TwoRegisters { a, b } | Operands::Branch { a, b, .. } => a < 16 && b < 16,
        Operands::ThreeRegisters { a, b, c } => a < 16 && b < 16 && c < 16,
    }
}

fn kind_is_right(init: bool, i: Instr) -> bool
    ensures { result ≡ kind_fits init i }
{
    match i {
        Instr::PutW { .. } | Instr::GetC { .. } => !init,
        _ => true,
    }
}

// Whether w bytes at `off` lie in the window.
fn covers(window: Loaded, off: u32, w: u8) -> bool
    ensures { result ≡ is_inside (record { off = window.off; len = window.len }) off w }
{
    let from = u64::from(window.off);
    let off = u64::from(off);
    from <= off && off + u64::from(w) <= from + u64::from(window.len)
}

fn window_is_right(size: u16, window: Loaded, i: Instr) -> bool
    ensures { result ≡ window_fits size (record { off = window.off; len = window.len }) i }
{
    match i {
        Instr::Load { off, len } => u32::from(off) + u32::from(len) <= u32::from(size),
        Instr::GetW { w, off, .. } | Instr::PutW { w, off, .. } => covers(window, off, w),
        _ => true,
    }
}

fn pad_is_right(size: u16, i: Instr) -> bool
    ensures { result ≡ pad_fits size i }
{
    match i {
        Instr::GetP { w, off, .. } | Instr::PutP { w, off, .. } => {
            u64::from(off) + u64::from(w) <= u64::from(size)
        }
        _ => true,
    }
}

fn target(operands: Operands) -> Option<u32>
    ensures { result ≡ target_in operands }
{
    match operands {
        Operands::Target { to } | Operands::Branch { to, .. } => Some(to),
        _ => None,
    }
}

fn jump_is_right(len: u32, place: u32, to: Option<u32>) -> bool
    ensures { result ≡ jump_fits len place to }
{
    match to {
        Some(to) => place < to && to < len,
        None => true,
    }
}

/// The first rule that the instruction at a place breaks, where `window` is what the code's first instruction names.
pub fn broken(sizes: Sizes, window: Loaded, len: u32, place: u32, i: Instr) -> Option<BadKind>
    requires { place < len }
    ensures { result ≡ broken_in sizes (record { off = window.off; len = window.len }) len place i }
{
    let operands = row_of(&i).operands;
    if place == 0 && !loads(i) {
        return Some(BadKind::NoLoad);
    }
    if place != 0 && loads(i) {
        return Some(BadKind::SecondLoad);
    }
    if !are_registers(operands) {
        return Some(BadKind::Register);
    }
    if !kind_is_right(sizes.init, i) {
        return Some(BadKind::Kind);
    }
    if !window_is_right(sizes.window, window, i) {
        return Some(BadKind::Window);
    }
    if !pad_is_right(sizes.pad, i) {
        return Some(BadKind::Pad);
    }
    if !jump_is_right(len, place, target(operands)) {
        return Some(BadKind::Jump);
    }
    if place + 1 >= len && !ends(i) {
        return Some(BadKind::FallsOff);
    }
    None
}
