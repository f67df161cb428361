// The code of an expression: as a value in a register, as an operand, and as a jump.

ghost use Rattle.std.specs.Prelude.{◌≡◌, ◌≤◌, ◌<◌, ◌+◌, ◌*◌, ◌^◌, ◌++◌, ◌∷◌, [], ℕ, max, length, OnOk, IfOk};
ghost use Rattle.pulse_isa.specs.declared.instr.Instr.TheVariants as i;
ghost use Rattle.iter_unroll.specs.Tree.{fx};
ghost use Rattle.iter_unroll.specs.Limits.{fx_nodes};
ghost use Rattle.iter_check.specs.Layout.{width_bytes};
ghost use Rattle.flat_code.specs.Operator.{computes, jumps};
ghost use Rattle.flat_code.specs.Code.{test, operand, operand_code, two_code, compute, compare, num_code, move, joined_value, joined_target, joined, code_of, height};

use crate::lengths::measure;
use flat_code::{Way, computing, jumping, way_for};
use iter_syntax::{BinaryOp, Width};
use iter_unroll::{FlatExpr, FlatUse};
use pulse_base::{Listed, Memory};
use pulse_isa::Instr;

/// The instructions of a segment, by their places.
pub(crate) type Code = Listed<Instr>;

/// The register that is never written.
const ZERO: u8 = 15;

/// How many bytes a width has.
pub(crate) fn bytes(width: Width) -> u8
    ensures { result ≡ width_bytes width }
{
    match width {
        Width::U8 => 1,
        Width::U16 => 2,
        Width::U32 => 4,
        Width::U64 | Width::Ptr => 8,
    }
}

// An argument into a register.
fn argument(d: u8, number: u8) -> Instr
    ensures { result ≡ i.GetW d 8 (8 * number) }
{
    Instr::GetW {
        a: d,
        w: 8,
        off: 8 * u32::from(number),
    }
}

// A field of the record into a register.
fn record_field(d: u8, field: FlatUse) -> Instr
    ensures { result ≡ i.GetW d (width_bytes field.width) field.off }
{
    Instr::GetW {
        a: d,
        w: bytes(field.width),
        off: u32::from(field.off),
    }
}

// A field of the pad into a register.
fn pad_field(d: u8, field: FlatUse) -> Instr
    ensures { result ≡ i.GetP d (width_bytes field.width) field.off }
{
    Instr::GetP {
        a: d,
        w: bytes(field.width),
        off: u32::from(field.off),
    }
}

// A jump by the truth of a register.
fn testing(sense: bool, register: u8, to: u32) -> Instr
    ensures { result ≡ test sense register to }
{
    if sense {
        Instr::Jne {
            a: register,
            b: ZERO,
            to,
        }
    } else {
        Instr::Jeq {
            a: register,
            b: ZERO,
            to,
        }
    }
}

// Where the left side of `||` or `&&` jumps.
fn target(short: bool, sense: bool, to: u32, past: u32) -> u32
    ensures { result ≡ joined_target short sense to past }
{
    if short == sense { to } else { past }
}

// A number in a register.
fn emit_number(code: &mut Code, value: u64, d: u8) -> Result<(), Memory>
    ensures { OnOk result ((t here : ℕ) → code.new ≡ code.old ++ (num_code value).value d t here) }
{
    if value == 0 {
        return code.push(Instr::Mov { a: d, b: ZERO });
    }
    let low = (value % 0x1_0000_0000) as u32;
    let high = (value / 0x1_0000_0000) as u32;
    code.push(Instr::SetL { a: d, imm: low })?;
    if high != 0 {
        code.push(Instr::SetH { a: d, imm: high })?;
    }
    Ok(())
}

// 1 in a register, or 0 where a jump came to the last of these.
fn emit_bit(code: &mut Code, d: u8) -> Result<(), Memory>
    requires room { length code.old < 2 ^ 31 }
    ensures { OnOk result (code.new ≡ code.old ++ (i.SetL d 1 ∷ i.Jmp (length code.old + 3) ∷ i.SetL d 0 ∷ [])) }
{
    let to = code.len() as u32 + 3;
    code.push(Instr::SetL { a: d, imm: 1 })?;
    code.push(Instr::Jmp { to })?;
    code.push(Instr::SetL { a: d, imm: 0 })
}

fn emit_move(code: &mut Code, d: u8, t: u8) -> Result<(), Memory>
    ensures { OnOk result (code.new ≡ code.old ++ move d t) }
{
    if d == t {
        Ok(())
    } else {
        code.push(Instr::Mov { a: d, b: t })
    }
}

/// The value of an expression into register `d`, with the registers from `t` on at hand.
#[cycle(emit)]
pub(crate) fn emit_value(code: &mut Code, e: &FlatExpr, d: u8, t: u8) -> Result<(), Memory>
    requires registers { t + height (fx e.now) < 15 }
    requires few { fx_nodes (fx e.now) ≤ 2000 }
    requires room { length code.old + 4 * fx_nodes (fx e.now) < 2 ^ 20 }
    ensures { OnOk result (code.new ≡ code.old ++ (code_of (fx e.now)).value d t (length code.old)) }
{
    match e {
        FlatExpr::Num { value } => emit_number(code, *value, d),
        FlatExpr::Null => code.push(Instr::Mov { a: d, b: ZERO }),
        FlatExpr::Arg { number } => code.push(argument(d, *number)),
        FlatExpr::Local { slot } => code.push(Instr::Mov { a: d, b: *slot }),
        FlatExpr::Cur => code.push(Instr::GetC { a: d }),
        FlatExpr::CurField { field } => code.push(record_field(d, *field)),
        FlatExpr::PadField { field } => code.push(pad_field(d, *field)),
        FlatExpr::Not { of } => {
            let last = code.len() as u32 + measure(of.get()).branch + 2;
            emit_branch(code, of.get(), true, last, t)?;
            emit_bit(code, d)
        }
        FlatExpr::Flip { of } => {
            let b = emit_operand(code, of.get(), t)?;
            code.push(Instr::Not { a: d, b })
        }
        FlatExpr::Binary { op, left, right } => match way_for(*op) {
            Way::Joined { short } => emit_joined(code, short, left.get(), right.get(), d, t),
            Way::Compared => {
                let (a, b) = (measure(left.get()), measure(right.get()));
                let last = code.len() as u32 + (a.operand() + b.operand() + 1) + 2;
                emit_compared(code, *op, left.get(), right.get(), false, last, t)?;
                emit_bit(code, d)
            }
            Way::Computed => emit_computed(code, *op, left.get(), right.get(), d, t),
        },
        FlatExpr::At { base, offset } => {
            emit_computed(code, BinaryOp::Add, base.get(), offset.get(), d, t)
        }
    }
}

// An expression in some register: where it stands already, or in `t`.
#[cycle(emit)]
pub(crate) fn emit_operand(code: &mut Code, e: &FlatExpr, t: u8) -> Result<u8, Memory>
    requires registers { t + height (fx e.now) < 15 }
    requires few { fx_nodes (fx e.now) ≤ 2000 }
    requires room { length code.old + 4 * fx_nodes (fx e.now) < 2 ^ 20 }
    ensures code { OnOk result (code.new ≡ code.old ++ operand_code (code_of (fx e.now)) t (length code.old)) }
    ensures register { IfOk result (λ r. r ≡ operand (code_of (fx e.now)).home t) }
{
    match measure(e).home {
        Some(register) => Ok(register),
        None => {
            emit_value(code, e, t, t)?;
            Ok(t)
        }
    }
}

// Two operands, one after the other.
#[cycle(emit)]
fn emit_two(code: &mut Code, left: &FlatExpr, right: &FlatExpr, t: u8) -> Result<(u8, u8), Memory>
    requires registers { t + max (height (fx left.now)) (height (fx right.now) + 1) < 15 }
    requires few { fx_nodes (fx left.now) + fx_nodes (fx right.now) ≤ 2000 }
    requires room { length code.old + 4 * (fx_nodes (fx left.now) + fx_nodes (fx right.now)) < 2 ^ 20 }
    ensures code { OnOk result (code.new ≡ code.old ++ two_code (code_of (fx left.now)) (code_of (fx right.now)) t (length code.old)) }
    ensures left { IfOk result (λ r. r.0 ≡ operand (code_of (fx left.now)).home t) }
    ensures right { IfOk result (λ r. r.1 ≡ operand (code_of (fx right.now)).home (t + 1)) }
{
    let a = emit_operand(code, left, t)?;
    let b = emit_operand(code, right, t + 1)?;
    Ok((a, b))
}

#[cycle(emit)]
fn emit_computed(
    code: &mut Code,
    op: BinaryOp,
    left: &FlatExpr,
    right: &FlatExpr,
    d: u8,
    t: u8,
) -> Result<(), Memory>
    requires registers { t + max (height (fx left.now)) (height (fx right.now) + 1) < 15 }
    requires few { fx_nodes (fx left.now) + fx_nodes (fx right.now) ≤ 2000 }
    requires room { length code.old + 4 * (fx_nodes (fx left.now) + fx_nodes (fx right.now)) < 2 ^ 20 }
    ensures { OnOk result (code.new ≡ code.old ++ (compute (computes op) (code_of (fx left.now)) (code_of (fx right.now))).value d t (length code.old)) }
{
    let (b, c) = emit_two(code, left, right, t)?;
    code.push(computing(op, d, b, c))
}

#[cycle(emit)]
fn emit_compared(
    code: &mut Code,
    op: BinaryOp,
    left: &FlatExpr,
    right: &FlatExpr,
    sense: bool,
    to: u32,
    t: u8,
) -> Result<(), Memory>
    requires registers { t + max (height (fx left.now)) (height (fx right.now) + 1) < 15 }
    requires few { fx_nodes (fx left.now) + fx_nodes (fx right.now) ≤ 2000 }
    requires room { length code.old + 4 * (fx_nodes (fx left.now) + fx_nodes (fx right.now)) < 2 ^ 20 }
    ensures { OnOk result (code.new ≡ code.old ++ (compare (jumps op) (code_of (fx left.now)) (code_of (fx right.now))).branch sense to t (length code.old)) }
{
    let (a, b) = emit_two(code, left, right, t)?;
    code.push(jumping(op, sense, a, b, to))
}

// The left side, and the right side unless the truth of the left is `short`.
#[cycle(emit)]
fn emit_joined(
    code: &mut Code,
    short: bool,
    left: &FlatExpr,
    right: &FlatExpr,
    d: u8,
    t: u8,
) -> Result<(), Memory>
    requires registers { t + max (height (fx left.now)) (height (fx right.now) + 1) < 15 }
    requires few { fx_nodes (fx left.now) + fx_nodes (fx right.now) ≤ 2000 }
    requires room { length code.old + 4 * (fx_nodes (fx left.now) + fx_nodes (fx right.now)) + 4 < 2 ^ 20 }
    ensures { OnOk result (code.new ≡ code.old ++ joined_value short (code_of (fx left.now)) (code_of (fx right.now)) d t (length code.old)) }
{
    let past = code.len() as u32 + measure(left).value + 1 + measure(right).value;
    emit_value(code, left, t, t)?;
    code.push(testing(short, t, past))?;
    emit_value(code, right, t, t)?;
    emit_move(code, d, t)
}

// A jump by both sides of `||` or `&&`.
#[cycle(emit)]
fn branch_joined(
    code: &mut Code,
    short: bool,
    left: &FlatExpr,
    right: &FlatExpr,
    sense: bool,
    to: u32,
    t: u8,
) -> Result<(), Memory>
    requires registers { t + max (height (fx left.now)) (height (fx right.now) + 1) < 15 }
    requires few { fx_nodes (fx left.now) + fx_nodes (fx right.now) ≤ 2000 }
    requires room { length code.old + 4 * (fx_nodes (fx left.now) + fx_nodes (fx right.now)) + 4 < 2 ^ 20 }
    ensures { OnOk result (code.new ≡ code.old ++ (joined short (code_of (fx left.now)) (code_of (fx right.now))).branch sense to t (length code.old)) }
{
    let past = code.len() as u32 + measure(left).branch + measure(right).branch;
    emit_branch(code, left, short, target(short, sense, to, past), t)?;
    emit_branch(code, right, sense, to, t)
}

/// A jump to `to` where the truth of an expression is `sense`, with the registers from `t` on at hand.
#[cycle(emit)]
pub(crate) fn emit_branch(
    code: &mut Code,
    e: &FlatExpr,
    sense: bool,
    to: u32,
    t: u8,
) -> Result<(), Memory>
    requires registers { t + height (fx e.now) < 15 }
    requires few { fx_nodes (fx e.now) ≤ 2000 }
    requires room { length code.old + 4 * fx_nodes (fx e.now) < 2 ^ 20 }
    ensures { OnOk result (code.new ≡ code.old ++ (code_of (fx e.now)).branch sense to t (length code.old)) }
{
    match e {
        FlatExpr::Not { of } => emit_branch(code, of.get(), !sense, to, t),
        FlatExpr::Binary { op, left, right } => match way_for(*op) {
            Way::Joined { short } => {
                branch_joined(code, short, left.get(), right.get(), sense, to, t)
            }
            Way::Compared => emit_compared(code, *op, left.get(), right.get(), sense, to, t),
            Way::Computed => emit_test(code, e, sense, to, t),
        },
        _ => emit_test(code, e, sense, to, t),
    }
}

// A jump by an operand.
#[cycle(emit)]
fn emit_test(code: &mut Code, e: &FlatExpr, sense: bool, to: u32, t: u8) -> Result<(), Memory>
    requires registers { t + height (fx e.now) < 15 }
    requires few { fx_nodes (fx e.now) ≤ 2000 }
    requires room { length code.old + 4 * fx_nodes (fx e.now) < 2 ^ 20 }
    ensures { OnOk result (code.new ≡ code.old ++ (operand_code (code_of (fx e.now)) t (length code.old) ++ test sense (operand (code_of (fx e.now)).home t) to ∷ [])) }
{
    let register = emit_operand(code, e, t)?;
    code.push(testing(sense, register, to))
}
