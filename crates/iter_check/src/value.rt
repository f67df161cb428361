// What expressions are worth, by the worth of their parts.

ghost use Rattle.std.specs.Prelude.{◌≡◌, ◌-◌, ◌^◌, MatchOption, nat_eq, ⊤};
ghost use Rattle.iter_syntax.specs.declared.tree.BinaryOp.TheVariants as op;
ghost use Rattle.iter_check.specs.Value as v;
ghost use Rattle.iter_check.specs.Views.Worth.{worth};

use iter_syntax::BinaryOp;

/// What an expression is worth: a number, a truth value, or a division by zero.
#[derive(Clone, Copy, Debug, PartialEq, Eq)]
pub enum Value {
    Number(u64),
    Truth(bool),
    DivZero,
}

/// The number that stands for a value, 1 or 0 for a truth value; a division by zero has none.
pub fn word(value: Value) -> Option<u64>
    ensures { result ≡ v.word (worth value) }
{
    match value {
        Value::Number(n) => Some(n),
        Value::Truth(b) => Some(if b { 1 } else { 0 }),
        Value::DivZero => None,
    }
}

fn divide(x: u64, y: u64) -> Value
    ensures { worth result ≡ v.apply op.Div x y }
{
    if y == 0 {
        Value::DivZero
    } else {
        Value::Number(x / y)
    }
}

fn remainder(x: u64, y: u64) -> Value
    ensures { worth result ≡ v.apply op.Mod x y }
{
    if y == 0 {
        Value::DivZero
    } else {
        Value::Number(x % y)
    }
}

/// A binary operator on two numbers. [`decided`] and [`binary`] have the meaning of `||` and `&&`.
pub fn apply(op: BinaryOp, x: u64, y: u64) -> Value
    ensures { worth result ≡ v.apply op x y }
{
    match op {
        BinaryOp::Or => Value::Number(y),
        BinaryOp::And => Value::Number(y),
        BinaryOp::Eq => Value::Truth(x == y),
        BinaryOp::Ne => Value::Truth(x != y),
        BinaryOp::Lt => Value::Truth(x < y),
        BinaryOp::Le => Value::Truth(x <= y),
        BinaryOp::Gt => Value::Truth(x > y),
        BinaryOp::Ge => Value::Truth(x >= y),
        BinaryOp::BitAnd => Value::Number(x & y),
        BinaryOp::BitOr => Value::Number(x | y),
        BinaryOp::BitXor => Value::Number(x ^ y),
        BinaryOp::Shl => Value::Number(x.wrapping_shl((y % 64) as u32)),
        BinaryOp::Shr => Value::Number(x.wrapping_shr((y % 64) as u32)),
        BinaryOp::Add => Value::Number(x.wrapping_add(y)),
        BinaryOp::Sub => Value::Number(x.wrapping_sub(y)),
        BinaryOp::Mul => Value::Number(x.wrapping_mul(y)),
        BinaryOp::Div => divide(x, y),
        BinaryOp::Mod => remainder(x, y),
    }
}

/// The value of a binary expression where its left side alone decides it.
pub fn decided(op: BinaryOp, left: Value) -> Option<Value>
    ensures { MatchOption result ⊤ (λ r. (right : v.Value) → worth r ≡ v.binary op (worth left) right) }
{
    match word(left) {
        None => Some(Value::DivZero),
        Some(0) => {
            if op == BinaryOp::And {
                Some(left)
            } else {
                None
            }
        }
        Some(_) => { if op == BinaryOp::Or { Some(left) } else { None } }
    }
}

/// The value of a binary expression by those of its sides.
pub fn binary(op: BinaryOp, left: Value, right: Value) -> Value
    ensures { worth result ≡ v.binary op (worth left) (worth right) }
{
    match word(left) {
        None => Value::DivZero,
        Some(x) => match op {
            BinaryOp::Or => if x == 0 { right } else { left },
            BinaryOp::And => if x == 0 { left } else { right },
            _ => match word(right) {
                None => Value::DivZero,
                Some(y) => apply(op, x, y),
            },
        },
    }
}

/// The value of `!` on a value.
pub fn negated(value: Value) -> Value
    ensures { worth result ≡ v.one (λ x. v.Truth (nat_eq x 0)) (v.word (worth value)) }
{
    match word(value) {
        None => Value::DivZero,
        Some(x) => Value::Truth(x == 0),
    }
}

/// The value of `~` on a value.
pub fn flipped(value: Value) -> Value
    ensures { worth result ≡ v.one (λ x. v.Number (2 ^ 64 - 1 - x)) (v.word (worth value)) }
{
    match word(value) {
        None => Value::DivZero,
        Some(x) => Value::Number(u64::MAX - x),
    }
}

/// The value of a pointer `offset` bytes from `base`.
pub fn moved(base: Value, offset: Value) -> Value
    ensures { worth result ≡ v.both (v.apply op.Add) (v.word (worth base)) (v.word (worth offset)) }
{
    match word(base) {
        None => Value::DivZero,
        Some(x) => match word(offset) {
            None => Value::DivZero,
            Some(y) => apply(BinaryOp::Add, x, y),
        },
    }
}
