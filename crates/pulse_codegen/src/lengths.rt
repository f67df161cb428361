// How many instructions the code of an expression has, before any of it is there.

ghost use Rattle.std.specs.Prelude.{◌≡◌, ◌≤◌, ◌<◌, ◌+◌, ◌*◌, ◌^◌, max, None};
ghost use Rattle.iter_syntax.specs.declared.tree.BinaryOp.{BinaryOp};
ghost use Rattle.iter_unroll.specs.Tree.{fx};
ghost use Rattle.iter_unroll.specs.Limits.{fx_nodes};
ghost use Rattle.flat_code.specs.declared.operator.Way.{Way};
ghost use Rattle.flat_code.specs.Code.{Code, operand_len, at_home, by_value, by_branch, by_way, num_code, code_of};
ghost use Rattle.pulse_codegen.specs.Measures.{Measures};

use flat_code::{Way, way_for};
use iter_unroll::FlatExpr;

/// The numbers of instructions of an expression's code: as a value where it is computed, as a value in another
/// register, and as a jump; and the register that holds the value without any.
#[derive(Clone, Copy)]
pub(crate) struct Lengths {
    pub value: u32,
    pub slot: u32,
    pub branch: u32,
    pub home: Option<u8>,
}

impl Lengths {
    fn at_home(register: u8) -> Lengths
        ensures lengths { Measures result (at_home register) }
        ensures value { result.value ≡ 1 }
        ensures slot { result.slot ≡ 1 }
        ensures branch { result.branch ≡ 1 }
    {
        Lengths {
            value: 1,
            slot: 1,
            branch: 1,
            home: Some(register),
        }
    }

    fn by_value(count: u32) -> Lengths
        requires { count < 2 ^ 20 }
        ensures length { result.value ≡ count }
        ensures slot { result.slot ≡ count }
        ensures branch { result.branch ≡ count + 1 }
        ensures home { result.home ≡ None }
    {
        Lengths {
            value: count,
            slot: count,
            branch: count + 1,
            home: None,
        }
    }

    fn by_branch(count: u32) -> Lengths
        requires { count < 2 ^ 20 }
        ensures length { result.value ≡ count + 3 }
        ensures slot { result.slot ≡ count + 3 }
        ensures branch { result.branch ≡ count }
        ensures home { result.home ≡ None }
    {
        Lengths {
            value: count + 3,
            slot: count + 3,
            branch: count,
            home: None,
        }
    }

    /// How many instructions bring the value into some register.
    pub fn operand(self) -> u32
        ensures length { (c : Code) → Measures self c → result ≡ operand_len c }
        ensures most { result ≤ self.value }
    {
        match self.home {
            Some(_) => 0,
            None => self.value,
        }
    }
}

fn number_lengths(value: u64) -> Lengths
    ensures lengths { Measures result (num_code value) }
    ensures value { result.value ≤ 2 }
    ensures slot { result.slot ≤ 2 }
    ensures branch { result.branch ≤ 3 }
{
    if value == 0 {
        Lengths::at_home(15)
    } else if value >> 32 == 0 {
        Lengths::by_value(1)
    } else {
        Lengths::by_value(2)
    }
}

// A binary operator, by the lengths of its sides.
fn way_lengths(way: Way, a: Lengths, b: Lengths) -> Lengths
    requires left { (a.value < 2 ^ 16) × (a.branch < 2 ^ 16) }
    requires right { (b.value < 2 ^ 16) × (b.branch < 2 ^ 16) }
    ensures value { result.value ≤ a.value + b.value + 4 }
    ensures slot { result.slot ≤ a.value + b.value + 4 }
    ensures branch { result.branch ≤ max (a.branch + b.branch) (a.value + b.value + 2) }
    ensures lengths { (o : BinaryOp) (x y : Code) → Measures a x → Measures b y → Measures result (by_way way o x y) }
{
    match way {
        Way::Joined { .. } => Lengths {
            value: a.value + 1 + b.value,
            slot: a.value + 1 + b.value + 1,
            branch: a.branch + b.branch,
            home: None,
        },
        Way::Compared => Lengths::by_branch(a.operand() + b.operand() + 1),
        Way::Computed => Lengths::by_value(a.operand() + b.operand() + 1),
    }
}

/// The lengths of an expression's code.
pub(crate) fn measure(e: &FlatExpr) -> Lengths
    requires few { fx_nodes (fx e.now) ≤ 2000 }
    ensures lengths { Measures result (code_of (fx e.now)) }
    ensures value { result.value ≤ 4 * fx_nodes (fx e.now) }
    ensures slot { result.slot ≤ 4 * fx_nodes (fx e.now) }
    ensures branch { result.branch + 1 ≤ 4 * fx_nodes (fx e.now) }
{
    match e {
        FlatExpr::Num { value } => number_lengths(*value),
        FlatExpr::Null => Lengths::at_home(15),
        FlatExpr::Local { slot } => Lengths::at_home(*slot),
        FlatExpr::Arg { .. } => Lengths::by_value(1),
        FlatExpr::Cur => Lengths::by_value(1),
        FlatExpr::CurField { .. } => Lengths::by_value(1),
        FlatExpr::PadField { .. } => Lengths::by_value(1),
        FlatExpr::Not { of } => Lengths::by_branch(measure(of.get()).branch),
        FlatExpr::Flip { of } => Lengths::by_value(measure(of.get()).operand() + 1),
        FlatExpr::Binary { op, left, right } => {
            way_lengths(way_for(*op), measure(left.get()), measure(right.get()))
        }
        FlatExpr::At { base, offset } => {
            way_lengths(Way::Computed, measure(base.get()), measure(offset.get()))
        }
    }
}
