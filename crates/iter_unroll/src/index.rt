// What an index is worth in a turn.

ghost use Rattle.std.specs.Prelude.{◌≡◌, option_map};
ghost use Rattle.iter_syntax.specs.Tree.{ex};
ghost use Rattle.iter_check.specs.Views.Worth.{worth};
ghost use Rattle.iter_unroll.specs.unrolling.Scope as t;
ghost use Rattle.iter_unroll.specs.unrolling.Views.{env_of};

use crate::scope::{Entry, Meant, find};
use iter_check::{Value, binary, flipped, negated, word};
use iter_syntax::Expr;

// The value of an expression of numbers and loop variables.
fn constant(entries: &[Entry], e: &Expr) -> Option<Value>
    ensures { option_map worth result ≡ t.constant (env_of entries.now) (ex e.now) }
{
    match e {
        Expr::Num { value, .. } => Some(Value::Number(*value)),
        Expr::Null { .. } => None,
        Expr::Name { name } => match find(entries, name) {
            Some(Meant::Number(i)) => Some(Value::Number(i)),
            None | Some(Meant::Slot(_) | Meant::Argument(_)) => None,
        },
        Expr::Cur { .. } => None,
        Expr::CurField { field, .. } | Expr::PadField { field, .. } => match &field.index {
            None => None,
            Some(_) => None,
        },
        Expr::Not { of, .. } => Some(negated(constant(entries, of.get())?)),
        Expr::Flip { of, .. } => Some(flipped(constant(entries, of.get())?)),
        Expr::Binary {
            op,
            left,
            right,
            ..
        } => {
            let v = constant(entries, left.get())?;
            let w = constant(entries, right.get())?;
            Some(binary(*op, v, w))
        }
        Expr::At { .. } => None,
    }
}

/// The number of an index of numbers and loop variables.
pub fn index(entries: &[Entry], e: &Expr) -> Option<u64>
    ensures { result ≡ t.index (env_of entries.now) (ex e.now) }
{
    match constant(entries, e) {
        None => None,
        Some(v) => word(v),
    }
}
