// What an expression is worth.

ghost use Rattle.std.specs.Prelude.{◌≡◌};
ghost use Rattle.iter_syntax.specs.Tree.{ex};
ghost use Rattle.iter_check.specs.Value as v;
ghost use Rattle.iter_check.specs.FieldValue.{read_item};
ghost use Rattle.iter_check.specs.Layout.{text, find_field};
ghost use Rattle.iter_check.specs.Views.Worth.{worth};
ghost use Rattle.iter_check.specs.declared.value.Value.TheVariants as value;
ghost use Rattle.flat_run.specs.Views.Interpreter.{setting_of, state_of};

use iter_check::{Names, Value, binary, decided, flipped, moved, negated, read_item, word};
use iter_syntax::{Expr, FieldDecl, Word};

/// What stays the same while an iteration runs: the fields of its record and of its pad, the pointer
/// to the record, and whether the record may be written.
#[derive(Clone, Copy)]
pub struct Setting<'a> {
    pub record_fields: &'a [FieldDecl],
    pub pad_fields: &'a [FieldDecl],
    pub cur: u64,
    pub writable: bool,
}

/// What the statements of an iteration change.
#[derive(Debug, Drop)]
pub struct State {
    pub record: Vec<u8>,
    pub pad: Vec<u8>,
    pub names: Names,
}

// The value of an element of a field.
fn item(fields: &[FieldDecl], name: &Word, bytes: &[u8], i: u64) -> Value
    ensures { result ≡ value.Number (read_item (find_field fields.now (text name.now)) i bytes.now) }
{
    Value::Number(read_item(fields, name, i, bytes))
}

/// The value of an expression.
pub fn value_of(setting: &Setting, state: &State, e: &Expr) -> Value
    ensures { worth result ≡ v.value_of (setting_of setting.now) (state_of state.now) (ex e.now) }
{
    match e {
        Expr::Num { value, .. } => Value::Number(*value),
        Expr::Null { .. } => Value::Number(0),
        Expr::Name { name } => Value::Number(state.names.look(name)),
        Expr::Cur { .. } => Value::Number(setting.cur),
        Expr::CurField { field, .. } => match &field.index {
            None => item(setting.record_fields, &field.name, &state.record, 0),
            Some(index) => match word(value_of(setting, state, index.get())) {
                None => Value::DivZero,
                Some(i) => item(setting.record_fields, &field.name, &state.record, i),
            },
        },
        Expr::PadField { field, .. } => match &field.index {
            None => item(setting.pad_fields, &field.name, &state.pad, 0),
            Some(index) => match word(value_of(setting, state, index.get())) {
                None => Value::DivZero,
                Some(i) => item(setting.pad_fields, &field.name, &state.pad, i),
            },
        },
        Expr::Not { of, .. } => negated(value_of(setting, state, of.get())),
        Expr::Flip { of, .. } => flipped(value_of(setting, state, of.get())),
        Expr::Binary {
            op,
            left,
            right,
            ..
        } => {
            let first = value_of(setting, state, left.get());
            match decided(*op, first) {
                Some(known) => known,
                None => binary(*op, first, value_of(setting, state, right.get())),
            }
        }
        Expr::At { base, offset, .. } => {
            let first = value_of(setting, state, base.get());
            moved(first, value_of(setting, state, offset.get()))
        }
    }
}
