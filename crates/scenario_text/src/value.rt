// Whether a value is of a kind.

ghost use Rattle.std.specs.Prelude.{◌≡◌, ◌≤◌, drop, length};
ghost use Rattle.toml.specs.View.{items_view, view};
ghost use Rattle.scenario_text.specs.Kinds.{all_items, is_entry, is_of};

use crate::kind::{Entry, Kind};
use crate::number::argument_of;
use toml::Value;

fn is_entry(entry: Entry, value: &Value) -> bool
    ensures { result ≡ is_entry entry (view value.now) }
{
    match entry {
        Entry::Text => value.as_str().is_some(),
        Entry::Table => value.as_table().is_some(),
        Entry::Argument => argument_of(value).is_some(),
    }
}

fn are_entries(entry: Entry, values: &[Value]) -> bool
    ensures { result ≡ all_items (is_entry entry) (items_view values.now) }
{
    let mut at = 0;
    'entries: while at < values.len() {
        if !is_entry(entry, &values[at]) {
            return false;
        }
        at += 1;
    }
    true
}

/// Whether a value is of a kind.
pub(crate) fn is_of(kind: Kind, value: &Value) -> bool
    ensures { result ≡ is_of kind (view value.now) }
{
    match kind {
        Kind::Text => value.as_str().is_some(),
        Kind::Truth => value.as_bool().is_some(),
        Kind::Whole { low, high } => match value.as_integer() {
            Some(n) => n >= 0 && low <= n as u64 && n as u64 <= high,
            None => false,
        },
        Kind::List(entry) => match value.as_array() {
            Some(values) => are_entries(entry, values.as_slice()),
            None => false,
        },
    }
}
