// The values at the keys of a document's tables.

ghost use Rattle.std.specs.Prelude.{◌≡◌, length};
ghost use Rattle.toml.specs.View.{items_view, table_view};
ghost use Rattle.scenario_text.specs.Form.{count};
ghost use Rattle.scenario_text.specs.Values.{items_at, number_at, text_at, truth_at};

use crate::key::find;
use toml::{Table, Value};

/// The text at a key, or the empty text.
pub(crate) fn text_at<'a>(table: &'a Table, name: &str) -> &'a str
    ensures { result.now ≡ text_at name.now (table_view table.now) }
{
    match find(table, name) {
        Some(value) => match value.as_str() {
            Some(text) => text,
            None => "",
        },
        None => "",
    }
}

/// The number at a key, or the default.
pub(crate) fn number_at(table: &Table, name: &str, default: u64) -> u64
    ensures { result ≡ number_at name.now default (table_view table.now) }
{
    match find(table, name) {
        Some(value) => match value.as_integer() {
            Some(n) => n.unsigned_abs(),
            None => default,
        },
        None => default,
    }
}

/// The truth value at a key, or the default.
pub(crate) fn truth_at(table: &Table, name: &str, default: bool) -> bool
    ensures { result ≡ truth_at name.now default (table_view table.now) }
{
    match find(table, name) {
        Some(value) => match value.as_bool() {
            Some(truth) => truth,
            None => default,
        },
        None => default,
    }
}

/// The list at a key, or the empty list.
#[tactic(auto, using(crate::proofs::Counted::count_items))]
pub(crate) fn list_at<'a>(table: &'a Table, name: &str) -> &'a [Value]
    ensures items { items_view result.now ≡ items_at name.now (table_view table.now) }
    ensures len { length result.now ≡ count (items_at name.now (table_view table.now)) }
{
    match find(table, name) {
        Some(value) => match value.as_array() {
            Some(values) => values.as_slice(),
            None => &[],
        },
        None => &[],
    }
}
