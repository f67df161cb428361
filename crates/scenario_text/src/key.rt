// A key of a table, and the search of a table by keys.

ghost use Rattle.std.specs.Prelude.{◌≡◌, ◌≤◌, option_map};
ghost use Rattle.toml.specs.Data.{get_member};
ghost use Rattle.toml.specs.View.{table_view, view};
ghost use Rattle.scenario_text.specs.Keys.{first_bad, first_missing, first_unknown, is_bad, is_named, needed, optional};
ghost use Rattle.scenario_text.specs.Steps.{key_of, keys_of};

use crate::kind::Kind;
use crate::value::is_of;
use toml::{Table, Value};

/// A key of a table: its name, what its value has to be, and whether it has to be there.
#[derive(Clone, Copy, Debug)]
pub struct KeyRule {
    pub name: &'static str,
    pub kind: Kind,
    pub needed: bool,
}

pub(crate) fn needed(name: &'static str, kind: Kind) -> KeyRule
    ensures { key_of result ≡ needed name.now kind }
{
    KeyRule {
        name,
        kind,
        needed: true,
    }
}

pub(crate) fn optional(name: &'static str, kind: Kind) -> KeyRule
    ensures { key_of result ≡ optional name.now kind }
{
    KeyRule {
        name,
        kind,
        needed: false,
    }
}

/// The value at a key.
pub(crate) fn find<'a>(table: &'a Table, name: &str) -> Option<&'a Value>
    ensures { option_map (λ v. view v.now) result ≡ get_member name.now (table_view table.now) }
{
    table.get(name)
}

fn is_named(keys: &[KeyRule], name: &str) -> bool
    ensures { result ≡ is_named (keys_of keys.now) name.now }
{
    let mut at = 0;
    'keys: while at < keys.len() {
        if name == keys[at].name {
            return true;
        }
        at += 1;
    }
    false
}

/// The first of the table's keys that is none of these, in byte order.
pub(crate) fn first_unknown<'a>(table: &'a Table, keys: &[KeyRule]) -> Option<&'a str>
    ensures { option_map (λ name. name.now) result ≡ first_unknown (keys_of keys.now) (table_view table.now) }
{
    'names: for name in table.keys() {
        if !is_named(keys, name.as_str()) {
            return Some(name.as_str());
        }
    }
    None
}

/// The first needed key that is absent.
pub(crate) fn first_missing(table: &Table, keys: &[KeyRule]) -> Option<&'static str>
    ensures { option_map (λ name. name.now) result ≡ first_missing (keys_of keys.now) (table_view table.now) }
{
    let mut at = 0;
    'keys: while at < keys.len() {
        let key = keys[at];
        if key.needed && find(table, key.name).is_none() {
            return Some(key.name);
        }
        at += 1;
    }
    None
}

fn is_bad(table: &Table, name: &str, kind: Kind) -> bool
    ensures { result ≡ is_bad kind (get_member name.now (table_view table.now)) }
{
    match find(table, name) {
        Some(value) => !is_of(kind, value),
        None => false,
    }
}

/// The first key whose value is not of its kind.
pub(crate) fn first_bad(table: &Table, keys: &[KeyRule]) -> Option<&'static str>
    ensures { option_map (λ name. name.now) result ≡ first_bad (keys_of keys.now) (table_view table.now) }
{
    let mut at = 0;
    'keys: while at < keys.len() {
        let key = keys[at];
        if is_bad(table, key.name, key.kind) {
            return Some(key.name);
        }
        at += 1;
    }
    None
}
