// The keys of a document's tables, and the fault of a table by them.

ghost use Rattle.std.specs.Prelude.{◌≡◌, ◌++◌, [], IfOk};
ghost use Rattle.toml.specs.View.{table_view};
ghost use Rattle.scenario_text.specs.Keys.{keys_fault, region_keys, request_keys, top_keys};
ghost use Rattle.scenario_text.specs.Steps.{Gives, keys_of};

use crate::fault::DocFault;
use crate::key::{KeyRule, first_bad, first_missing, first_unknown, needed, optional};
use crate::kind::{Entry, Kind};
use pulse_base::{Bytes, Memory};
use std::alloc::Global;
use toml::Table;

fn top_keys() -> [KeyRule; 12]
    ensures { keys_of result ≡ top_keys }
{
    [
        needed("program", Kind::Text),
        optional("nodes", Kind::Whole { low: 1, high: 64 }),
        optional("slots", Kind::Whole { low: 1, high: 64 }),
        optional(
            "budget",
            Kind::Whole {
                low: 1,
                high: 65_535,
            },
        ),
        optional(
            "rounds",
            Kind::Whole {
                low: 1,
                high: 1_000,
            },
        ),
        optional(
            "tries",
            Kind::Whole {
                low: 0,
                high: 1_000,
            },
        ),
        optional("clients", Kind::Whole { low: 1, high: 16 }),
        optional(
            "port",
            Kind::Whole {
                low: 1_024,
                high: 65_000,
            },
        ),
        optional("trace", Kind::Truth),
        optional("events", Kind::List(Entry::Text)),
        needed("region", Kind::List(Entry::Table)),
        needed("request", Kind::List(Entry::Table)),
    ]
}

/// The keys of a region.
pub(crate) fn region_keys(nodes: u64) -> [KeyRule; 7]
    ensures { keys_of result ≡ region_keys nodes }
{
    [
        needed(
            "base",
            Kind::Whole {
                low: 0,
                high: 281_474_976_710_655,
            },
        ),
        optional(
            "node",
            Kind::Whole {
                low: 0,
                high: nodes.saturating_sub(1),
            },
        ),
        optional("read", Kind::Truth),
        optional("write", Kind::Truth),
        optional("hex", Kind::Text),
        optional(
            "zeros",
            Kind::Whole {
                low: 0,
                high: 16_777_216,
            },
        ),
        optional("show", Kind::Truth),
    ]
}

/// The keys of a request.
pub(crate) fn request_keys(clients: u64) -> [KeyRule; 3]
    ensures { keys_of result ≡ request_keys clients }
{
    [
        needed("iter", Kind::Text),
        optional("args", Kind::List(Entry::Argument)),
        optional(
            "client",
            Kind::Whole {
                low: 0,
                high: clients.saturating_sub(1),
            },
        ),
    ]
}

// A name behind a prefix.
fn named(alloc: Global, prefix: &[u8], name: &str) -> Result<Bytes, Memory>
    ensures { IfOk result (λ whole. whole ≡ prefix.now ++ name.now) }
{
    let mut whole = Bytes::new(alloc);
    whole.append(prefix)?;
    whole.append(name.as_bytes())?;
    Ok(whole)
}

/// The document's own keys.
pub(crate) fn check_top_keys(alloc: Global, table: &Table) -> Result<(), DocFault>
    ensures { Gives (keys_fault [] top_keys (table_view table.now)) tt result }
{
    check_keys(alloc, &[], &top_keys(), table)
}

/// The first unknown key, or else the first needed key that is absent, or else the first bad value.
pub(crate) fn check_keys(
    alloc: Global,
    prefix: &[u8],
    keys: &[KeyRule],
    table: &Table,
) -> Result<(), DocFault>
    ensures { Gives (keys_fault prefix.now (keys_of keys.now) (table_view table.now)) tt result }
{
    if let Some(name) = first_unknown(table, keys) {
        return Err(match named(alloc, prefix, name) {
            Ok(name) => DocFault::Key(name),
            Err(Memory) => DocFault::Memory,
        });
    }
    if let Some(name) = first_missing(table, keys) {
        return Err(match named(alloc, prefix, name) {
            Ok(name) => DocFault::Missing(name),
            Err(Memory) => DocFault::Memory,
        });
    }
    if let Some(name) = first_bad(table, keys) {
        return Err(match named(alloc, prefix, name) {
            Ok(name) => DocFault::Value(name),
            Err(Memory) => DocFault::Memory,
        });
    }
    Ok(())
}
