// Documents of lists.

ghost use Rattle.std.specs.Prelude.{◌≡◌, ◌+◌, ◌*◌, ◌<◌, ◌≤◌, ◌++◌, nat_lt, if◌then◌else◌, IfOk, OnOk};
ghost use Rattle.shape_build.specs.Text.{below, before_record};
ghost use Rattle.shape_build.specs.Records.{record_text, list_address, list_record, list_cut, list_rows};
ghost use Rattle.shape_build.specs.Documents.{list_text, list_pair};

use crate::draws::Draws;
use crate::events::{put_events, put_request_of_one, put_request_of_two};
use crate::programs::list_program;
use crate::text::{Cut, part_size, put, put_before, put_head, put_word};
use pulse_base::{Bytes, Memory};
use std::alloc::Global;

/// The document of one list of `n` records, 1 to 20,000, with 16 requests that search it and walk it by turns.
pub fn list(alloc: Global, n: u32, seed: u64) -> Result<Bytes, Memory>
    requires some { 1 ≤ n }
    requires few { n ≤ 20000 }
    ensures { IfOk result (λ text. text ≡ list_text n seed) }
{
    let mut later = Draws::from_seed(seed);
    later.skip(n + 8);
    let mut text = Bytes::new(alloc);
    put_head(&mut text, list_program(), 4096, 8)?;
    put_events(&mut text, 16, &mut later)?;
    let mut draws = Draws::from_seed(seed);
    put_rows(&mut text, n, &mut draws)?;
    put_requests(&mut text, n, &mut draws)?;
    Ok(text)
}

/// A record of lists and of buckets.
#[tactic(auto, unfolding(crate::specs::Records::record_text))]
pub(crate) fn put_record(text: &mut Bytes, key: u64, value: u64, next: u64) -> Result<(), Memory>
    ensures { OnOk result (text.new ≡ text.old ++ record_text key value next) }
{
    put_word(text, key)?;
    put_word(text, value)?;
    put_word(text, next)?;
    Ok(())
}

// Record i, of `n`, with this value.
fn put_list_record(text: &mut Bytes, n: u32, i: u32, value: u64) -> Result<(), Memory>
    requires few { n ≤ 20000 }
    requires place { i < n }
    ensures { OnOk result (text.new ≡ text.old ++ record_text (2 * i + 1) value (if nat_lt (i + 1) n then list_address (i + 1) else 0)) }
{
    let i = u64::from(i);
    if i + 1 < u64::from(n) {
        put_record(text, 2 * i + 1, value, 65536 + 24 * (i + 1))
    } else {
        put_record(text, 2 * i + 1, value, 0)
    }
}

fn put_records(text: &mut Bytes, n: u32, draws: &mut Draws) -> Result<(), Memory>
    requires some { 1 ≤ n }
    requires few { n ≤ 20000 }
    requires first { draws.old.count ≡ 0 }
    ensures rows { OnOk result (text.new ≡ text.old ++ below n (λ i. before_record (list_cut n) i ++ list_record n draws.old.seed i)) }
    ensures drawn { OnOk result (draws.new ≡ record draws.old { count = n }) }
{
    let cut = Cut {
        size: part_size(u64::from(n), 4),
        base: 65536,
        width: 24,
        node: 0,
    };
    'records: for i in 0..n {
        put_before(text, &cut, u64::from(i))?;
        put_list_record(text, n, i, draws.draw())?;
    }
    Ok(())
}

#[tactic(auto, unfolding(crate::specs::Records::list_rows))]
fn put_rows(text: &mut Bytes, n: u32, draws: &mut Draws) -> Result<(), Memory>
    requires some { 1 ≤ n }
    requires few { n ≤ 20000 }
    requires first { draws.old.count ≡ 0 }
    ensures rows { OnOk result (text.new ≡ text.old ++ list_rows n draws.old.seed) }
    ensures drawn { OnOk result (draws.new ≡ record draws.old { count = n }) }
{
    put_records(text, n, draws)?;
    put(text, "\"\n")?;
    Ok(())
}

fn put_requests(text: &mut Bytes, n: u32, draws: &mut Draws) -> Result<(), Memory>
    requires some { 1 ≤ n }
    requires few { n ≤ 20000 }
    requires first { draws.old.count ≡ n }
    ensures { OnOk result (text.new ≡ text.old ++ below 8 (list_pair n draws.old.seed)) }
{
    'pairs: for _p in 0_u32..8 {
        let key = 2 * (draws.draw() % u64::from(n)) + 1;
        put_request_of_two(text, "find", 65536, key)?;
        put_request_of_one(text, "bump", 65536)?;
    }
    Ok(())
}
