// Documents of hash buckets.

ghost use Rattle.std.specs.Prelude.{◌≡◌, ◌+◌, ◌≤◌, ◌++◌, slice_index_or, IfOk, OnOk};
ghost use Rattle.shape_build.specs.Text.{below, before_record};
ghost use Rattle.shape_build.specs.Records.{record_text, firsts, heads_cut, head_rows, chained_record, chained_cut, chained_rows};
ghost use Rattle.shape_build.specs.Documents.{buckets_text, buckets_pair};

use crate::draws::Draws;
use crate::events::{put_events, put_request_of_three, put_request_of_two};
use crate::list_document::put_record;
use crate::programs::buckets_program;
use crate::text::{Cut, part_size, put, put_before, put_head};
use pulse_base::{Bytes, Memory};
use std::alloc::Global;

/// The document of `n` records, 1 to 20,000, in the chains of 64 heads, with 64 requests that search them and add to
/// them by turns.
#[tactic(auto, unfolding(crate::specs::Records::head_rows, crate::specs::Records::chained_rows))]
pub fn buckets(alloc: Global, n: u32, seed: u64) -> Result<Bytes, Memory>
    requires some { 1 ≤ n }
    requires few { n ≤ 20000 }
    ensures { IfOk result (λ text. text ≡ buckets_text n seed) }
{
    let mut later = Draws::from_seed(seed);
    later.skip(n + 96);
    let mut text = Bytes::new(alloc);
    put_head(&mut text, buckets_program(), 64, 16)?;
    put_events(&mut text, 64, &mut later)?;
    put_heads(&mut text, &firsts_of(n))?;
    put(&mut text, "\"\n")?;
    let mut draws = Draws::from_seed(seed);
    put_chained(&mut text, n, &mut draws)?;
    put(&mut text, "\"\n")?;
    put_requests(&mut text, n, &mut draws)?;
    Ok(text)
}

// Where each chain begins once all records are there.
#[tactic(auto, unfolding(crate::specs::Records::firsts))]
fn firsts_of(n: u32) -> [u64; 64]
    requires { n ≤ 20000 }
    ensures { result ≡ firsts n }
{
    let mut begins = [0; 64];
    'records: for i in 0..n {
        let i = u64::from(i);
        begins[((i + 1) % 64) as usize] = 67072 + 24 * i;
    }
    begins
}

fn put_heads(text: &mut Bytes, begins: &[u64; 64]) -> Result<(), Memory>
    ensures { OnOk result (text.new ≡ text.old ++ below 64 (λ j. before_record heads_cut j ++ record_text 0 0 (slice_index_or begins.now j 0))) }
{
    let cut = Cut {
        size: 64,
        base: 65536,
        width: 24,
        node: 0,
    };
    'heads: for j in 0..64 {
        put_before(text, &cut, j as u64)?;
        put_record(text, 0, 0, begins[j])?;
    }
    Ok(())
}

fn put_chained(text: &mut Bytes, n: u32, draws: &mut Draws) -> Result<(), Memory>
    requires some { 1 ≤ n }
    requires few { n ≤ 20000 }
    requires first { draws.old.count ≡ 0 }
    ensures rows { OnOk result (text.new ≡ text.old ++ below n (λ i. before_record (chained_cut n) i ++ chained_record draws.old.seed i)) }
    ensures drawn { OnOk result (draws.new ≡ record draws.old { count = n }) }
{
    let cut = Cut {
        size: part_size(u64::from(n), 3),
        base: 67072,
        width: 24,
        node: 1,
    };
    let mut begins = [0; 64];
    'records: for i in 0..n {
        let i = u64::from(i);
        let chain = ((i + 1) % 64) as usize;
        put_before(text, &cut, i)?;
        put_record(text, i + 1, draws.draw(), begins[chain])?;
        begins[chain] = 67072 + 24 * i;
    }
    Ok(())
}

fn put_requests(text: &mut Bytes, n: u32, draws: &mut Draws) -> Result<(), Memory>
    requires some { 1 ≤ n }
    requires few { n ≤ 20000 }
    requires first { draws.old.count ≡ n }
    ensures { OnOk result (text.new ≡ text.old ++ below 32 (buckets_pair n draws.old.seed)) }
{
    'pairs: for _p in 0_u32..32 {
        let key = draws.draw() % u64::from(n) + 1;
        put_request_of_two(text, "lookup", 65536, key)?;
        let key = draws.draw() % u64::from(n) + 1;
        put_request_of_three(text, "add", 65536, key, draws.draw())?;
    }
    Ok(())
}
