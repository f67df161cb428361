// Documents of B-trees.

ghost use Rattle.std.specs.Prelude.{◌≡◌, ◌+◌, ◌≤◌, ◌++◌, IfOk, OnOk};
ghost use Rattle.shape_build.specs.Text.{below};
ghost use Rattle.shape_build.specs.Tree.{tree_rows, root_number};
ghost use Rattle.shape_build.specs.Documents.{btree_text, btree_pair};

use crate::draws::Draws;
use crate::events::{put_events, put_request_of_three, put_request_of_two};
use crate::programs::btree_program;
use crate::text::{Cut, part_size, put, put_head};
use crate::tree::{leaves, put_leaves, put_upper, root};
use pulse_base::{Bytes, Memory};
use std::alloc::Global;

/// The document of a B-tree of `n` keys, 1 to 20,000, with 64 requests that search it and change it by turns.
pub fn btree(alloc: Global, n: u32, seed: u64) -> Result<Bytes, Memory>
    requires some { 1 ≤ n }
    requires few { n ≤ 20000 }
    ensures { IfOk result (λ text. text ≡ btree_text n seed) }
{
    let mut later = Draws::from_seed(seed);
    later.skip(n + 96);
    let mut text = Bytes::new(alloc);
    put_head(&mut text, btree_program(), 16, 4)?;
    put_events(&mut text, 64, &mut later)?;
    let mut draws = Draws::from_seed(seed);
    let last = put_rows(&mut text, n, &mut draws)?;
    put_requests(&mut text, n, 65536 + 256 * last, &mut draws)?;
    Ok(text)
}

// The records, and the number of the root.
#[tactic(auto, unfolding(crate::specs::Tree::tree_rows))]
fn put_rows(text: &mut Bytes, n: u32, draws: &mut Draws) -> Result<u64, Memory>
    requires some { 1 ≤ n }
    requires few { n ≤ 20000 }
    requires first { draws.old.count ≡ 0 }
    ensures rows { OnOk result (text.new ≡ text.old ++ tree_rows n draws.old.seed) }
    ensures drawn { OnOk result (draws.new ≡ record draws.old { count = n }) }
    ensures last { IfOk result (λ t. t ≡ root_number n) }
    ensures few { IfOk result (λ t. t ≤ 1424) }
{
    let level = leaves(n);
    let last = root(n, &level).first;
    let cut = Cut {
        size: part_size(last + 1, 4),
        base: 65536,
        width: 256,
        node: 0,
    };
    put_leaves(text, &cut, n, draws)?;
    put_upper(text, &cut, n, &level)?;
    put(text, "\"\n")?;
    Ok(last)
}

fn put_requests(text: &mut Bytes, n: u32, root: u64, draws: &mut Draws) -> Result<(), Memory>
    requires some { 1 ≤ n }
    requires few { n ≤ 20000 }
    requires first { draws.old.count ≡ n }
    ensures { OnOk result (text.new ≡ text.old ++ below 32 (btree_pair n draws.old.seed root)) }
{
    'pairs: for _p in 0_u32..32 {
        let key = 2 * (draws.draw() % u64::from(n)) + 1;
        put_request_of_two(text, "find", root, key)?;
        let key = 2 * (draws.draw() % u64::from(n)) + 1;
        put_request_of_three(text, "put", root, key, draws.draw())?;
    }
    Ok(())
}
