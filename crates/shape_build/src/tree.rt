// The records of a tree.

ghost use Rattle.std.specs.Prelude.{◌≡◌, ◌+◌, ◌-◌, ◌*◌, ◌<◌, ◌≤◌, ◌++◌, min, nat_lt, if◌then◌else◌, OnOk};
ghost use Rattle.shape_build.specs.Draws.{draw};
ghost use Rattle.shape_build.specs.Text.{below, before_record, word};
ghost use Rattle.shape_build.specs.Tree.{leaves, above, root, tree_address, filled, leaf_text, group_text, leaf_rows, group_rows, upper_rows, tree_cut};
ghost use Rattle.shape_build.specs.inner.Levels.{LevelFits, IsTreeCut};

use crate::draws::Draws;
use crate::text::{Cut, put, put_before, put_byte, put_short, put_word};
use pulse_base::{Bytes, Memory};

/// A level of a tree.
#[derive(Clone, Copy, Debug, PartialEq, Eq)]
pub struct Level {
    /// The number of its first record.
    pub first: u64,
    /// How many records it has.
    pub size: u64,
    /// How many keys lie under each but the last.
    pub keys: u64,
}

pub(crate) fn leaves(n: u32) -> Level
    requires some { 1 ≤ n }
    requires few { n ≤ 20000 }
    ensures level { result ≡ leaves n }
    ensures fits { LevelFits result }
{
    Level {
        first: 0,
        size: (u64::from(n) + 14) / 15,
        keys: 15,
    }
}

fn above(level: &Level) -> Level
    requires fits { LevelFits level.now }
    requires more { 2 ≤ level.now.size }
    ensures level { result ≡ above level.now }
    ensures fits { LevelFits result }
{
    Level {
        first: level.first + level.size,
        size: (level.size + 15) / 16,
        keys: 16 * level.keys,
    }
}

/// The last level. It has one record.
pub(crate) fn root(most: u32, level: &Level) -> Level
    requires fits { LevelFits level.now }
    requires some { 1 ≤ level.now.size }
    requires most { level.now.size ≤ most + 1 }
    ensures level { result ≡ root most level.now }
    ensures one { result.size ≡ 1 }
    ensures fits { LevelFits result }
{
    if most == 0 || level.size <= 1 {
        return *level;
    }
    root(most - 1, &above(level))
}

// A number of a record that is used; others are zero.
fn used(is_used: bool, number: u64) -> u64
    ensures { result ≡ if is_used then number else 0 }
{
    if is_used { number } else { 0 }
}

// The first `count` numbers, and zeros after them.
fn put_odd_keys(text: &mut Bytes, count: u64, first: u64) -> Result<(), Memory>
    requires { first ≤ 20000 }
    ensures { OnOk result (text.new ≡ text.old ++ below 15 (filled count (λ j. 2 * (first + j) + 1))) }
{
    'keys: for j in 0..15 {
        put_word(text, used(j < count, 2 * (first + j) + 1))?;
    }
    Ok(())
}

fn put_drawn_kids(text: &mut Bytes, count: u64, draws: &mut Draws) -> Result<(), Memory>
    requires count { count ≤ 15 }
    requires room { draws.old.count ≤ 20000 }
    ensures kids { OnOk result (text.new ≡ text.old ++ below 16 (filled count (λ j. draw draws.old.seed (draws.old.count + j)))) }
    ensures drawn { OnOk result (draws.new ≡ record draws.old { count = draws.old.count + count }) }
{
    'kids: for _j in 0..count {
        put_word(text, draws.draw())?;
    }
    'zeros: for _j in count..16 {
        put_word(text, 0)?;
    }
    Ok(())
}

// Leaf l of the leaves of `n` keys.
fn put_leaf(text: &mut Bytes, n: u32, l: u64, draws: &mut Draws) -> Result<(), Memory>
    requires few { n ≤ 20000 }
    requires some { 15 * l < n }
    requires drawn { draws.old.count ≡ 15 * l }
    ensures leaf { OnOk result (text.new ≡ text.old ++ leaf_text n draws.old.seed l) }
    ensures drawn { OnOk result (draws.new ≡ record draws.old { count = min n (15 * l + 15) }) }
{
    let count = (u64::from(n) - 15 * l).min(15);
    put_short(text, count as u16)?;
    put_byte(text, 1)?;
    put_odd_keys(text, count, 15 * l)?;
    put_drawn_kids(text, count, draws)?;
    put(text, "0000000000")?;
    Ok(())
}

/// The leaves of `n` keys.
pub(crate) fn put_leaves(
    text: &mut Bytes,
    cut: &Cut,
    n: u32,
    draws: &mut Draws,
) -> Result<(), Memory>
    requires few { n ≤ 20000 }
    requires cut { IsTreeCut cut.now }
    requires drawn { draws.old.count ≡ 0 }
    ensures rows { OnOk result (text.new ≡ text.old ++ below (leaves n).size (λ l. before_record cut.now l ++ leaf_text n draws.old.seed l)) }
    ensures drawn { OnOk result (draws.new ≡ record draws.old { count = n }) }
{
    'leaves: for l in 0..(u64::from(n) + 14) / 15 {
        put_before(text, cut, l)?;
        put_leaf(text, n, l, draws)?;
    }
    Ok(())
}

// The least keys under the records of a group but its first, and zeros after them.
fn put_least_keys(text: &mut Bytes, keys: u64, first: u64, count: u64) -> Result<(), Memory>
    requires keys { keys ≤ 61440 }
    requires first { first ≤ 2000 }
    ensures { OnOk result (text.new ≡ text.old ++ below 15 (filled count (λ j. 2 * (keys * (first + j + 1)) + 1))) }
{
    'keys: for j in 0..15 {
        put_word(text, used(j < count, 2 * (keys * (first + j + 1)) + 1))?;
    }
    Ok(())
}

// The addresses of so many records from one on, and zeros after them.
fn put_addresses(text: &mut Bytes, first: u64, count: u64) -> Result<(), Memory>
    requires { first ≤ 4000 }
    ensures { OnOk result (text.new ≡ text.old ++ below 16 (filled count (λ j. tree_address (first + j)))) }
{
    'kids: for j in 0..16 {
        put_word(text, used(j < count, 65536 + 256 * (first + j)))?;
    }
    Ok(())
}

// Group g of a level.
fn put_group(text: &mut Bytes, level: &Level, g: u64) -> Result<(), Memory>
    requires fits { LevelFits level.now }
    requires some { 16 * g < level.now.size }
    ensures { OnOk result (text.new ≡ text.old ++ group_text level.now g) }
{
    let count = (level.size - 16 * g).min(16);
    put_short(text, (count - 1) as u16)?;
    put_byte(text, 0)?;
    put_least_keys(text, level.keys, 16 * g, count - 1)?;
    put_addresses(text, level.first + 16 * g, count)?;
    put(text, "0000000000")?;
    Ok(())
}

// The groups of a level.
fn put_groups(text: &mut Bytes, cut: &Cut, level: &Level) -> Result<(), Memory>
    requires fits { LevelFits level.now }
    requires cut { IsTreeCut cut.now }
    ensures { OnOk result (text.new ≡ text.old ++ group_rows cut.now level.now) }
{
    'groups: for g in 0..(level.size + 15) / 16 {
        put_before(text, cut, level.first + level.size + g)?;
        put_group(text, level, g)?;
    }
    Ok(())
}

/// All levels over one, of which there are at most so many.
pub(crate) fn put_upper(text: &mut Bytes, cut: &Cut, most: u32, level: &Level) -> Result<(), Memory>
    requires fits { LevelFits level.now }
    requires cut { IsTreeCut cut.now }
    ensures { OnOk result (text.new ≡ text.old ++ upper_rows most cut.now level.now) }
{
    if most == 0 || level.size <= 1 {
        return Ok(());
    }
    put_groups(text, cut, level)?;
    put_upper(text, cut, most - 1, &above(level))?;
    Ok(())
}
