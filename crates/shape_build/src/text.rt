// The lines of a document.

ghost use Rattle.std.specs.Prelude.{◌≡◌, ◌+◌, ◌*◌, ◌<◌, ◌≤◌, ◌^◌, ◌++◌, codes, decimal, OnOk};
ghost use Rattle.shape_build.specs.Text.{line, head_text, word, short, byte, part_size, region_head, before_record};

use itoa::Buffer;
use pulse_base::{Bytes, Memory};

/// How a row of records is cut into regions.
#[derive(Clone, Copy, Debug, PartialEq, Eq)]
pub struct Cut {
    /// The records of each region but the last, at least 1.
    pub size: u64,
    /// The address of the first record.
    pub base: u64,
    /// The bytes of a record.
    pub width: u64,
    /// The node of the first region. Each other lies on the node after that of the one before.
    pub node: u64,
}

/// The records of a part, where so many are cut into parts.
pub(crate) fn part_size(records: u64, parts: u64) -> u64
    requires some { 1 ≤ records }
    requires few { records < 2 ^ 32 }
    requires parts { 1 ≤ parts }
    requires small { parts < 2 ^ 32 }
    ensures size { result ≡ part_size records parts }
    ensures some { 1 ≤ result }
{
    (records + parts - 1) / parts
}

pub(crate) fn put(text: &mut Bytes, more: &str) -> Result<(), Memory>
    ensures { OnOk result (text.new ≡ text.old ++ more.now) }
{
    text.append(more.as_bytes())
}

pub(crate) fn put_number(text: &mut Bytes, number: u64) -> Result<(), Memory>
    ensures { OnOk result (text.new ≡ text.old ++ decimal number) }
{
    text.append(Buffer::new().format(number).as_bytes())
}

/// A name and a number on a line.
#[tactic(auto, unfolding(crate::specs::Text::line))]
pub(crate) fn put_line(text: &mut Bytes, name: &str, number: u64) -> Result<(), Memory>
    ensures { OnOk result (text.new ≡ text.old ++ line name.now number) }
{
    put(text, name)?;
    put_number(text, number)?;
    put(text, "\n")?;
    Ok(())
}

/// The lines before the events.
#[tactic(auto, unfolding(crate::specs::Text::head_text))]
pub(crate) fn put_head(
    text: &mut Bytes,
    program: &str,
    budget: u64,
    rounds: u64,
) -> Result<(), Memory>
    ensures { OnOk result (text.new ≡ text.old ++ head_text program.now budget rounds) }
{
    put(text, "program = '''\n")?;
    put(text, program)?;
    put(text, "'''\nnodes = 4\nslots = 4\n")?;
    put_line(text, "budget = ", budget)?;
    put_line(text, "rounds = ", rounds)?;
    put(text, "tries = 1000\nevents = [\n")?;
    Ok(())
}

/// A number of a record, in hexadecimal digits.
#[tactic(auto, unfolding(crate::specs::Text::word))]
pub(crate) fn put_word(text: &mut Bytes, number: u64) -> Result<(), Memory>
    ensures { OnOk result (text.new ≡ text.old ++ word number) }
{
    let mut digits = [0; 16];
    match hex::encode_to_slice(number.to_le_bytes(), &mut digits) {
        Ok(()) => text.append(&digits),
        Err(_) => unreachable!(),
    }
}

/// The same in two bytes.
#[tactic(auto, unfolding(crate::specs::Text::short))]
pub(crate) fn put_short(text: &mut Bytes, number: u16) -> Result<(), Memory>
    ensures { OnOk result (text.new ≡ text.old ++ short number) }
{
    let mut digits = [0; 4];
    match hex::encode_to_slice(number.to_le_bytes(), &mut digits) {
        Ok(()) => text.append(&digits),
        Err(_) => unreachable!(),
    }
}

/// The same in one byte.
#[tactic(auto, unfolding(crate::specs::Text::byte))]
pub(crate) fn put_byte(text: &mut Bytes, number: u8) -> Result<(), Memory>
    ensures { OnOk result (text.new ≡ text.old ++ byte number) }
{
    let mut digits = [0; 2];
    match hex::encode_to_slice(number.to_le_bytes(), &mut digits) {
        Ok(()) => text.append(&digits),
        Err(_) => unreachable!(),
    }
}

#[tactic(auto, unfolding(crate::specs::Text::region_head))]
fn put_region_head(text: &mut Bytes, cut: &Cut, first: u64) -> Result<(), Memory>
    requires size { 1 ≤ cut.now.size }
    requires node { cut.now.node < 2 ^ 32 }
    requires first { first < 2 ^ 32 }
    requires end { cut.now.base + cut.now.width * first < 2 ^ 63 }
    ensures { OnOk result (text.new ≡ text.old ++ region_head cut.now first) }
{
    put(text, "[[region]]\n")?;
    put_line(text, "base = ", cut.base + cut.width * first)?;
    put_line(text, "node = ", cut.node + first / cut.size)?;
    put(text, "hex = \"")?;
    Ok(())
}

/// What stands before record t of a row: a new region where the one before is full.
#[tactic(auto, unfolding(crate::specs::Text::before_record))]
pub(crate) fn put_before(text: &mut Bytes, cut: &Cut, t: u64) -> Result<(), Memory>
    requires size { 1 ≤ cut.now.size }
    requires node { cut.now.node < 2 ^ 32 }
    requires first { t < 2 ^ 32 }
    requires end { cut.now.base + cut.now.width * t < 2 ^ 63 }
    ensures { OnOk result (text.new ≡ text.old ++ before_record cut.now t) }
{
    if t % cut.size != 0 {
        return Ok(());
    }
    if t == 0 {
        put_region_head(text, cut, t)?;
        return Ok(());
    }
    put(text, "\"\n")?;
    put_region_head(text, cut, t)?;
    Ok(())
}
