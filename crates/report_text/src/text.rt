// The parts of a line.

ghost use Rattle.std.specs.Prelude.{◌≡◌, ◌++◌, codes, decimal, OnOk};
ghost use Rattle.hex.specs.Hex.{encode_lower};

use itoa::Buffer;
use pulse_base::{Bytes, Memory};
use std::alloc::Global;

pub(crate) fn put(text: &mut Bytes, more: &str) -> Result<(), Memory>
    ensures { OnOk result (text.new ≡ text.old ++ more.now) }
{
    text.append(more.as_bytes())
}

pub(crate) fn put_number(text: &mut Bytes, number: u64) -> Result<(), Memory>
    ensures { OnOk result (text.new ≡ text.old ++ decimal number) }
{
    text.append(Buffer::new().format(number).as_bytes())
}

/// Bytes as lower-case hexadecimal digits.
pub(crate) fn put_hex(alloc: Global, text: &mut Bytes, bytes: &[u8]) -> Result<(), Memory>
    ensures { OnOk result (text.new ≡ text.old ++ encode_lower bytes.now) }
{
    let digits = hex::encode(alloc, bytes)?;
    text.append(digits.as_bytes())
}

/// A word, a space, a number and a space: the head of a numbered line.
pub(crate) fn put_head(text: &mut Bytes, word: &str, number: u64) -> Result<(), Memory>
    ensures { OnOk result (text.new ≡ text.old ++ word.now ++ codes " " ++ decimal number ++ codes " ") }
{
    put(text, word)?;
    put(text, " ")?;
    put_number(text, number)?;
    put(text, " ")?;
    Ok(())
}
