// Pieces of text.

ghost use Rattle.std.specs.Prelude.{◌≡◌, ◌++◌, decimal, OnOk};

use itoa::Buffer;
use pulse_base::{Bytes, Memory};

/// Puts more bytes behind a text.
pub(crate) fn put(text: &mut Bytes, more: &str) -> Result<(), Memory>
    ensures { OnOk result (text.new ≡ text.old ++ more.now) }
{
    text.append(more.as_bytes())
}

/// Puts a number in decimal behind a text.
pub(crate) fn put_number(text: &mut Bytes, number: u64) -> Result<(), Memory>
    ensures { OnOk result (text.new ≡ text.old ++ decimal number) }
{
    text.append(Buffer::new().format(number).as_bytes())
}
