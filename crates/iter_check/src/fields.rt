// The fields of a record and of a pad: where they lie, and what they hold.

ghost use Rattle.std.specs.Prelude.{◌≡◌, ◌-◌, ◌≤◌, ◌<◌, ◌^◌, length, option_map, IfSome, MatchOption};
ghost use Rattle.iter_check.specs.Layout as l;
ghost use Rattle.iter_check.specs.Layout.{text, elements, width_bytes, field_size, find_field, size_of};
ghost use Rattle.iter_check.specs.FieldValue.{number_of, bytes_of, read_at, write_at, read_item, write_item};
ghost use Rattle.iter_check.specs.Views.Slots.{slot_of, capped, item_start};

use iter_syntax::{FieldDecl, Width, Word};

/// A field's place: its offset in bytes, the width of an element, and the number of elements. An offset
/// past 2^64 - 1 stands at that number, where no byte lies.
#[derive(Clone, Copy, Debug, PartialEq, Eq)]
pub struct Slot {
    pub offset: u64,
    pub width: Width,
    pub count: u64,
}

/// How many bytes a width has: 1, 2, 4 or 8.
pub fn width_bytes(width: Width) -> u64
    ensures value { result ≡ width_bytes width }
    ensures small { result ≤ 8 }
{
    match width {
        Width::U8 => 1,
        Width::U16 => 2,
        Width::U32 => 4,
        Width::U64 => 8,
        Width::Ptr => 8,
    }
}

/// How many elements a field has: the length of an array, and 1 for any other field.
pub fn elements(field: &FieldDecl) -> u64
    ensures { result ≡ elements field.now }
{
    match field.len {
        Some(len) => len,
        None => 1,
    }
}

/// How many bytes a field has; none where the number is past 2^64 - 1.
pub fn field_size(field: &FieldDecl) -> Option<u64>
    ensures { MatchOption result (2 ^ 64 ≤ field_size field.now) (λ n. n ≡ field_size field.now) }
{
    elements(field).checked_mul(width_bytes(field.width))
}

/// How many bytes a record or a pad has; none where the number is past 2^64 - 1.
pub fn size_of(fields: &[FieldDecl]) -> Option<u64>
    ensures { MatchOption result (2 ^ 64 ≤ size_of fields.now) (λ n. n ≡ size_of fields.now) }
{
    let mut size: u64 = 0;
    'fields: for field in fields {
        match field_size(field) {
            None => return None,
            Some(more) => match size.checked_add(more) {
                None => return None,
                Some(sum) => size = sum,
            },
        }
    }
    Some(size)
}

/// The place of the first field of a name. It goes over the fields before it.
pub fn find_field(fields: &[FieldDecl], word: &Word) -> Option<Slot>
    ensures { option_map slot_of result ≡ option_map capped (find_field fields.now (text word.now)) }
{
    let mut offset: u64 = 0;
    'fields: for field in fields {
        let width = field.width;
        let count = elements(field);
        if field.name.text.as_slice() == word.text.as_slice() {
            return Some(Slot {
                offset,
                width,
                count,
            });
        }
        offset = offset.saturating_add(count.saturating_mul(width_bytes(width)));
    }
    None
}

// The little-endian number of at most eight bytes.
fn number(bytes: &[u8]) -> u64
    requires { length bytes.now ≤ 8 }
    ensures value { result ≡ number_of bytes.now }
    ensures bound { result < 256 ^ length bytes.now }
{
    match bytes {
        [] => 0,
        [low, rest @ ..] => *low as u64 + 256 * number(rest),
    }
}

/// The value at an offset; a byte past the end counts as 0.
pub fn read_at(bytes: &[u8], offset: u64, width: Width) -> u64
    ensures { result ≡ read_at bytes.now offset width }
{
    let len = bytes.len() as u64;
    if len <= offset {
        return 0;
    }
    let rest = &bytes[offset as usize..];
    let size = width_bytes(width);
    let some = if size < len - offset {
        size
    } else {
        len - offset
    };
    number(&rest[..some as usize])
}

// Fills the bytes with the low bytes of a number, the lowest first.
fn fill(bytes: &mut [u8], value: u64)
    ensures { bytes.new ≡ bytes_of (length bytes.old) value }
{
    let mut left = value;
    'bytes: for byte in bytes.iter_mut() {
        *byte = (left % 256) as u8;
        left /= 256;
    }
}

/// Puts the low bytes of a value at an offset; where they do not lie inside, nothing changes.
pub fn write_at(bytes: &mut [u8], offset: u64, width: Width, value: u64)
    ensures { bytes.new ≡ write_at bytes.old offset width value }
{
    let len = bytes.len() as u64;
    let size = width_bytes(width);
    if offset <= len && size <= len - offset {
        let start = offset as usize;
        fill(&mut bytes[start..start + size as usize], value);
    }
}

// Where an element of a field begins.
fn item_offset(slot: Slot, i: u64) -> u64
    ensures { result ≡ item_start slot i }
{
    slot.offset
        .saturating_add(i.saturating_mul(width_bytes(slot.width)))
}

/// The value of an element of a field; where there is no such field or element it is 0.
pub fn read_item(fields: &[FieldDecl], word: &Word, i: u64, bytes: &[u8]) -> u64
    ensures { result ≡ read_item (l.find_field fields.now (text word.now)) i bytes.now }
{
    match find_field(fields, word) {
        None => 0,
        Some(slot) => {
            if i < slot.count {
                read_at(bytes, item_offset(slot, i), slot.width)
            } else {
                0
            }
        }
    }
}

/// Puts a value in an element of a field; where there is no such field or element, nothing changes.
pub fn write_item(fields: &[FieldDecl], word: &Word, i: u64, value: u64, bytes: &mut [u8])
    ensures { bytes.new ≡ write_item (l.find_field fields.now (text word.now)) i value bytes.old }
{
    match find_field(fields, word) {
        None => {}
        Some(slot) => {
            if i < slot.count {
                write_at(bytes, item_offset(slot, i), slot.width, value);
            }
        }
    }
}
