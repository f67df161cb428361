// The lines of fields.

ghost use Rattle.std.specs.Prelude.{◌≡◌, ◌≤◌, ◌++◌, OnOk};
ghost use Rattle.iter_check.specs.Layout.{field_size, size_of};
ghost use Rattle.layout_text.specs.Fields.{width_name, type_text, field_text, fields_text};

use crate::text::{put, put_number};
use iter_check::{elements, size_of, width_bytes};
use iter_syntax::{FieldDecl, Width};
use pulse_base::{Bytes, Memory};

fn width_name(width: Width) -> &'static str
    ensures { result.now ≡ width_name width }
{
    match width {
        Width::U8 => "u8",
        Width::U16 => "u16",
        Width::U32 => "u32",
        Width::U64 => "u64",
        Width::Ptr => "ptr",
    }
}

// A width, or `[WIDTH; LEN]`.
fn put_type(text: &mut Bytes, width: Width, len: Option<u64>) -> Result<(), Memory>
    ensures { OnOk result (text.new ≡ text.old ++ type_text width len) }
{
    match len {
        None => {
            put(text, width_name(width))?;
            Ok(())
        }
        Some(len) => {
            put(text, "[")?;
            put(text, width_name(width))?;
            put(text, "; ")?;
            put_number(text, len)?;
            put(text, "]")?;
            Ok(())
        }
    }
}

// The line of a field at an offset.
fn put_field(text: &mut Bytes, field: &FieldDecl, offset: u64) -> Result<(), Memory>
    ensures { OnOk result (text.new ≡ text.old ++ field_text offset field.now) }
{
    put(text, "field ")?;
    text.append(field.name.text.as_slice())?;
    put(text, " ")?;
    put_type(text, field.width, field.len)?;
    put(text, " ")?;
    put_number(text, offset)?;
    put(text, "\n")?;
    Ok(())
}

/// The lines of the fields of a record or a pad, with their offsets.
pub(crate) fn put_fields(text: &mut Bytes, fields: &[FieldDecl]) -> Result<(), Memory>
    requires { size_of fields.now ≤ 256 }
    ensures { OnOk result (text.new ≡ text.old ++ fields_text 0 fields.now) }
{
    let mut offset: u64 = 0;
    'fields: for field in fields {
        put_field(text, field, offset)?;
        offset += bytes_of(field);
    }
    Ok(())
}

// The bytes of a field.
fn bytes_of(field: &FieldDecl) -> u64
    requires { field_size field.now ≤ 256 }
    ensures { result ≡ field_size field.now }
{
    elements(field) * width_bytes(field.width)
}

/// The bytes of fields.
pub(crate) fn bytes_of_all(fields: &[FieldDecl]) -> u64
    requires { size_of fields.now ≤ 256 }
    ensures { result ≡ size_of fields.now }
{
    match size_of(fields) {
        Some(bytes) => bytes,
        None => unreachable!(),
    }
}
