// Fields and elements.

ghost use Rattle.std.specs.Prelude.{◌≡◌, ◌≤◌, option_map};
ghost use Rattle.iter_syntax.specs.Tree.{used};
ghost use Rattle.iter_check.specs.Layout as l;
ghost use Rattle.iter_check.specs.Layout.{text, size_of};
ghost use Rattle.iter_unroll.specs.Uses.{element, element_of};
ghost use Rattle.iter_unroll.specs.unrolling.Views.{env_of, use_of, number_of, Flattens};

use crate::index::index;
use crate::refused::Refused;
use crate::scope::Entry;
use crate::tree::FlatUse;
use iter_check::{find_field, width_bytes};
use iter_syntax::{FieldDecl, FieldUse, Word};

// The bytes of an element of a field.
fn element(fields: &[FieldDecl], word: &Word, k: u64) -> Option<FlatUse>
    requires size { size_of fields.now ≤ 256 }
    ensures { option_map use_of result ≡ element (l.find_field fields.now (text word.now)) k }
{
    match find_field(fields, word) {
        None => None,
        Some(slot) => {
            if k < slot.count {
                Some(FlatUse {
                    off: (slot.offset + k * width_bytes(slot.width)) as u16,
                    width: slot.width,
                })
            } else {
                None
            }
        }
    }
}

/// The bytes of what a use names.
pub fn use_at(
    fields: &[FieldDecl],
    entries: &[Entry],
    target: &FieldUse,
) -> Result<FlatUse, Refused>
    requires size { size_of fields.now ≤ 256 }
    ensures { Flattens use_of result (element_of fields.now (used target.now).0 (number_of (env_of entries.now) (used target.now).1)) }
{
    match &target.index {
        None => match element(fields, &target.name, 0) {
            None => Err(Refused::Unknown),
            Some(u) => Ok(u),
        },
        Some(i) => match index(entries, i.get()) {
            None => Err(Refused::Unknown),
            Some(k) => match element(fields, &target.name, k) {
                None => Err(Refused::Unknown),
                Some(u) => Ok(u),
            },
        },
    }
}
