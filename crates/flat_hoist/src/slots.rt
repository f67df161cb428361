// Fields in slots, one after another.

ghost use Rattle.std.specs.Prelude.{◌≡◌, ◌<◌, true, IfOk, IfSome};
ghost use Rattle.iter_unroll.specs.Tree.{fsts};
ghost use Rattle.iter_unroll.specs.Unrolled.{FewNodes};
ghost use Rattle.flat_hoist.specs.Hoisted.{StandsFor};
ghost use Rattle.flat_hoist.specs.hoisting.Clear.{clear};
ghost use Rattle.flat_hoist.specs.hoisting.Hoists.{CanHoist};

use crate::clear::is_clear;
use crate::count::count_row;
use crate::field::Field;
use crate::fields::note_row;
use crate::swap::swap_row;
use iter_unroll::{Flat, FlatBlock, FlatStmt};
use pulse_base::{Listed, Memory};
use std::alloc::Global;

/// How often a field is read, at the least, for which a slot is worth while.
const OFTEN: u32 = 4;

// The first slot that end and next do not name, where they do not store over the field.
fn free_slot(flat: &Flat, field: Field) -> Option<u8>
    ensures { IfSome result (λ k. (k < 8) × (clear field k (fsts flat.now.end_part) ≡ true) × (clear field k (fsts flat.now.next_part) ≡ true)) }
{
    'slots: for slot in 0..8u8 {
        let first = is_clear(field, slot, flat.end_part.as_slice());
        let second = is_clear(field, slot, flat.next_part.as_slice());
        if first && second {
            return Some(slot);
        }
    }
    None
}

// The slot for a field that is read often, where there is one.
fn slot_for(flat: &Flat, field: Field) -> Option<u8>
    requires few { FewNodes flat.now }
    ensures { IfSome result (CanHoist flat.now field) }
{
    let ends = count_row(field, flat.end_part.as_slice());
    let next = count_row(field, flat.next_part.as_slice());
    if ends.reads + next.reads < OFTEN || ends.nodes + next.nodes > 1998 {
        return None;
    }
    free_slot(flat, field)
}

// End begins with a read of the field into the slot, which stands for each other read.
fn hoist_one(alloc: Global, flat: Flat, field: Field, slot: u8) -> Result<Flat, Memory>
    requires can { CanHoist flat field slot }
    ensures { IfOk result (StandsFor flat) }
{
    let Flat {
        record_size,
        pad_size,
        args,
        init_part,
        end_part,
        next_part,
    } = flat;
    let mut head = FlatBlock::new(alloc);
    head.push(FlatStmt::Local {
        slot,
        value: field.read(),
    })?;
    let ends = swap_row(alloc, field, slot, head, end_part.as_slice())?;
    let next = swap_row(
        alloc,
        field,
        slot,
        FlatBlock::new(alloc),
        next_part.as_slice(),
    )?;
    Ok(Flat {
        record_size,
        pad_size,
        args,
        init_part,
        end_part: ends,
        next_part: next,
    })
}

fn hoist_field(alloc: Global, flat: Flat, field: Field) -> Result<Flat, Memory>
    requires few { FewNodes flat }
    ensures { IfOk result (StandsFor flat) }
{
    match slot_for(&flat, field) {
        None => Ok(flat),
        Some(slot) => hoist_one(alloc, flat, field, slot),
    }
}

/// Straight code that stands for other code, and reads once what that reads four times or more and does not store over,
/// while slots are free: first come, first served.
pub fn hoist(alloc: Global, flat: Flat) -> Result<Flat, Memory>
    requires few { FewNodes flat }
    ensures { IfOk result (StandsFor flat) }
{
    let mut fields = Listed::new(alloc);
    note_row(&mut fields, flat.end_part.as_slice())?;
    note_row(&mut fields, flat.next_part.as_slice())?;
    let mut hoisted = flat;
    'fields: for field in fields.as_slice() {
        hoisted = hoist_field(alloc, hoisted, *field)?;
    }
    Ok(hoisted)
}
