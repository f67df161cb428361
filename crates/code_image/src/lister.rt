// The listing of an image.

ghost use Rattle.std.specs.Prelude.{◌≡◌, ◌++◌, length, codes, decimal, IfOk, OnOk};
ghost use Rattle.pulse_isa.specs.Lines.{line_text};
ghost use Rattle.code_image.specs.Listing.{places_text, segment_text, listing};

use crate::image::Image;
use itoa::Buffer;
use pulse_base::{Bytes, Memory};
use pulse_isa::{Instr, line};
use std::alloc::Global;

fn put(text: &mut Bytes, more: &str) -> Result<(), Memory>
    ensures { OnOk result (text.new ≡ text.old ++ more.now) }
{
    text.append(more.as_bytes())
}

fn put_number(text: &mut Bytes, number: usize) -> Result<(), Memory>
    ensures { OnOk result (text.new ≡ text.old ++ decimal number) }
{
    text.append(Buffer::new().format(number).as_bytes())
}

// The line of an instruction at a place.
fn put_place(text: &mut Bytes, place: usize, i: &Instr) -> Result<(), Memory>
    ensures { OnOk result (text.new ≡ text.old ++ (decimal place ++ codes " " ++ line_text i.now ++ codes "\n")) }
{
    put_number(text, place)?;
    put(text, " ")?;
    text.append(line(i).as_slice())?;
    put(text, "\n")?;
    Ok(())
}

fn put_places(text: &mut Bytes, code: &[Instr]) -> Result<(), Memory>
    ensures { OnOk result (text.new ≡ text.old ++ places_text 0 code.now) }
{
    'places: for (place, i) in code.iter().enumerate() {
        put_place(text, place, i)?;
    }
    Ok(())
}

fn put_segment(text: &mut Bytes, name: &str, code: &[Instr]) -> Result<(), Memory>
    ensures { OnOk result (text.new ≡ text.old ++ segment_text name.now code.now) }
{
    put(text, name)?;
    put(text, " ")?;
    put_number(text, code.len())?;
    put(text, "\n")?;
    put_places(text, code)?;
    Ok(())
}

/// The listing of an image: its sizes, and each segment with a line for each instruction, places from 0. The work
/// grows with the text.
pub fn listing(alloc: Global, image: &Image) -> Result<Bytes, Memory>
    ensures { IfOk result (λ text. text ≡ listing image.now) }
{
    let mut text = Bytes::new(alloc);
    put(&mut text, "image args ")?;
    put_number(&mut text, usize::from(image.args))?;
    put(&mut text, " record ")?;
    put_number(&mut text, usize::from(image.record_size))?;
    put(&mut text, " pad ")?;
    put_number(&mut text, usize::from(image.pad_size))?;
    put(&mut text, "\n")?;
    put_segment(&mut text, "init", image.init_code.as_slice())?;
    put_segment(&mut text, "body", image.body_code.as_slice())?;
    Ok(text)
}
