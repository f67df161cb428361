// From images to bytes.

ghost use Rattle.std.specs.Prelude.{◌≡◌, IfOk};
ghost use Rattle.code_image.specs.Spelling.{header_of, image_bytes, Spells};

use crate::header::{Header, MAGIC, VERSION};
use crate::image::Image;
use crate::words::put_words;
use pulse_base::{Bytes, Memory};
use std::alloc::Global;

fn header_of(image: &Image) -> Header
    ensures { result ≡ header_of image.now }
{
    Header {
        magic: MAGIC,
        version: VERSION,
        args: image.args,
        record_size: image.record_size,
        pad_size: image.pad_size,
        init_words: image.init_code.len() as u16,
        body_words: image.body_code.len() as u16,
    }
}

/// The bytes of an image: a header of 14 bytes, and 8 bytes for each instruction of init and then of the body. They
/// spell the image, so `decode` reads it from them again.
pub fn encode(alloc: Global, image: &Image) -> Result<Bytes, Memory>
    ensures bytes { IfOk result (λ bytes. bytes ≡ image_bytes image.now) }
    ensures spells { IfOk result (λ bytes. Spells bytes image.now) }
{
    let mut bytes = Bytes::from_slice(alloc, &header_of(image).bytes())?;
    put_words(&mut bytes, image.init_code.as_slice())?;
    put_words(&mut bytes, image.body_code.as_slice())?;
    Ok(bytes)
}
