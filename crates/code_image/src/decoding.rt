// From bytes to images.

ghost use Rattle.std.specs.Prelude.{◌≡◌, ◌≢◌, Bool, length, All, IfOk, IfErr, IsErrAnd, IsTrue};
ghost use Rattle.pulse_isa.specs.Spelling.{HasSpelling};
ghost use Rattle.code_verify.specs.declared.bad.Bad.{Bad};
ghost use Rattle.code_image.specs.declared.image.Image.{Image};
ghost use Rattle.code_image.specs.declared.fault.ImageFault.{ImageFault};
ghost use Rattle.code_image.specs.Spelling.{Spells, IsSame};
ghost use Rattle.code_image.specs.Checks.{header_fault, words_len, sizes_fit, within, IsBadFirst, Refuses, RefusesWords};
ghost use Rattle.code_image.specs.Parts.{IsMadeOf, IsImageOf};

use crate::fault::ImageFault;
use crate::header::{HEADER_LEN, Header, MAGIC, VERSION};
use crate::image::{Code, Image};
use crate::words::read_words;
use code_verify::{Sizes, verify};
use std::alloc::Global;

fn within(low: u16, high: u16, n: u16) -> bool
    ensures { result ≡ within low high n }
{
    low <= n && n <= high
}

fn sizes_fit(header: &Header) -> bool
    ensures { result ≡ sizes_fit header.now }
{
    header.args <= 8 && within(1, 256, header.record_size) && within(1, 256, header.pad_size)
}

// The first check of a header that fails where so many bytes follow it.
fn header_fault(header: &Header, after: usize) -> Option<ImageFault>
    ensures { result ≡ header_fault header.now after }
{
    let len = 8 * (usize::from(header.init_words) + usize::from(header.body_words));
    if header.magic != MAGIC {
        return Some(ImageFault::Magic);
    }
    if header.version != VERSION {
        return Some(ImageFault::Version);
    }
    if !sizes_fit(header) {
        return Some(ImageFault::Size);
    }
    if after < len {
        return Some(ImageFault::Short);
    }
    if len < after {
        return Some(ImageFault::Long);
    }
    None
}

// The image of two segments, or the first rule that one of them breaks.
fn verified(header: Header, init_code: Code, body_code: Code) -> Result<Image, ImageFault>
    requires sizes { IsTrue (sizes_fit header) }
    requires init { All HasSpelling init_code }
    requires body { All HasSpelling body_code }
    ensures parts { IfOk result (λ image. IsMadeOf image header init_code body_code) }
    ensures refused { IfErr result (λ e. (body : Bool) × (bad : Bad) × IsBadFirst header init_code body_code body bad × (e ≡ ImageFault.Bad body bad)) }
{
    let (window, pad) = (8 * u16::from(header.args), header.pad_size);
    let init = true;
    if let Err(bad) = verify(init_code.as_slice(), Sizes { init, window, pad }) {
        return Err(ImageFault::Bad { body: false, bad });
    }
    let (init, window) = (false, header.record_size);
    if let Err(bad) = verify(body_code.as_slice(), Sizes { init, window, pad }) {
        return Err(ImageFault::Bad { body: true, bad });
    }
    Ok(Image::new(
        header.record_size,
        header.pad_size,
        header.args,
        init_code,
        body_code,
    ))
}

// The image of the words behind a header that passed its own checks.
fn image_of(alloc: Global, header: Header, rest: &[u8]) -> Result<Image, ImageFault>
    requires { header_fault header (length rest.now) ≡ None }
    ensures image { IfOk result (λ image. IsImageOf image header rest.now) }
    ensures refused { IfErr result (λ e. e ≢ ImageFault.Memory → RefusesWords header rest.now e) }
{
    let (init, body) = rest.split_at(8 * usize::from(header.init_words));
    let init_code = match read_words(alloc, init, header.init_words, 0) {
        Ok(code) => code,
        Err(fault) => return Err(fault),
    };
    let first = u32::from(header.init_words);
    let body_code = match read_words(alloc, body, header.body_words, first) {
        Ok(code) => code,
        Err(fault) => return Err(fault),
    };
    verified(header, init_code, body_code)
}

// The image that the bytes spell, or the first check that fails.
fn read(alloc: Global, bytes: &[u8]) -> Result<Image, ImageFault>
    ensures image { IfOk result (λ image. Spells bytes.now image) }
    ensures refused { IfErr result (λ e. e ≢ ImageFault.Memory → Refuses bytes.now e) }
{
    if bytes.len() < HEADER_LEN {
        return Err(ImageFault::Short);
    }
    let (header, rest) = Header::read(bytes);
    match header_fault(&header, rest.len()) {
        Some(fault) => Err(fault),
        None => image_of(alloc, header, rest),
    }
}

/// The image that the bytes spell, all of them: bytes spell at most one, and those of an image that was encoded spell
/// that image. Other bytes are refused by the first check that fails.
pub fn decode(alloc: Global, bytes: &[u8]) -> Result<Image, ImageFault>
    ensures image { IfOk result (λ image. Spells bytes.now image) }
    ensures refused { IfErr result (λ e. e ≢ ImageFault.Memory → Refuses bytes.now e) }
    ensures only { (image : Image) → Spells bytes.now image → IfOk result (λ found. IsSame found image) × IfErr result (λ e. e ≡ ImageFault.Memory) }
    ensures first { (fault : ImageFault) → Refuses bytes.now fault → IsErrAnd result (λ e. e ≢ ImageFault.Memory → e ≡ fault) }
{
    read(alloc, bytes)
}
