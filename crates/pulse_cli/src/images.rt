// The commands on the bytes of an image.

ghost use Rattle.std.specs.Prelude.{◌≡◌, ◌≢◌, IfOk, IfErr};
ghost use Rattle.code_image.specs.Spelling.{Spells};
ghost use Rattle.pulse_cli.specs.Answers.{AnswersList, AnswersVerify, verified_text};
ghost use Rattle.pulse_cli.specs.Steps.{Gives, IsOfImage};

use crate::failure::{Failure, Refusal};
use code_image::{Image, ImageFault, decode, listing};
use itoa::Buffer;
use pulse_base::{Bytes, Memory};
use std::alloc::Global;

/// The listing of an image.
pub(crate) fn list(alloc: Global, bytes: &[u8]) -> Result<Bytes, Failure>
    ensures { Gives (AnswersList bytes.now) result }
{
    let image = match read_image(alloc, bytes) {
        Ok(image) => image,
        Err(failure) => return Err(failure),
    };
    match listing(alloc, &image) {
        Ok(text) => Ok(text),
        Err(_) => Err(Failure::Memory),
    }
}

/// How many instructions the segments of an image have, all of them verified.
pub(crate) fn verify(alloc: Global, bytes: &[u8]) -> Result<Bytes, Failure>
    ensures { Gives (AnswersVerify bytes.now) result }
{
    let image = match read_image(alloc, bytes) {
        Ok(image) => image,
        Err(failure) => return Err(failure),
    };
    match verified_text(alloc, &image) {
        Ok(text) => Ok(text),
        Err(_) => Err(Failure::Memory),
    }
}

fn verified_text(alloc: Global, image: &Image) -> Result<Bytes, Memory>
    ensures { IfOk result (λ text. text ≡ verified_text image.now) }
{
    let mut text = Bytes::new(alloc);
    text.append(b"verified init ")?;
    text.append(Buffer::new().format(image.init_code.len()).as_bytes())?;
    text.append(b" body ")?;
    text.append(Buffer::new().format(image.body_code.len()).as_bytes())?;
    text.append(b"\n")?;
    Ok(text)
}

// The image that the bytes spell.
fn read_image(alloc: Global, bytes: &[u8]) -> Result<Image, Failure>
    ensures image { IfOk result (λ image. Spells bytes.now image) }
    ensures refused { IfErr result (IsOfImage bytes.now) }
{
    match decode(alloc, bytes) {
        Ok(image) => Ok(image),
        Err(fault) => Err(refused(fault)),
    }
}

fn refused(fault: ImageFault) -> Failure
    ensures memory { fault ≡ ImageFault.Memory → result ≡ Failure.Memory }
    ensures refused { fault ≢ ImageFault.Memory → result ≡ Failure.Refused (Refusal.Image fault) }
{
    match fault {
        ImageFault::Memory => Failure::Memory,
        _ => Failure::Refused(Refusal::Image(fault)),
    }
}
