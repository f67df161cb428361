// A compiled program.

ghost use Rattle.std.specs.Prelude.{◌≡◌, ◌<◌, length, IfOk, slice_get, Some};
ghost use Rattle.iter_unroll.specs.Uses.{flat_uses};
ghost use Rattle.iter_unroll.specs.Span.{IsSpan};
ghost use Rattle.pulse_codegen.specs.Compiled.{Compiles, CompilesAll};
ghost use Rattle.pulse_codegen.specs.Flat.{Fits, IsImageOfFlat};

use crate::segments::{body_segment, init_segment};
use code_image::{Image, Images};
use flat_hoist::hoist;
use iter_check::Checked;
use iter_unroll::{Flat, span, unroll};
use pulse_base::{Listed, Memory};
use std::alloc::Global;

/// A checked program and its images. Image `i` means iterator `i`: a run of its body is an iteration, and a run of its
/// init begins a walk. Its body loads once, and just the bytes that the iterator uses.
#[derive(Debug, Drop)]
pub struct Built {
    pub checked: Checked,
    pub images: Images,
    pub ghost compiled: { CompilesAll checked images },
}

impl Built {
    /// The program that was handed in.
    pub fn checked(&self) -> &Checked
        ensures { result.now ≡ self.now.checked }
    {
        &self.checked
    }

    /// The image of the iterator of a number.
    pub fn image(&self, iter: usize) -> &Image
        requires there { iter < length (self.now.checked).iters }
        ensures same { slice_get self.now.images iter ≡ Some result.now }
        ensures means { Compiles self.now.checked iter result.now }
    {
        self.images.get(iter)
    }

    /// All the images once more.
    pub fn copy_images(&self, alloc: Global) -> Result<Images, Memory>
        ensures { IfOk result (λ images. images ≡ self.now.images) }
    {
        let mut copies = Images::new(alloc);
        'copies: for image in self.images.as_slice() {
            copies.push(copy(alloc, image)?)?;
        }
        Ok(copies)
    }
}

fn copy(alloc: Global, image: &Image) -> Result<Image, Memory>
    ensures { IfOk result (λ copied. copied ≡ image.now) }
{
    let init_code = Listed::from_slice(alloc, image.init_code.as_slice())?;
    let body_code = Listed::from_slice(alloc, image.body_code.as_slice())?;
    Ok(Image {
        record_size: image.record_size,
        pad_size: image.pad_size,
        args: image.args,
        init_code,
        body_code,
    })
}

/// Compiles a checked program, iterator by iterator. It refuses for memory alone, and the program is gone in each case.
pub fn build(alloc: Global, checked: Checked) -> Result<Built, Memory>
    ensures { IfOk result (λ built. built.checked ≡ checked) }
{
    let mut images = Images::new(alloc);
    'iters: for iter in 0..checked.iters() {
        images.push(compile(alloc, &checked, iter)?)?;
    }
    Ok(Built { checked, images })
}

// The image of one iterator.
fn compile(alloc: Global, checked: &Checked, iter: usize) -> Result<Image, Memory>
    requires there { iter < length (checked.now).iters }
    ensures { IfOk result (Compiles checked.now iter) }
{
    let straight = unroll(alloc, checked, iter)?;
    let flat = hoist(alloc, straight)?;
    let (off, len) = span(&flat);
    image_of(alloc, &flat, off, len)
}

// The image of straight code, whose body loads `len` bytes of the record at `off`.
fn image_of(alloc: Global, flat: &Flat, off: u16, len: u16) -> Result<Image, Memory>
    requires fits { Fits flat.now }
    requires least { IsSpan (flat_uses flat.now) (off, len) }
    ensures { IfOk result (IsImageOfFlat flat.now) }
{
    let init_code = init_segment(alloc, flat)?;
    let body_code = body_segment(alloc, flat, off, len)?;
    Ok(Image::new(
        flat.record_size,
        flat.pad_size,
        flat.args,
        init_code,
        body_code,
    ))
}
