// One iteration of a leg, over the bytes of its region.

ghost use Rattle.std.specs.Prelude.{◌≡◌, ◌+◌, ◌≤◌, length, take, drop};
ghost use Rattle.code_verify.specs.Run.{run_body};
ghost use Rattle.leg_machine.specs.Iterations.{IsIteration};
ghost use Rattle.run_rules.specs.Node.{spliced};

use code_image::Image;
use leg_machine::{Context, Ended, iterate};

/// One iteration at the record that begins at `at` of a region's bytes. All other bytes stay.
pub fn iterate_in(
    bytes: &mut [u8],
    at: usize,
    image: &Image,
    context: &mut Context,
    writable: bool,
) -> Ended
    requires inside { at + image.now.record_size ≤ length bytes.old }
    requires pad { length context.old.pad ≡ image.now.pad_size }
    ensures ran { IsIteration result (run_body image.now.body_code (take image.now.record_size (drop at bytes.old)) context.old.pad context.old.cur writable) context.old context.new (take image.now.record_size (drop at bytes.old)) (take image.now.record_size (drop at bytes.new)) }
    ensures pad { length context.new.pad ≡ length context.old.pad }
    ensures others { bytes.new ≡ spliced bytes.old at (take image.now.record_size (drop at bytes.new)) }
{
    let size = image.record_size as usize;
    iterate(context, image, &mut bytes[at..at + size], writable)
}
