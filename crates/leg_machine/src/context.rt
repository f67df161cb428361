// The context of a walk, and one iteration of it.

ghost use Rattle.std.specs.Prelude.{◌≡◌, length};
ghost use Rattle.code_verify.specs.Run.{run_body};
ghost use Rattle.leg_machine.specs.Iterations.{IsIteration};

use crate::step::Stop;
use crate::whole::run_whole;
use code_image::Image;
use pulse_base::PadBytes;

/// A walk between two iterations.
#[derive(Clone, Copy, Debug, PartialEq, Eq)]
pub struct Context {
    /// The pointer to the record that comes next.
    pub cur: u64,
    pub pad: PadBytes,
}

/// How an iteration ended.
#[derive(Clone, Copy, Debug, PartialEq, Eq)]
pub enum Ended {
    /// The walk is done. The pointer stays.
    Done,
    /// The walk goes on at the context's new pointer.
    Go,
    /// A store to the record without the permission.
    NotWritable,
    /// A division or a remainder by zero.
    DivZero,
}

/// Runs the body of an image at a record: its stores and the context's new pad take effect where it ends in `RETURN`
/// or `NEXT_ITER`, and a fault leaves the record and the context as they were. What the verifier has shown is not
/// tested again. Nothing is copied up to the first store; where one is reached, the record is copied once, and the
/// pad in and, where no fault came, out again.
pub fn iterate(context: &mut Context, image: &Image, bytes: &mut [u8], writable: bool) -> Ended
    requires record_fits { length bytes.old ≡ image.now.record_size }
    requires pad_fits { length context.old.pad ≡ image.now.pad_size }
    ensures ran { IsIteration result (run_body image.now.body_code bytes.old context.old.pad context.old.cur writable) context.old context.new bytes.old bytes.new }
    ensures pad_size { length context.new.pad ≡ length context.old.pad }
{
    let code = image.body_code.as_slice();
    match run_whole(code, bytes, &mut context.pad, context.cur, writable) {
        Stop::Done => Ended::Done,
        Stop::Go(to) => {
            context.cur = to;
            Ended::Go
        }
        Stop::NotWritable => Ended::NotWritable,
        Stop::DivZero => Ended::DivZero,
    }
}
