// Reading a source to its end.

ghost use Rattle.std.specs.Prelude.{◌≡◌, ◌≢◌, ◌≤◌};
ghost use Rattle.pulse_base.specs.Outside.{Rose};
ghost use Rattle.pulse_base.specs.Reading.{ReadsAll};

use crate::listed::Bytes;
use crate::source::{Failed, Source};
use std::alloc::Global;

/// Why a source was not read to its end. In each case a front of its bytes was read.
#[derive(Clone, Copy, Debug, PartialEq, Eq)]
pub enum ReadAll {
    /// A read failed.
    Fault,
    /// No read failed, and more than the wanted number of bytes stood before the end.
    TooLong,
    /// Memory ran out.
    Memory,
}

/// All the bytes up to the end, at most `max` of them. It makes at most `max + 2` reads.
pub fn read_all<R: Source>(alloc: Global, src: &mut R, max: usize) -> Result<Bytes, ReadAll>
    ensures fault { result ≡ Err ReadAll.Fault → Rose (R.faults src.old) (R.faults src.new) }
    ensures kept { result ≢ Err ReadAll.Fault → R.faults src.new ≡ R.faults src.old }
    ensures later { R.faults src.old ≤ R.faults src.new }
    ensures bytes { ReadsAll max (R.left src.old) (R.left src.new) result }
{
    let mut found = Bytes::new(alloc);
    let mut chunk = [0; 4096];
    'chunks: while found.len() <= max {
        let n = match src.read(&mut chunk) {
            Ok(n) => n,
            Err(Failed) => return Err(ReadAll::Fault),
        };
        if n == 0 {
            return Ok(found);
        }
        if let Err(_) = found.append(&chunk[..n]) {
            return Err(ReadAll::Memory);
        }
    }
    Err(ReadAll::TooLong)
}
