// Numbers in bytes, the lowest byte first.

ghost use Rattle.std.specs.Prelude.{◌≡◌, ◌≤◌, length, Some};
ghost use Rattle.pulse_isa.specs.Bytes.{number, number_at, stored_at};
ghost use Rattle.code_verify.specs.Fits.{HasBytes};

// The number of up to eight bytes.
#[inline(always)]
fn number_in(bytes: &[u8]) -> u64
    requires { length bytes.now ≤ 8 }
    ensures { result ≡ number bytes.now }
{
    let mut all = [0; 8];
    all[..bytes.len()].copy_from_slice(bytes);
    u64::from_le_bytes(all)
}

// The number in 1, 2 or 4 bytes; any other width counts as 8. It stands apart, so that eight bytes are one test.
#[cold]
#[inline(never)]
fn read_narrow(bytes: &[u8], off: u32, w: u8) -> u64
    requires { HasBytes (length bytes.now) off w }
    ensures { number_at bytes.now off w ≡ Some result }
{
    let at = off as usize;
    match w {
        1 => number_in(&bytes[at..at + 1]),
        2 => number_in(&bytes[at..at + 2]),
        4 => number_in(&bytes[at..at + 4]),
        _ => number_in(&bytes[at..at + 8]),
    }
}

/// The number in `w` bytes at `off`. Eight bytes are tried first.
#[inline(always)]
pub fn read_number(bytes: &[u8], off: u32, w: u8) -> u64
    requires { HasBytes (length bytes.now) off w }
    ensures { number_at bytes.now off w ≡ Some result }
{
    if w == 8 {
        let at = off as usize;
        return number_in(&bytes[at..at + 8]);
    }
    read_narrow(bytes, off, w)
}

// Stores the low 1, 2 or 4 bytes of a number; any other width counts as 8.
#[cold]
#[inline(never)]
fn store_narrow(bytes: &mut [u8], off: u32, w: u8, value: u64)
    requires { HasBytes (length bytes.old) off w }
    ensures { stored_at bytes.old off w value ≡ Some bytes.new }
{
    let at = off as usize;
    let all = value.to_le_bytes();
    match w {
        1 => bytes[at..at + 1].copy_from_slice(&all[..1]),
        2 => bytes[at..at + 2].copy_from_slice(&all[..2]),
        4 => bytes[at..at + 4].copy_from_slice(&all[..4]),
        _ => bytes[at..at + 8].copy_from_slice(&all),
    }
}

/// Stores the low `w` bytes of a number at `off`. Eight bytes are tried first.
#[inline(always)]
pub fn store_number(bytes: &mut [u8], off: u32, w: u8, value: u64)
    requires { HasBytes (length bytes.old) off w }
    ensures { stored_at bytes.old off w value ≡ Some bytes.new }
{
    if w == 8 {
        let at = off as usize;
        bytes[at..at + 8].copy_from_slice(&value.to_le_bytes());
        return;
    }
    store_narrow(bytes, off, w, value);
}
