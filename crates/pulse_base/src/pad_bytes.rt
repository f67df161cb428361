// The scratchpad of a walk.

ghost use Rattle.std.specs.Prelude.{◌≡◌, ◌≤◌, ◌-◌, ◌++◌, length, replicate};

use std::marker::Model;

/// The bytes of a pad: 1 to 256 of them, kept in place. Contracts see a list of bytes.
#[derive(Clone, Copy, Debug, PartialEq, Eq)]
pub struct PadBytes {
    bytes: [u8; 256],
    len: u16,
}

impl Model for PadBytes {
    ghost use Rattle.std.specs.Prelude.{ℕ, List};
    ghost use Rattle.std.specs.Coded.{coded_list, coded_ℕ};

    ghost Value = { List ℕ };

    ghost coded = { coded_list coded_ℕ };

    ghost use Rattle.pulse_base.specs.Pad.{pad_view, IsPad, pad_fields};
    ghost use Rattle.pulse_base.specs.PadLaws.{pad_fields-view};

    ghost view = { pad_view };

    ghost invariant = { IsPad };

    ghost inverse = { pad_fields };

    ghost inverse_ok = { pad_fields-view };
}

// The bytes, and zeros after them.
fn zero_filled(bytes: &[u8]) -> [u8; 256]
    requires { length bytes.now ≤ 256 }
    ensures { result ≡ bytes.now ++ replicate (256 - length bytes.now) 0 }
{
    let mut all = [0; 256];
    all[..bytes.len()].copy_from_slice(bytes);
    all
}

impl PadBytes {
    /// A pad of these bytes.
    pub fn of(bytes: &[u8]) -> PadBytes
        requires some { 1 ≤ length bytes.now }
        requires fit { length bytes.now ≤ 256 }
        ensures { result ≡ bytes.now }
    {
        PadBytes {
            bytes: zero_filled(bytes),
            len: bytes.len() as u16,
        }
    }

    /// Puts as many other bytes in the place of these.
    pub fn put(&mut self, bytes: &[u8])
        requires { length bytes.now ≡ length self.old }
        ensures { self.new ≡ bytes.now }
    {
        self.bytes[..bytes.len()].copy_from_slice(bytes);
    }

    /// The bytes, 1 to 256 of them.
    pub fn bytes(&self) -> &[u8]
        ensures bytes { result.now ≡ self.now }
        ensures some { 1 ≤ length self.now }
        ensures fit { length self.now ≤ 256 }
    {
        &self.bytes[..self.len as usize]
    }
}
