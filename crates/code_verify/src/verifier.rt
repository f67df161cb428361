// The verifier.

ghost use Rattle.std.specs.Prelude.{All, OnOk, IfErr};
ghost use Rattle.pulse_isa.specs.Spelling.{HasSpelling};
ghost use Rattle.code_verify.specs.Rules.{Verified, IsFirstBad};

use crate::bad::{Bad, BadKind, Sizes};
use crate::rules::{broken, loaded_window};
use pulse_isa::Instr;

/// Whether code keeps every rule, or the first that it breaks: in order of place, and at one place in the
/// order of [`BadKind`]. It passes the code once and takes no memory.
pub fn verify(code: &[Instr], sizes: Sizes) -> Result<(), Bad>
    requires spelled { All HasSpelling code.now }
    ensures verified { OnOk result (Verified sizes code.now) }
    ensures first { IfErr result (λ bad. IsFirstBad sizes code.now bad) }
{
    if code.is_empty() {
        return Err(Bad {
            at: 0,
            kind: BadKind::Empty,
        });
    }
    if code.len() > 8192 {
        return Err(Bad {
            at: 8192,
            kind: BadKind::TooLong,
        });
    }
    let window = loaded_window(code);
    let len = code.len() as u32;
    'places: for place in 0..len {
        if let Some(kind) = broken(sizes, window, len, place, code[place as usize]) {
            return Err(Bad { at: place, kind });
        }
    }
    Ok(())
}
