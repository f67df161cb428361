// Instructions as the words of an image.

ghost use Rattle.std.specs.Prelude.{ℕ, ◌≡◌, ◌≢◌, ◌+◌, ◌*◌, ◌<◌, ◌≤◌, ◌^◌, ◌++◌, length, take, drop, All, IfOk, IfErr, OnOk};
ghost use Rattle.pulse_isa.specs.Spelling.{HasSpelling};
ghost use Rattle.code_image.specs.Spelling.{words, OperandsFit};
ghost use Rattle.code_image.specs.Checks.{IsWords, NoWordFirst};

use crate::fault::ImageFault;
use crate::image::Code;
use pulse_base::{Bytes, Memory};
use pulse_isa::{Instr, from_word, to_word};
use std::alloc::Global;

/// Appends the words of instructions.
pub(crate) fn put_words(bytes: &mut Bytes, code: &[Instr]) -> Result<(), Memory>
    requires { All HasSpelling code.now }
    ensures words { OnOk result (bytes.new ≡ bytes.old ++ words code.now) }
    ensures fits { OnOk result (All OperandsFit code.now) }
{
    'words: for i in code {
        bytes.append(&to_word(i))?;
    }
    Ok(())
}

// The eight bytes from `at` on.
fn word_at(bytes: &[u8], at: usize) -> [u8; 8]
    requires { at + 8 ≤ length bytes.now }
    ensures { result ≡ take 8 (drop at bytes.now) }
{
    let word = &bytes[at..at + 8];
    [
        word[0], word[1], word[2], word[3], word[4], word[5], word[6], word[7],
    ]
}

/// The instructions that `count` words spell, of which the first is word `first` of the image.
pub(crate) fn read_words(
    alloc: Global,
    bytes: &[u8],
    count: u16,
    first: u32,
) -> Result<Code, ImageFault>
    requires whole { length bytes.now ≡ 8 * count }
    requires room { first + count < 2 ^ 32 }
    ensures words { IfOk result (λ code. IsWords code bytes.now) }
    ensures count { IfOk result (λ code. length code ≡ count) }
    ensures refused { IfErr result (λ e. e ≢ ImageFault.Memory → (k : ℕ) × NoWordFirst bytes.now k × (e ≡ ImageFault.Word (first + k))) }
{
    let mut code = Code::new(alloc);
    'words: for k in 0..count {
        let word = word_at(bytes, 8 * usize::from(k));
        match from_word(&word) {
            None => return Err(ImageFault::Word(first + u32::from(k))),
            Some(i) => code.push(i)?,
        }
    }
    Ok(code)
}
