// Images.

ghost use Rattle.std.specs.Prelude.{◌≡◌, ◌≤◌};
ghost use Rattle.code_verify.specs.Rules.{Verified};
ghost use Rattle.code_image.specs.Segments.{IsSize, init_sizes, body_sizes};

use pulse_base::Listed;
use pulse_isa::Instr;

/// The instructions of a segment, in the order of their places.
pub type Code = Listed<Instr>;

/// Images by the numbers of their programs.
pub type Images = Listed<Image>;

/// A compiled iterator. Both segments are verified, so each of their instructions has a spelling: `init_code` for
/// the arguments, of 8 bytes each, and the pad, and `body_code` for the record and the pad.
#[derive(Debug, Drop)]
pub struct Image {
    /// The bytes of a record, 1 to 256.
    pub record_size: u16,
    /// The bytes of the pad, 1 to 256.
    pub pad_size: u16,
    /// The number of arguments, at most 8.
    pub args: u8,
    pub init_code: Code,
    pub body_code: Code,
    pub ghost record_is_size: { IsSize record_size },
    pub ghost pad_is_size: { IsSize pad_size },
    pub ghost args_fit: { args ≤ 8 },
    pub ghost init_verified: { Verified (init_sizes args pad_size) init_code },
    pub ghost body_verified: { Verified (body_sizes record_size pad_size) body_code },
}

impl Image {
    /// The image of these parts.
    pub fn new(record_size: u16, pad_size: u16, args: u8, init_code: Code, body_code: Code) -> Image
        requires record_is_size { IsSize record_size }
        requires pad_is_size { IsSize pad_size }
        requires args_fit { args ≤ 8 }
        requires init_verified { Verified (init_sizes args pad_size) init_code }
        requires body_verified { Verified (body_sizes record_size pad_size) body_code }
        ensures record_size { result.record_size ≡ record_size }
        ensures pad_size { result.pad_size ≡ pad_size }
        ensures args { result.args ≡ args }
        ensures init_code { result.init_code ≡ init_code }
        ensures body_code { result.body_code ≡ body_code }
    {
        Image {
            record_size,
            pad_size,
            args,
            init_code,
            body_code,
        }
    }
}
