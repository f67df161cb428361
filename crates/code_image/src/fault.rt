// Why bytes are no image.

ghost use Rattle.std.specs.Prelude.{◌≡◌, Some};
ghost use Rattle.code_image.specs.Lines.{rule_name, segment_name, fault_text};

use code_verify::{Bad, BadKind};
use pulse_base::Memory;
use std::fmt;

/// The first check of an image's bytes that fails, in this order but for `Short`, which comes first for the header
/// and again before `Long`. `Display` gives the line that the program writes, without its `pulse: `.
#[derive(Clone, Copy, Debug, PartialEq, Eq)]
pub enum ImageFault {
    /// Fewer bytes than a header, or than the words that it counts.
    Short,
    /// The first four bytes are not `50 4c 49 4d`.
    Magic,
    /// The version is not 1.
    Version,
    /// More than 8 arguments, or a record or a pad that has not 1 to 256 bytes.
    Size,
    /// Bytes behind the last word.
    Long,
    /// The first word, counted from 0 over both segments, that spells no instruction.
    Word(u32),
    /// The first rule of the verifier that init, or else the body, breaks.
    Bad { body: bool, bad: Bad },
    /// Memory ran out.
    Memory,
}

impl From<Memory> for ImageFault {
    ghost use Rattle.std.specs.Prelude.{◌≡◌};
    ghost use Rattle.code_image.specs.declared.fault.ImageFault.TheVariants as f;

    ghost from_gives = { λ memory fault. fault ≡ f.Memory };

    fn from(_memory: Memory) -> ImageFault
        ensures { result ≡ ImageFault.Memory }
    {
        ImageFault::Memory
    }
}

fn segment_name(body: bool) -> &'static str
    ensures { result.now ≡ segment_name body }
{
    if body { "body" } else { "init" }
}

fn rule_name(kind: BadKind) -> &'static str
    ensures { result.now ≡ rule_name kind }
{
    match kind {
        BadKind::Empty => "empty",
        BadKind::TooLong => "too_long",
        BadKind::NoLoad => "no_load",
        BadKind::SecondLoad => "second_load",
        BadKind::Register => "register",
        BadKind::Kind => "kind",
        BadKind::Window => "window",
        BadKind::Pad => "pad",
        BadKind::Jump => "jump",
        BadKind::FallsOff => "falls_off",
    }
}

impl fmt::Display for ImageFault {
    ghost output = { λ fault. Some (fault_text fault) };

    fn fmt<W: fmt::Write>(&self, f: &mut fmt::Formatter<W>) -> fmt::Result {
        match *self {
            ImageFault::Short => f.write_str("image short"),
            ImageFault::Magic => f.write_str("image magic"),
            ImageFault::Version => f.write_str("image version"),
            ImageFault::Size => f.write_str("image size"),
            ImageFault::Long => f.write_str("image long"),
            ImageFault::Word(k) => write!(f, "image word {k}"),
            ImageFault::Bad { body, bad } => {
                let (segment, at, rule) = (segment_name(body), bad.at, rule_name(bad.kind));
                write!(f, "image bad {segment} {at} {rule}")
            }
            ImageFault::Memory => f.write_str("memory"),
        }
    }
}
