// From bytes to frames.

ghost use Rattle.std.specs.Prelude.{◌≡◌, length, IfOk, IfErr, IsTrue};
ghost use Rattle.frame_codec.specs.declared.frame.Frame.{Frame};
ghost use Rattle.frame_codec.specs.declared.bad_frame.BadFrame.{BadFrame};
ghost use Rattle.frame_codec.specs.Spelling.{Spells, fault_number, ending_number, ending_fault};
ghost use Rattle.frame_codec.specs.Checks.{Refuses, within, ending_rules, first_fault};
ghost use Rattle.frame_codec.specs.Parts.{IsMadeOf};

use crate::bad_frame::BadFrame;
use crate::checks::first_fault;
use crate::frame::{Back, Ending, Frame, Leg};
use crate::header::{HEADER_LEN, Header};
use pulse_base::{FaultKind, PadBytes};

// The fault of a number from 1 to 4.
fn fault_of(number: u8) -> FaultKind
    requires { IsTrue (within 1 4 number) }
    ensures { fault_number result ≡ number }
{
    match number {
        1 => FaultKind::Unmapped,
        2 => FaultKind::NotReadable,
        3 => FaultKind::NotWritable,
        _ => FaultKind::DivZero,
    }
}

// The ending of a back, by its two numbers.
fn ending_of(header: &Header) -> Ending
    requires { IsTrue (ending_rules header.now) }
    ensures number { ending_number result ≡ header.now.ending }
    ensures fault { ending_fault result ≡ header.now.fault }
{
    match header.ending {
        1 => Ending::Done,
        2 => Ending::Reroute,
        3 => Ending::Resume,
        _ => Ending::Fault(fault_of(header.fault)),
    }
}

// The frame of a header and the bytes after it, with which nothing is wrong.
fn frame_of(header: &Header, pad: &[u8]) -> Frame
    requires { first_fault header.now (length pad.now) ≡ None }
    ensures { IsMadeOf result header.now pad.now }
{
    match header.kind {
        1 => Frame::Leg(Leg {
            client: header.client,
            request: header.request,
            leg: header.leg,
            program: header.program,
            left: header.left,
            cur: header.cur,
            pad: PadBytes::of(pad),
        }),
        2 => Frame::Back(Back {
            client: header.client,
            request: header.request,
            leg: header.leg,
            program: header.program,
            left: header.left,
            cur: header.cur,
            pad: PadBytes::of(pad),
            ending: ending_of(header),
        }),
        _ => Frame::Stop,
    }
}

/// The frame that the bytes spell, all of them.
pub fn decode(bytes: &[u8]) -> Result<Frame, BadFrame>
    // A frame comes exactly where the bytes are its spelling.
    ensures frame { IfOk result (λ frame. Spells bytes.now frame) }
    ensures only { (frame : Frame) → Spells bytes.now frame → result ≡ Ok frame }

    // A refusal comes exactly where it is the first check that fails.
    ensures refused { IfErr result (λ bad. Refuses bytes.now bad) }
    ensures first { (bad : BadFrame) → Refuses bytes.now bad → result ≡ Err bad }
{
    if bytes.len() < HEADER_LEN {
        return Err(BadFrame::Short);
    }
    let (header, pad) = Header::read(bytes);
    match first_fault(&header, pad.len()) {
        Some(bad) => Err(bad),
        None => Ok(frame_of(&header, pad)),
    }
}
