// From frames to bytes.

ghost use Rattle.std.specs.Prelude.{◌≡◌, ◌≤◌, length};
ghost use Rattle.frame_codec.specs.Spelling.{MeetsRules, Spells, header_of, pad_of, HasPad, fault_number, ending_number, ending_fault};

use crate::frame::{Ending, Frame};
use crate::header::{FRAME_MAX, Header, MAGIC, VERSION, put};
use arrayvec::ArrayVec;
use pulse_base::FaultKind;

fn fault_number(kind: FaultKind) -> u8
    ensures { result ≡ fault_number kind }
{
    match kind {
        FaultKind::Unmapped => 1,
        FaultKind::NotReadable => 2,
        FaultKind::NotWritable => 3,
        FaultKind::DivZero => 4,
    }
}

// The numbers of an ending and of its fault.
fn ending_numbers(ending: Ending) -> (u8, u8)
    ensures { result ≡ (ending_number ending, ending_fault ending) }
{
    match ending {
        Ending::Done => (1, 0),
        Ending::Reroute => (2, 0),
        Ending::Resume => (3, 0),
        Ending::Fault(kind) => (4, fault_number(kind)),
    }
}

fn pad_of(frame: &Frame) -> &[u8]
    ensures bytes { result.now ≡ pad_of frame.now }
    ensures fits { HasPad frame.now }
    ensures len { length result.now ≤ 256 }
{
    match frame {
        Frame::Leg(leg) => leg.pad.bytes(),
        Frame::Back(back) => back.pad.bytes(),
        Frame::Stop => &[],
    }
}

// The header of a stop.
const STOP: Header = Header {
    magic: MAGIC,
    version: VERSION,
    kind: 3,
    client: 0,
    request: 0,
    leg: 0,
    program: 0,
    left: 0,
    ending: 0,
    fault: 0,
    cur: 0,
    pad_len: 0,
};

fn header_of(frame: &Frame) -> Header
    ensures { result ≡ header_of frame.now }
{
    let pad_len = pad_of(frame).len() as u16;
    match frame {
        Frame::Leg(leg) => Header {
            kind: 1,
            client: leg.client,
            request: leg.request,
            leg: leg.leg,
            program: leg.program,
            left: leg.left,
            cur: leg.cur,
            pad_len,
            ..STOP
        },
        Frame::Back(back) => {
            let (ending, fault) = ending_numbers(back.ending);
            Header {
                kind: 2,
                client: back.client,
                request: back.request,
                leg: back.leg,
                program: back.program,
                left: back.left,
                ending,
                fault,
                cur: back.cur,
                pad_len,
                ..STOP
            }
        }
        Frame::Stop => STOP,
    }
}

/// The bytes of a frame.
pub fn encode(frame: &Frame) -> ArrayVec<u8, FRAME_MAX>
    requires { MeetsRules frame.now }
    ensures { Spells result.items frame.now }
{
    let mut out = ArrayVec::new();
    header_of(frame).write(&mut out);
    put(&mut out, pad_of(frame));
    out
}
