ghost use Rattle.std.specs.Prelude.{◌≡◌};
ghost use Rattle.frame_codec.specs.Spelling.{MeetsRules};

use arrayvec::ArrayVec;
use frame_codec::{Back, BadFrame, Ending, Frame, Leg, decode, encode};
use pulse_base::{FaultKind, PadBytes};
use std::process::Abort;

// Frames with a pad of one byte, each number of them as small as the rules allow.
const LEG: [u8; 31] = [
    0x50, 0x4c, 1, 1, 0, 0, 0, 0, 0, 0, 0, 0, 0, 0, 0, 0, 1, 0, 0, 0, 0, 0x10, 0, 0, 0, 0, 0, 0, 1,
    0, 0,
];

const DONE: [u8; 31] = [
    0x50, 0x4c, 1, 2, 0, 0, 0, 0, 0, 0, 0, 0, 0, 0, 0, 0, 0, 0, 1, 0, 0, 0, 0, 0, 0, 0, 0, 0, 1, 0,
    0,
];

const REROUTE: [u8; 31] = [
    0x50, 0x4c, 1, 2, 0, 0, 0, 0, 0, 0, 0, 0, 0, 0, 0, 0, 1, 0, 2, 0, 0, 0, 0, 0, 0, 0, 0, 0, 1, 0,
    0,
];

const RESUME: [u8; 31] = [
    0x50, 0x4c, 1, 2, 0, 0, 0, 0, 0, 0, 0, 0, 0, 0, 0, 0, 0, 0, 3, 0, 0, 0, 0, 0, 0, 0, 0, 0, 1, 0,
    0,
];

const FAULT: [u8; 31] = [
    0x50, 0x4c, 1, 2, 0, 0, 0, 0, 0, 0, 0, 0, 0, 0, 0, 0, 1, 0, 4, 1, 0, 0, 0, 0, 0, 0, 0, 0, 1, 0,
    0,
];

const STOP: [u8; 30] = [
    0x50, 0x4c, 1, 3, 0, 0, 0, 0, 0, 0, 0, 0, 0, 0, 0, 0, 0, 0, 0, 0, 0, 0, 0, 0, 0, 0, 0, 0, 0, 0,
];

// A back whose other numbers differ from one another, byte by byte.
fn back(left: u16, cur: u64, ending: Ending) -> Back
    ensures left { result.left ≡ left }
    ensures cur { result.cur ≡ cur }
    ensures ending { result.ending ≡ ending }
{
    Back {
        client: 0x0201,
        request: 0x0605_0403,
        leg: 0x0a09_0807,
        program: 0x0c0b,
        left,
        cur,
        pad: PadBytes::of(&[7, 8]),
        ending,
    }
}

// A frame is these 30 bytes and this pad, and they are the frame.
fn agree(rt: &impl Abort, frame: &Frame, header: &[u8; 30], pad: &[u8])
    requires { MeetsRules frame.now }
{
    let mut want = ArrayVec::<u8, 286>::new();
    assert!(rt; want.try_extend_from_slice(header).is_ok());
    assert!(rt; want.try_extend_from_slice(pad).is_ok());
    assert_eq!(rt; encode(frame).as_slice(), want.as_slice());
    assert_eq!(rt; decode(want.as_slice()), Ok(*frame));
}

#[test]
fn a_leg_of_one_zero_byte(rt: HostRuntime) {
    let leg = Frame::Leg(Leg {
        client: 0,
        request: 0,
        leg: 0,
        program: 0,
        left: 1,
        cur: 4096,
        pad: PadBytes::of(&[0]),
    });
    assert_eq!(rt; encode(&leg).as_slice(), LEG.as_slice());
    assert_eq!(rt; decode(&LEG), Ok(leg));
    for len in 0..31 {
        assert_eq!(rt; decode(&LEG[..len]), Err(BadFrame::Short), "at {len}");
    }
}

#[test]
fn a_leg_of_the_greatest_numbers(rt: HostRuntime) {
    agree(
        &rt,
        &Frame::Leg(Leg {
            client: u16::MAX,
            request: u32::MAX,
            leg: u32::MAX,
            program: u16::MAX,
            left: u16::MAX,
            cur: u64::MAX,
            pad: PadBytes::of(&[0xa5; 256]),
        }),
        &[
            0x50, 0x4c, 1, 1, 255, 255, 255, 255, 255, 255, 255, 255, 255, 255, 255, 255, 255, 255,
            0, 0, 255, 255, 255, 255, 255, 255, 255, 255, 0, 1,
        ],
        &[0xa5; 256],
    );
}

#[test]
fn backs_that_end_without_a_fault(rt: HostRuntime) {
    agree(
        &rt,
        &Frame::Back(back(0x0e0d, 0x1817_1615_1413_1211, Ending::Reroute)),
        &[
            0x50, 0x4c, 1, 2, 1, 2, 3, 4, 5, 6, 7, 8, 9, 10, 11, 12, 13, 14, 2, 0, 0x11, 0x12,
            0x13, 0x14, 0x15, 0x16, 0x17, 0x18, 2, 0,
        ],
        &[7, 8],
    );
    agree(
        &rt,
        &Frame::Back(back(0x0e0d, 0, Ending::Done)),
        &[
            0x50, 0x4c, 1, 2, 1, 2, 3, 4, 5, 6, 7, 8, 9, 10, 11, 12, 13, 14, 1, 0, 0, 0, 0, 0, 0,
            0, 0, 0, 2, 0,
        ],
        &[7, 8],
    );
    agree(
        &rt,
        &Frame::Back(back(0, 0x1817_1615_1413_1211, Ending::Resume)),
        &[
            0x50, 0x4c, 1, 2, 1, 2, 3, 4, 5, 6, 7, 8, 9, 10, 11, 12, 0, 0, 3, 0, 0x11, 0x12, 0x13,
            0x14, 0x15, 0x16, 0x17, 0x18, 2, 0,
        ],
        &[7, 8],
    );
}

#[test]
fn a_stop_is_a_header_alone(rt: HostRuntime) {
    agree(&rt, &Frame::Stop, &STOP, &[]);
}

#[test]
fn faults_by_their_numbers(rt: HostRuntime) {
    let faults = [
        (FaultKind::Unmapped, 1),
        (FaultKind::NotReadable, 2),
        (FaultKind::NotWritable, 3),
        (FaultKind::DivZero, 4),
    ];
    for (kind, number) in faults {
        let back = Frame::Back(Back {
            client: 0,
            request: 0,
            leg: 0,
            program: 0,
            left: 1,
            cur: 0,
            pad: PadBytes::of(&[0]),
            ending: Ending::Fault(kind),
        });
        let mut want = FAULT;
        want[19] = number;
        assert_eq!(rt; encode(&back).as_slice(), want.as_slice());
        assert_eq!(rt; decode(&want), Ok(back));
    }
}

// Why the bytes are refused once the byte at `at` is `byte`, if they are.
fn refusal(rt: &impl Abort, bytes: &[u8], at: usize, byte: u8) -> Option<BadFrame> {
    let mut edited = ArrayVec::<u8, 286>::new();
    assert!(rt; edited.try_extend_from_slice(bytes).is_ok());
    let place = edited.get_mut(at).expect(rt, "the place is in the frame");
    *place = byte;
    decode(edited.as_slice()).err()
}

// Refused for a number that breaks its rules.
const FIELD: Option<BadFrame> = Some(BadFrame::Field);

#[test]
fn one_byte_of_a_leg_past_its_bound(rt: HostRuntime) {
    let cases = [
        (0, 0x51, Some(BadFrame::Magic)),
        (1, 0x4d, Some(BadFrame::Magic)),
        (2, 0, Some(BadFrame::Version)),
        (2, 2, Some(BadFrame::Version)),
        (3, 0, Some(BadFrame::Kind)),
        (3, 4, Some(BadFrame::Kind)),
        (16, 0, FIELD),
        (18, 1, FIELD),
        (19, 1, FIELD),
        (28, 0, FIELD),
        (28, 2, Some(BadFrame::Short)),
        (29, 1, FIELD),
    ];
    for (at, byte, want) in cases {
        assert_eq!(rt; refusal(&rt, &LEG, at, byte), want, "{byte} at {at}");
    }
}

#[test]
fn one_byte_of_a_back_past_its_bound(rt: HostRuntime) {
    let cases = [
        (&DONE, 16, 1, None),
        (&DONE, 18, 0, FIELD),
        (&DONE, 18, 5, FIELD),
        (&DONE, 19, 1, FIELD),
        (&DONE, 20, 1, FIELD),
        (&DONE, 27, 1, FIELD),
        (&DONE, 28, 0, FIELD),
        (&DONE, 29, 1, FIELD),
        (&REROUTE, 16, 0, FIELD),
        (&REROUTE, 19, 1, FIELD),
        (&REROUTE, 27, 1, None),
        (&RESUME, 16, 1, FIELD),
        (&RESUME, 17, 1, FIELD),
        (&RESUME, 19, 1, FIELD),
        (&RESUME, 27, 1, None),
        (&FAULT, 16, 0, FIELD),
        (&FAULT, 19, 0, FIELD),
        (&FAULT, 19, 4, None),
        (&FAULT, 19, 5, FIELD),
    ];
    for (frame, at, byte, want) in cases {
        assert_eq!(rt; refusal(&rt, frame, at, byte), want, "{byte} at {at}");
    }
}

#[test]
fn one_byte_of_a_stop_past_its_bound(rt: HostRuntime) {
    for at in 4..30 {
        assert_eq!(rt; refusal(&rt, &STOP, at, 1), FIELD, "at {at}");
    }
}

#[test]
fn bytes_after_the_pad(rt: HostRuntime) {
    for frame in [LEG.as_slice(), DONE.as_slice(), STOP.as_slice()] {
        let mut longer = ArrayVec::<u8, 286>::new();
        assert!(rt; longer.try_extend_from_slice(frame).is_ok());
        assert!(rt; longer.try_push(0).is_ok());
        assert_eq!(rt; decode(longer.as_slice()), Err(BadFrame::Long));
    }
}

// The first check that fails decides.
#[test]
fn checks_in_their_order(rt: HostRuntime) {
    let mut bytes = [0; 30];
    assert_eq!(rt; decode(&bytes[..29]), Err(BadFrame::Short));
    assert_eq!(rt; decode(&bytes), Err(BadFrame::Magic));
    bytes[0] = 0x50;
    bytes[1] = 0x4c;
    assert_eq!(rt; decode(&bytes), Err(BadFrame::Version));
    bytes[2] = 1;
    assert_eq!(rt; decode(&bytes), Err(BadFrame::Kind));
    bytes[3] = 1;
    assert_eq!(rt; decode(&bytes), Err(BadFrame::Field));
    bytes[16] = 1;
    bytes[29] = 1;
    assert_eq!(rt; decode(&bytes), Err(BadFrame::Short));
}
