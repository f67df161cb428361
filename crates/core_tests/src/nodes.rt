// A node on its public calls: the rules of accepting and of turns, each beside a neighbour that differs in one field.

ghost use Rattle.std.specs.Prelude.{◌≡◌, ◌≢◌, ◌≤◌, ◌+◌, ◌^◌, IfOk, All, length};
ghost use Rattle.pulse_isa.specs.Spelling.{HasSpelling};
ghost use Rattle.node_core.specs.Part.{IsRegions};

use crate::code::code_of;
use code_image::{Image, Images};
use code_verify::{Sizes, verify};
use frame_codec::{Back, Ending, Leg};
use leg_ledger::LegKey;
use node_core::{Accepted, MemYard, Node, NodePart, NodeRegion, NodeRegions, Turned, Yard};
use pulse_base::{Bytes, FaultKind, Memory, PadBytes};
use pulse_isa::Instr;
use pulse_isa::Instr::{Add, GetP, GetW, Jne, Load, NextIter, PutP, PutW, Return, SetL};
use range_table::RegionSpan;
use std::alloc::Global;
use std::test::Fail;

// An image for one argument and records of 24 bytes.
fn image_of(alloc: Global, pad: u16, body: &[Instr]) -> Result<Image, Fail>
    requires some { 1 ≤ pad }
    requires fits { pad ≤ 256 }
    requires body { All HasSpelling body.now }
{
    let init = [
        Load { off: 0, len: 8 },
        GetW { a: 8, w: 8, off: 0 },
        NextIter { a: 8 },
    ];
    let init_sizes = Sizes {
        init: true,
        window: 8,
        pad,
    };
    let body_sizes = Sizes {
        init: false,
        window: 24,
        pad,
    };
    verify(&init, init_sizes)?;
    verify(body, body_sizes)?;
    let init_code = code_of(alloc, &init)?;
    let body_code = code_of(alloc, body)?;
    Ok(Image::new(24, pad, 1, init_code, body_code))
}

// Program 0 goes along a list for ever. Program 1 adds one to the second number of each record and to its pad, up to
// the record whose link is 0.
fn programs(alloc: Global) -> Result<Images, Fail> {
    let along = [
        Load { off: 16, len: 8 },
        GetW {
            a: 8,
            w: 8,
            off: 16,
        },
        NextIter { a: 8 },
    ];
    let bump = [
        Load { off: 8, len: 16 },
        SetL { a: 1, imm: 1 },
        GetW { a: 2, w: 8, off: 8 },
        Add { a: 2, b: 2, c: 1 },
        PutW { a: 2, w: 8, off: 8 },
        GetP { a: 3, w: 8, off: 0 },
        Add { a: 3, b: 3, c: 1 },
        PutP { a: 3, w: 8, off: 0 },
        GetW {
            a: 4,
            w: 8,
            off: 16,
        },
        SetL { a: 5, imm: 0 },
        Jne { a: 4, b: 5, to: 12 },
        Return,
        NextIter { a: 4 },
    ];
    let mut images = Images::new(alloc);
    images.push(image_of(alloc, 16, &along)?)?;
    images.push(image_of(alloc, 8, &bump)?)?;
    Ok(images)
}

// Two regions, the first of which ends before the second begins.
fn regions_of(alloc: Global, first: NodeRegion, second: NodeRegion) -> Result<NodeRegions, Memory>
    requires filled { 1 ≤ first.span.len }
    requires order { first.span.base + first.span.len ≤ second.span.base }
    requires some { 1 ≤ second.span.len }
    requires end { second.span.base + second.span.len ≤ 2 ^ 48 }
    requires total { first.span.len + second.span.len ≤ 2 ^ 24 }
    requires numbers { first.number ≢ second.number }
    requires first_bytes { length first.bytes ≡ first.span.len }
    requires second_bytes { length second.bytes ≡ second.span.len }
    ensures { IfOk result (λ regions. IsRegions regions) }
{
    let mut regions = NodeRegions::new(alloc);
    regions.push(first)?;
    regions.push(second)?;
    Ok(regions)
}

// Four records of 24 bytes from 4096 on, each with a key, a number and the link to the next.
const LIST: [u8; 96] = [
    10, 0, 0, 0, 0, 0, 0, 0, 1, 0, 0, 0, 0, 0, 0, 0, 0x18, 0x10, 0, 0, 0, 0, 0, 0, //
    20, 0, 0, 0, 0, 0, 0, 0, 2, 0, 0, 0, 0, 0, 0, 0, 0x30, 0x10, 0, 0, 0, 0, 0, 0, //
    30, 0, 0, 0, 0, 0, 0, 0, 3, 0, 0, 0, 0, 0, 0, 0, 0x48, 0x10, 0, 0, 0, 0, 0, 0, //
    40, 0, 0, 0, 0, 0, 0, 0, 4, 0, 0, 0, 0, 0, 0, 0, 0, 0, 0, 0, 0, 0, 0, 0,
];

// The list as region 5, and one record at 8192 as region 6, which links to 4150 and may not be written.
fn node_of(alloc: Global, read: bool, slots: u32) -> Result<Node, Fail>
    requires some { 1 ≤ slots }
    requires slots { slots ≤ 64 }
{
    let mut list = Bytes::new(alloc);
    list.append(&LIST)?;
    let first = NodeRegion {
        number: 5,
        span: RegionSpan {
            base: 4096,
            len: 96,
            read: true,
            write: true,
        },
        bytes: list,
    };
    let mut record = Bytes::new(alloc);
    record.append(&[
        0, 0, 0, 0, 0, 0, 0, 0, 0, 0, 0, 0, 0, 0, 0, 0, 0x36, 0x10, 0, 0, 0, 0, 0, 0,
    ])?;
    let second = NodeRegion {
        number: 6,
        span: RegionSpan {
            base: 8192,
            len: 24,
            read,
            write: false,
        },
        bytes: record,
    };
    let regions = regions_of(alloc, first, second)?;
    Ok(Node::make(alloc, regions, programs(alloc)?, slots)?)
}

fn leg_at(cur: u64, left: u16) -> Leg
    ensures { result.left ≡ left }
{
    Leg {
        client: 0,
        request: 0,
        leg: 0,
        program: 1,
        left,
        cur,
        pad: PadBytes::of(&[0; 8]),
    }
}

// A leg with one iteration left.
fn leg_of(client: u16, request: u32, leg: u32, program: u16, cur: u64) -> Leg
    ensures { result.left ≡ 1 }
{
    Leg {
        client,
        request,
        leg,
        program,
        left: 1,
        cur,
        pad: PadBytes::of(&[0; 8]),
    }
}

fn back_of(leg: &Leg, ending: Ending) -> Back {
    Back {
        client: leg.client,
        request: leg.request,
        leg: leg.leg,
        program: leg.program,
        left: leg.left,
        cur: leg.cur,
        pad: leg.pad,
        ending,
    }
}

fn counted(hits: u8) -> PadBytes {
    PadBytes::of(&[hits, 0, 0, 0, 0, 0, 0, 0])
}

// The back of a leg that came to `cur` with so many iterations left and so many counted in its pad.
fn back_at(leg: &Leg, ending: Ending, left: u16, cur: u64, hits: u8) -> Back {
    Back {
        left,
        cur,
        pad: counted(hits),
        ..back_of(leg, ending)
    }
}

// The back of a leg that made its one iteration on the first record of the list.
fn resumed(leg: &Leg) -> Back {
    back_at(leg, Ending::Resume, 0, 4120, 1)
}

// The back of a leg that may not store to its record.
fn unwritten(leg: &Leg) -> Back {
    back_of(leg, Ending::Fault(FaultKind::NotWritable))
}

// A reroute to where the record at 8192 links to.
fn away(leg: &Leg) -> Back {
    Back {
        left: 1,
        cur: 2_621_440,
        ..back_of(leg, Ending::Reroute)
    }
}

macro_rules! answers {
    ($rt:ident, $node:ident, $leg:expr, $want:expr) => {
        assert_eq!($rt; $node.accept(&$leg), $want);
    };
}

macro_rules! turns {
    ($rt:ident, $node:ident, $leg:expr, $back:expr) => {
        let key = LegKey { client: $leg.client, request: $leg.request, leg: $leg.leg };
        assert_eq!($rt; $node.turn(), Turned::Iterated { key, back: $back });
    };
}

#[test]
fn answers_a_leg_by_its_first_rule(rt: HostRuntime) -> Result<(), Fail> {
    let mut node = node_of(rt.alloc(), false, 1)?;
    let leg = leg_at(4096, 1);
    answers!(rt, node, leg, Accepted::Started);
    answers!(rt, node, leg, Accepted::Running);
    answers!(rt, node, leg_of(1, 0, 0, 1, 4096), Accepted::Full);
    answers!(rt, node, leg_of(0, 1, 0, 1, 4096), Accepted::Full);
    answers!(rt, node, leg_of(0, 0, 1, 1, 4096), Accepted::Full);
    answers!(rt, node, leg_of(0, 0, 0, 0, 4096), Accepted::Foreign);
    answers!(rt, node, leg_of(0, 0, 0, 2, 4096), Accepted::Foreign);
    answers!(rt, node, leg_of(0, 1, 0, 1, 5000), Accepted::Elsewhere);
    answers!(rt, node, leg_of(0, 1, 0, 1, 4095), Accepted::Elsewhere);
    answers!(rt, node, leg_of(0, 1, 0, 1, 4168), Accepted::Full);
    answers!(rt, node, leg_of(0, 1, 0, 1, 4169), Accepted::Elsewhere);
    let barred = leg_of(0, 1, 0, 1, 8192);
    let fault = Ending::Fault(FaultKind::NotReadable);
    answers!(rt, node, barred, Accepted::Answer(back_of(&barred, fault)));
    turns!(rt, node, leg, Some(resumed(&leg)));
    answers!(rt, node, leg, Accepted::Answer(resumed(&leg)));
    answers!(
        rt,
        node,
        leg_of(0, 0, 0, 1, 5000),
        Accepted::Answer(resumed(&leg))
    );
    assert_eq!(rt; node.turn(), Turned::Idle);
    answers!(rt, node, leg_of(0, 1, 0, 1, 4096), Accepted::Started);
    answers!(rt, node, leg, Accepted::Answer(resumed(&leg)));
    Ok(())
}

#[test]
fn shares_its_turns(rt: HostRuntime) -> Result<(), Fail> {
    let mut node = node_of(rt.alloc(), true, 2)?;
    let first = leg_at(4096, 5);
    let second = Leg {
        request: 1,
        ..leg_at(4144, 2)
    };
    answers!(rt, node, first, Accepted::Started);
    answers!(rt, node, second, Accepted::Started);
    turns!(rt, node, first, None);
    turns!(rt, node, second, None);
    turns!(rt, node, first, None);
    turns!(
        rt,
        node,
        second,
        Some(back_at(&second, Ending::Done, 0, 0, 2))
    );
    turns!(rt, node, first, None);
    turns!(
        rt,
        node,
        first,
        Some(back_at(&first, Ending::Done, 1, 0, 4))
    );
    assert!(rt; node.is_idle());
    assert!(rt; node.has_region(5) && !node.has_region(4));
    Ok(())
}

#[test]
fn ends_a_leg_where_it_can_not_go_on(rt: HostRuntime) -> Result<(), Fail> {
    let mut node = node_of(rt.alloc(), true, 2)?;
    let leg = leg_at(8192, 2);
    answers!(rt, node, leg, Accepted::Started);
    turns!(rt, node, leg, Some(unwritten(&leg)));
    answers!(rt, node, leg, Accepted::Answer(unwritten(&leg)));
    let along = Leg {
        request: 1,
        program: 0,
        pad: PadBytes::of(&[0; 16]),
        ..leg_at(8192, 3)
    };
    answers!(rt, node, along, Accepted::Started);
    turns!(rt, node, along, None);
    turns!(rt, node, along, Some(away(&along)));
    answers!(rt, node, along, Accepted::Answer(away(&along)));
    Ok(())
}

#[test]
fn gives_a_node_back(rt: HostRuntime) -> Result<(), Fail> {
    let alloc = rt.alloc();
    let mut yard = MemYard::new(alloc);
    let mut node = node_of(alloc, true, 1)?;
    let leg = leg_at(4168, 1);
    answers!(rt, node, leg, Accepted::Started);
    turns!(rt, node, leg, Some(back_at(&leg, Ending::Done, 0, 0, 1)));
    yard.give_back(node)?;
    for mut part in yard.parts() {
        assert!(rt; part.is_idle());
        answers!(
            rt,
            part,
            leg,
            Accepted::Answer(back_at(&leg, Ending::Done, 0, 0, 1))
        );
    }
    Ok(())
}
