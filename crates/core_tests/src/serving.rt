// The three loops over a link in memory.

ghost use Rattle.std.specs.Prelude.{◌≡◌, ◌≤◌, IfOk, All};
ghost use Rattle.switch_core.specs.Owners.{IsNode};
ghost use Rattle.pulse_isa.specs.Spelling.{HasSpelling};

use crate::code::code_of;
use arrayvec::ArrayVec;
use client_core::Client;
use code_image::{Image, Images};
use code_verify::{Sizes, verify};
use node_core::{Node, NodeRegions};
use pulse_base::{Bytes, Memory, Numbers, RequestPlan, Requests};
use pulse_isa::Instr;
use pulse_isa::Instr::{GetW, Load, NextIter};
use pulse_net::{Item, Items, MemLink};
use pulse_serve::{Served, ask_all, serve_node, serve_switch};
use range_table::{RegionSpan, Regions, Table};
use std::alloc::Global;
use std::test::Fail;
use switch_core::Switch;

// Leg 0 of request 0 of client 0 with program 0, one iteration left, at 4096, and a pad of one zero byte.
const LEG: &[u8] = &[
    0x50, 0x4c, 1, 1, 0, 0, 0, 0, 0, 0, 0, 0, 0, 0, 0, 0, 1, 0, 0, 0, 0, 0x10, 0, 0, 0, 0, 0, 0, 1,
    0, 0,
];

// Its back, done with none left.
const DONE: &[u8] = &[
    0x50, 0x4c, 1, 2, 0, 0, 0, 0, 0, 0, 0, 0, 0, 0, 0, 0, 0, 0, 1, 0, 0, 0, 0, 0, 0, 0, 0, 0, 1, 0,
    0,
];

const STOP: &[u8] = &[
    0x50, 0x4c, 1, 3, 0, 0, 0, 0, 0, 0, 0, 0, 0, 0, 0, 0, 0, 0, 0, 0, 0, 0, 0, 0, 0, 0, 0, 0, 0, 0,
];

fn frame(alloc: Global, bytes: &[u8]) -> Result<Item, Memory> {
    let bytes = Bytes::from_slice(alloc, bytes)?;
    Ok(Item::Frame { port: 47000, bytes })
}

// A link over which a frame, a gap and a frame come in, and of which one call fails.
fn link_of(alloc: Global, first: &[u8], second: &[u8], fail: u32) -> Result<MemLink, Memory> {
    let mut items = Items::new(alloc);
    items.push(frame(alloc, first)?)?;
    items.push(Item::Gap)?;
    items.push(frame(alloc, second)?)?;
    let mut fails = Numbers::new(alloc);
    fails.push(fail)?;
    Ok(MemLink::make(alloc, items, fails))
}

// Whether it is the leg that was sent at this place, and to this port.
fn is_leg_sent(link: &MemLink, at: usize, port: u16) -> bool {
    match link.sent().get(at) {
        Some(sent) => sent.port == port && sent.bytes.as_slice() == LEG,
        None => false,
    }
}

// A program that goes where its one argument says, and on to the number that it finds there.
fn image(alloc: Global) -> Result<Image, Fail>
    ensures { IfOk result (λ i. i.args ≡ 1) }
{
    let code = [
        Load { off: 0, len: 8 },
        GetW { a: 8, w: 8, off: 0 },
        NextIter { a: 8 },
    ];
    let init_sizes = Sizes {
        init: true,
        window: 8,
        pad: 1,
    };
    let body_sizes = Sizes {
        init: false,
        window: 8,
        pad: 1,
    };
    verify(&code, init_sizes)?;
    verify(&code, body_sizes)?;
    let init_code = code_of(alloc, &code)?;
    let body_code = code_of(alloc, &code)?;
    Ok(Image::new(8, 1, 1, init_code, body_code))
}

// Client 0 with request 0, which asks for the argument 4096.
fn client(alloc: Global, image: Image) -> Result<Client, Fail>
    requires { image.args ≡ 1 }
{
    let mut images = Images::new(alloc);
    images.push(image)?;
    let mut args = ArrayVec::new();
    args.push(4096);
    let mut requests = Requests::new(alloc);
    requests.push(RequestPlan {
        number: 0,
        iter: 0,
        client: 0,
        args,
    })?;
    Ok(Client::make(alloc, 0, images, requests, 1, 1, 1)?)
}

// A switch with one region at 4096, on node 5.
fn switch(alloc: Global) -> Result<Switch, Fail>
    ensures nodes { IfOk result (λ s. All IsNode s.owners) }
    ensures clients { IfOk result (λ s. s.clients ≤ 16) }
{
    let mut regions = Regions::new(alloc);
    regions.push(RegionSpan {
        base: 4096,
        len: 8,
        read: true,
        write: true,
    })?;
    let owners = Numbers::from_slice(alloc, &[5])?;
    let sizes = Numbers::from_slice(alloc, &[8])?;
    Ok(Switch::make(Table::new(regions)?, owners, sizes, 1))
}

#[test]
fn the_switch_passes_a_leg_on(rt: HostRuntime) -> Result<(), Fail> {
    let switch = switch(rt.alloc())?;
    let mut link = link_of(rt.alloc(), LEG, STOP, 4)?;
    assert_eq!(rt;
        serve_switch(&mut link, &switch, 47000, 2),
        Served::TurnsUsed
    );
    assert!(rt; is_leg_sent(&link, 0, 47006));
    assert_eq!(rt; serve_switch(&mut link, &switch, 47000, 2), Served::Stopped);
    assert_eq!(rt;
        serve_switch(&mut link, &switch, 47000, 2),
        Served::LinkFault
    );
    Ok(())
}

#[test]
fn a_node_sends_back_a_leg_that_is_elsewhere(rt: HostRuntime) -> Result<(), Fail> {
    let mut images = Images::new(rt.alloc());
    images.push(image(rt.alloc())?)?;
    let mut node = Node::make(rt.alloc(), NodeRegions::new(rt.alloc()), images, 1)?;
    let mut link = link_of(rt.alloc(), LEG, STOP, 9)?;
    assert_eq!(rt; serve_node(&mut link, &mut node, 47000, 9), Served::Stopped);
    assert!(rt; is_leg_sent(&link, 0, 47000));
    assert_eq!(rt; link.sent().len(), 1);
    Ok(())
}

#[test]
fn a_client_asks_ticks_and_hears(rt: HostRuntime) -> Result<(), Fail> {
    let mut client = client(rt.alloc(), image(rt.alloc())?)?;
    let mut link = link_of(rt.alloc(), STOP, DONE, 9)?;
    assert_eq!(rt; ask_all(&mut link, &mut client, 47000, 9), Served::Stopped);
    assert!(rt; is_leg_sent(&link, 0, 47000));
    assert!(rt; is_leg_sent(&link, 1, 47000));
    assert_eq!(rt; link.sent().len(), 2);
    Ok(())
}
