// The rules of a switch over two regions on two nodes, with one program and one client.

use frame_codec::{Back, Ending, Frame, Leg};
use pulse_base::{FaultKind, Numbers, PadBytes};
use range_table::{RegionSpan, Regions, Table};
use run_rules::Out;
use std::alloc::Global;
use std::test::Fail;
use switch_core::Switch;

fn leg(cur: u64) -> Leg {
    Leg {
        client: 0,
        request: 7,
        leg: 3,
        program: 0,
        left: 5,
        cur,
        pad: PadBytes::of(&[1]),
    }
}

fn region(base: u64) -> RegionSpan {
    RegionSpan {
        base,
        len: 48,
        read: false,
        write: false,
    }
}

fn back(leg: Leg, ending: Ending) -> Back {
    Back {
        client: leg.client,
        request: leg.request,
        leg: leg.leg,
        program: leg.program,
        left: leg.left,
        cur: leg.cur,
        pad: leg.pad,
        ending,
    }
}

// Regions at 4096 and 4144 on nodes 5 and 6, a program on records of 24 bytes, and one client.
fn switch(alloc: Global) -> Result<Switch, Fail> {
    let mut list = Regions::new(alloc);
    list.push(region(4096))?;
    list.push(region(4144))?;
    let owners = Numbers::from_slice(alloc, &[5, 6])?;
    let sizes = Numbers::from_slice(alloc, &[24])?;
    Ok(Switch::make(Table::new(list)?, owners, sizes, 1))
}

// A leg with another client, program or number.
fn other(client: u16, program: u16, number: u32, cur: u64) -> Leg {
    let mut leg = leg(cur);
    leg.client = client;
    leg.program = program;
    leg.leg = number;
    leg
}

#[test]
fn sends_each_frame_on(rt: HostRuntime) -> Result<(), Fail> {
    let switch = switch(rt.alloc())?;
    let unmapped = Ending::Fault(FaultKind::Unmapped);
    let rows = [
        (Frame::Leg(leg(4120)), Out::ToNode(5, leg(4120))),
        (Frame::Leg(leg(4144)), Out::ToNode(6, leg(4144))),
        (
            Frame::Leg(leg(4121)),
            Out::ToClient(0, back(leg(4121), unmapped)),
        ),
        (Frame::Leg(other(1, 0, 3, 4120)), Out::Nothing),
        (Frame::Leg(other(0, 1, 3, 4120)), Out::Nothing),
        (
            Frame::Back(back(leg(4144), Ending::Reroute)),
            Out::ToNode(6, other(0, 0, 4, 4144)),
        ),
        (
            Frame::Back(back(other(0, 0, u32::MAX, 4144), Ending::Reroute)),
            Out::Nothing,
        ),
        (
            Frame::Back(back(leg(4144), Ending::Done)),
            Out::ToClient(0, back(leg(4144), Ending::Done)),
        ),
        (Frame::Stop, Out::Nothing),
    ];
    for (frame, out) in &rows {
        assert_eq!(rt; switch.on(frame), *out);
    }
    Ok(())
}
