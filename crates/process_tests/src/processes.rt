// The three processes of two documents, each over a link in memory.

use crate::documents::{ANSWER, DONE, INNER, LEG, LIST, STOP, THREE_NODES};
use node_core::MemYard;
use pulse_base::{Bytes, Memory, Numbers};
use pulse_net::{Item, Items, MemLink};
use pulse_process::{FormLimit, ProcessFault, Told, run_ask, run_node, run_switch};
use std::alloc::Global;
use std::test::Fail;

// The line of the list's region, and the last one.
const REGION: &str = "region 0 hex \
0a0000000000000001000000000000001810000000000000\
140000000000000002000000000000003010000000000000\
1e0000000000000003000000000000004810000000000000\
280000000000000004000000000000000000000000000000
end
";

// A link over which gaps come in and then frames, of which one call fails.
fn link_of(alloc: Global, gaps: u32, frames: &[&[u8]], fail: u32) -> Result<MemLink, Memory> {
    let mut items = Items::new(alloc);
    for _ in 0..gaps {
        items.push(Item::Gap)?;
    }
    for frame in frames {
        let bytes = Bytes::from_slice(alloc, frame)?;
        items.push(Item::Frame { port: 47000, bytes })?;
    }
    let fails = Numbers::from_slice(alloc, &[fail])?;
    Ok(MemLink::make(alloc, items, fails))
}

// Whether this frame was sent at this place, and to this port.
fn is_sent(link: &MemLink, at: usize, port: u16, bytes: &[u8]) -> bool {
    match link.sent().get(at) {
        Some(sent) => sent.port == port && sent.bytes.as_slice() == bytes,
        None => false,
    }
}

fn tells(told: &Told, text: &str, finished: bool) -> bool {
    told.finished == finished && told.text.as_slice() == text.as_bytes()
}

#[test]
fn a_client_asks_and_tells_its_answer(rt: HostRuntime) -> Result<(), Fail> {
    let mut link = link_of(rt.alloc(), 1, &[DONE], 9)?;
    let told = run_ask(rt.alloc(), LIST.as_bytes(), 0, 5, &mut link)?;
    assert!(rt; tells(&told, ANSWER, true));
    assert!(rt; link.bound() == [47065].as_slice());
    assert!(rt; is_sent(&link, 0, 47000, LEG));
    assert!(rt; is_sent(&link, 1, 47000, LEG));
    assert_eq!(rt; link.sent().len(), 2);
    Ok(())
}

#[test]
fn the_switch_passes_a_leg_on_and_uses_its_turns(rt: HostRuntime) -> Result<(), Fail> {
    let mut link = link_of(rt.alloc(), 0, &[INNER], 9)?;
    let told = run_switch(rt.alloc(), THREE_NODES.as_bytes(), 2, &mut link)?;
    assert!(rt; tells(&told, "", false));
    assert!(rt; link.bound() == [47000].as_slice());
    assert!(rt; is_sent(&link, 0, 47002, INNER));
    assert_eq!(rt; link.sent().len(), 1);
    Ok(())
}

#[test]
fn a_node_tells_its_region(rt: HostRuntime) -> Result<(), Fail> {
    let mut yard = MemYard::new(rt.alloc());
    let mut link = link_of(rt.alloc(), 0, &[LEG, STOP], 9)?;
    let told = run_node(rt.alloc(), LIST.as_bytes(), 0, 3, &mut link, &mut yard)?;
    assert!(rt; tells(&told, REGION, true));
    assert!(rt; link.bound() == [47001].as_slice());
    assert_eq!(rt; link.sent().len(), 0);
    let mut gaps = link_of(rt.alloc(), 3, &[], 9)?;
    let told = run_node(rt.alloc(), LIST.as_bytes(), 0, 3, &mut gaps, &mut yard)?;
    assert!(rt; tells(&told, REGION, false));
    assert_eq!(rt; yard.parts().len(), 2);
    Ok(())
}

#[test]
fn a_process_that_is_not_there_and_a_port_that_fails(rt: HostRuntime) -> Result<(), Fail> {
    let mut yard = MemYard::new(rt.alloc());
    let mut link = link_of(rt.alloc(), 0, &[], 0)?;
    let node = run_node(
        rt.alloc(),
        THREE_NODES.as_bytes(),
        3,
        3,
        &mut link,
        &mut yard,
    );
    assert!(rt; matches!(node, Err(ProcessFault::Form(FormLimit::Node))));
    let client = run_ask(rt.alloc(), THREE_NODES.as_bytes(), 1, 3, &mut link);
    assert!(rt; matches!(client, Err(ProcessFault::Form(FormLimit::Client))));
    let refused = run_ask(rt.alloc(), b"nodes", 0, 3, &mut link);
    assert!(rt; matches!(refused, Err(ProcessFault::Document(_))));
    let fault = run_ask(rt.alloc(), THREE_NODES.as_bytes(), 0, 3, &mut link);
    assert!(rt; matches!(fault, Err(ProcessFault::Link)));
    Ok(())
}
