// A cluster over a link and a spawner in memory.

use crate::documents::{ANSWER, DONE, STOP, THREE_NODES};
use pulse_base::{Bytes, Memory, Numbers};
use pulse_cluster::run_cluster;
use pulse_net::{Item, Items, MemLink, MemSpawner, Start};
use pulse_process::{ProcessFault, Told};
use std::alloc::Global;
use std::test::Fail;

// The words of the children, each with a space before it.
const LINES: &[u8] = b" node 0 5\n node 1 5\n node 2 5\n switch 5\n";

// Where the ask goes, and then the Stops.
const PORTS: &[u32] = &[
    47000, 47001, 47001, 47001, 47002, 47002, 47002, 47003, 47003, 47003, 47000, 47000, 47000,
];

// A link over which the last back of the walk comes in, and of which these calls fail.
fn link(alloc: Global, fails: &[u32]) -> Result<MemLink, Memory> {
    let mut items = Items::new(alloc);
    items.push(Item::Frame {
        port: 47000,
        bytes: Bytes::from_slice(alloc, DONE)?,
    })?;
    Ok(MemLink::make(alloc, items, Numbers::from_slice(alloc, fails)?))
}

fn spawner(alloc: Global, fails: &[u32]) -> Result<MemSpawner, Memory> {
    let fails = Numbers::from_slice(alloc, fails)?;
    Ok(MemSpawner::make(alloc, Numbers::new(alloc), fails))
}

// The words of a child, each with a space before it.
fn words_of(alloc: Global, start: &Start) -> Result<Bytes, Memory> {
    let mut line = Bytes::new(alloc);
    for word in start.words.as_slice() {
        line.append(b" ")?;
        line.append(word.as_slice())?;
    }
    Ok(line)
}

// The words of all children, each with a line of its own.
fn lines_of(alloc: Global, kids: &MemSpawner) -> Result<Bytes, Memory> {
    let mut lines = Bytes::new(alloc);
    for start in kids.started() {
        lines.append(words_of(alloc, start)?.as_slice())?;
        lines.append(b"\n")?;
    }
    Ok(lines)
}

// The ports that frames were sent to.
fn ports_of(alloc: Global, net: &MemLink) -> Result<Numbers, Memory> {
    let mut ports = Numbers::new(alloc);
    for sent in net.sent() {
        ports.push(u32::from(sent.port))?;
    }
    Ok(ports)
}

// What a cluster of five turns left of its link and its children, and what it told.
#[derive(Drop)]
struct Ran {
    told: Told,
    net: MemLink,
    kids: MemSpawner,
}

fn run(alloc: Global, text: &[u8]) -> Result<Ran, ProcessFault> {
    let mut net = link(alloc, &[])?;
    let mut kids = spawner(alloc, &[])?;
    let told = run_cluster(alloc, text, 5, &mut net, &mut kids)?;
    Ok(Ran { told, net, kids })
}

// Whether all frames after the first are Stops.
fn ends_in_stops(net: &MemLink) -> bool {
    net.sent()
        .iter()
        .skip(1)
        .all(|sent| sent.bytes.as_slice() == STOP)
}

#[test]
fn starts_and_waits(rt: HostRuntime) -> Result<(), Fail> {
    let ran = run(rt.alloc(), THREE_NODES.as_bytes())?;
    let lines = lines_of(rt.alloc(), &ran.kids)?;
    assert!(rt; lines.as_slice() == LINES);
    assert!(rt;
        ran.kids
            .started()
            .iter()
            .all(|start| start.input.as_slice() == THREE_NODES.as_bytes())
    );
    assert!(rt; ran.kids.waited() == [0, 1, 2, 3].as_slice());
    Ok(())
}

#[test]
fn asks_and_stops(rt: HostRuntime) -> Result<(), Fail> {
    let ran = run(rt.alloc(), THREE_NODES.as_bytes())?;
    assert!(rt; ran.told.finished && ran.told.text.as_slice() == ANSWER.as_bytes());
    let ports = ports_of(rt.alloc(), &ran.net)?;
    assert!(rt; ports.as_slice() == PORTS);
    assert!(rt; ends_in_stops(&ran.net));
    assert!(rt; ran.net.bound() == [47065].as_slice());
    Ok(())
}

#[test]
fn a_start_that_fails_ends_it(rt: HostRuntime) -> Result<(), Fail> {
    let mut net = link(rt.alloc(), &[])?;
    let mut kids = spawner(rt.alloc(), &[0])?;
    let told = run_cluster(rt.alloc(), THREE_NODES.as_bytes(), 5, &mut net, &mut kids);
    assert!(rt; matches!(told, Err(ProcessFault::Child)));
    assert_eq!(rt; net.sent().len(), 0);
    assert_eq!(rt; net.bound().len(), 0);
    Ok(())
}

#[test]
fn a_bind_that_fails_ends_it(rt: HostRuntime) -> Result<(), Fail> {
    let mut net = link(rt.alloc(), &[0])?;
    let mut kids = spawner(rt.alloc(), &[])?;
    let told = run_cluster(rt.alloc(), THREE_NODES.as_bytes(), 5, &mut net, &mut kids);
    assert!(rt; matches!(told, Err(ProcessFault::Link)));
    assert_eq!(rt; kids.started().len(), 4);
    assert_eq!(rt; net.sent().len(), 0);
    Ok(())
}
