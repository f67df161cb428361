// A link and a spawner in memory, a real socket and a real child.

use pulse_base::{Bytes, Failed, Got, Link, Numbers, Spawner};
use pulse_net::{Children, Item, Items, MemLink, MemSpawner, UdpLink};
use std::test::Fail;

#[test]
fn a_link_in_memory_hands_out(rt: HostRuntime) -> Result<(), Fail> {
    let mut items = Items::new(rt.alloc());
    items.push(Item::Gap)?;
    items.push(Item::Frame {
        port: 47000,
        bytes: Bytes::from_slice(rt.alloc(), b"hello")?,
    })?;
    let mut link = MemLink::make(rt.alloc(), items, Numbers::from_slice(rt.alloc(), &[0])?);
    let mut buf = [0; 512];
    assert_eq!(rt; link.receive(&mut buf, false), Err(Failed));
    assert_eq!(rt; link.receive(&mut buf, false), Ok(Got::Nothing));
    let frame = Got::Frame {
        port: 47000,
        len: 5,
    };
    assert_eq!(rt; link.receive(&mut buf, true), Ok(frame));
    assert_eq!(rt; &buf[..5], b"hello".as_slice());
    assert_eq!(rt; link.waits(), [false, true].as_slice());
    Ok(())
}

#[test]
fn a_link_in_memory_records(rt: HostRuntime) -> Result<(), Fail> {
    let fails = Numbers::from_slice(rt.alloc(), &[1, 2])?;
    let mut link = MemLink::make(rt.alloc(), Items::new(rt.alloc()), fails);
    assert_eq!(rt; link.bind(47065), Ok(()));
    assert_eq!(rt; link.bind(47066), Err(Failed));
    assert_eq!(rt; link.send(47000, b"no"), Err(Failed));
    assert_eq!(rt; link.send(47001, b"yes"), Ok(()));
    assert_eq!(rt; link.bound(), [47065].as_slice());
    assert!(rt;
        link.sent().iter().all(|sent| sent.port == 47001
            && sent.bytes.as_slice() == b"yes".as_slice())
    );
    Ok(())
}

#[test]
fn a_socket_carries_a_frame(rt: HostRuntime) {
    let mut link = UdpLink::new(&rt);
    let mut buf = [0; 512];
    assert_eq!(rt; link.send(47911, b"early"), Err(Failed));
    assert_eq!(rt; link.bind(47911), Ok(()));
    assert_eq!(rt; link.receive(&mut buf, false), Ok(Got::Nothing));
    assert_eq!(rt; link.receive(&mut buf, true), Ok(Got::Nothing));
    assert_eq!(rt; link.send(47911, b"hello"), Ok(()));
    assert_eq!(rt;
        link.receive(&mut buf, true),
        Ok(Got::Frame {
            port: 47911,
            len: 5
        })
    );
    assert_eq!(rt; &buf[..5], b"hello".as_slice());
}

#[test]
fn a_spawner_in_memory_records(rt: HostRuntime) -> Result<(), Fail> {
    let fails = Numbers::from_slice(rt.alloc(), &[1])?;
    let mut kids = MemSpawner::make(rt.alloc(), Numbers::new(rt.alloc()), fails);
    let mut words = Vec::new(rt.alloc());
    words.push(String::from_str(rt.alloc(), "switch")?)?;
    kids.start(words.as_slice(), b"in")?;
    assert!(rt; kids.start(words.as_slice(), b"in").is_err());
    assert_eq!(rt; kids.started().len(), 1);
    let start = &kids.started()[0];
    assert_eq!(rt; start.words.get(0).as_slice(), b"switch".as_slice());
    assert_eq!(rt; start.input.as_slice(), b"in".as_slice());
    Ok(())
}

#[test]
fn a_spawner_in_memory_tells_statuses(rt: HostRuntime) -> Result<(), Fail> {
    let statuses = Numbers::from_slice(rt.alloc(), &[8])?;
    let mut kids = MemSpawner::make(rt.alloc(), statuses, Numbers::new(rt.alloc()));
    let first = kids.start(&[], b"")?;
    let second = kids.start(&[], b"")?;
    assert_eq!(rt; kids.wait(second), Ok(8));
    assert_eq!(rt; kids.wait(first), Ok(0));
    assert_eq!(rt; kids.waited(), [1, 0].as_slice());
    Ok(())
}

#[test]
fn a_child_runs_to_its_end(rt: HostRuntime) -> Result<(), Fail> {
    let mut words = Vec::new(rt.alloc());
    words.push(String::from_str(rt.alloc(), "-c")?)?;
    words.push(String::from_str(rt.alloc(), "read word; test \"$word\" = hello && exit 7")?)?;
    let mut kids = Children::of_file(&rt, "/bin/sh");
    let kid = kids.start(words.as_slice(), b"hello\n")?;
    assert_eq!(rt; kids.wait(kid), Ok(7));
    let mut none = Children::of_file(&rt, "/no/such/file");
    assert!(rt; none.start(&[], b"").is_err());
    Ok(())
}
