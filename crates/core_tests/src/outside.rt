// Reading and writing whole, in pieces and with faults, and the standard streams.

use arrayvec::ArrayVec;
use pulse_base::{
    Answer, Bytes, Cause, Failed, FaultKind, Listed, MemSink, MemSource, Numbers, PadBytes,
    ReadAll, ReaderSource, RequestPlan, Requests, Sink, Source, Status, WriterSink, read_all,
    write_all,
};
use std::test::Fail;

#[test]
fn reads_whole_in_pieces(rt: HostRuntime) -> Result<(), Fail> {
    let fails: [(&[u32], usize, Option<ReadAll>); 6] = [
        (&[], 5, None),
        (&[], 6, None),
        (&[], 4, Some(ReadAll::TooLong)),
        (&[0], 5, Some(ReadAll::Fault)),
        (&[2], 5, Some(ReadAll::Fault)),
        (&[9], 5, None),
    ];
    for (fails, max, want) in fails {
        let mut source = MemSource::make(
            Bytes::from_slice(rt.alloc(), b"hello")?,
            2,
            Numbers::from_slice(rt.alloc(), fails)?,
        );
        match read_all(rt.alloc(), &mut source, max) {
            Ok(all) => {
                assert_eq!(rt; want, None);
                assert_eq!(rt; all.as_slice(), b"hello".as_slice());
            }
            Err(fault) => assert_eq!(rt; Some(fault), want),
        }
    }
    Ok(())
}

#[test]
fn writes_whole_in_pieces(rt: HostRuntime) -> Result<(), Fail> {
    let cases: [(usize, &[u32], bool, &[u8]); 5] = [
        (9, &[], true, b"hello"),
        (5, &[], true, b"hello"),
        (4, &[], false, b"hell"),
        (9, &[0], false, b""),
        (9, &[1], false, b"he"),
    ];
    for (room, fails, whole, want) in cases {
        let mut sink = MemSink::make(rt.alloc(), room, 2, Numbers::from_slice(rt.alloc(), fails)?)?;
        assert_eq!(rt; write_all(&mut sink, b"hello").is_ok(), whole);
        assert_eq!(rt; sink.taken(), want);
    }
    Ok(())
}

#[test]
fn reads_standard_input(rt: HostRuntime) {
    let mut input = ReaderSource::new(rt.stdin());
    let mut buf = [0; 4];
    assert!(rt; input.read(&mut buf).is_ok());
}

#[test]
fn writes_standard_output(rt: HostRuntime) {
    let mut out = WriterSink::new(rt.stdout());
    assert_eq!(rt; out.write(b"\n"), Ok(1));
}

#[test]
fn writes_standard_error(rt: HostRuntime) {
    let mut err = WriterSink::new(rt.stderr());
    assert_eq!(rt; err.write(b"\n"), Ok(1));
}

#[test]
fn numbers_statuses_and_keeps_pads(rt: HostRuntime) -> Result<(), Fail> {
    let all = [
        (Status::Ok, 0),
        (Status::Usage, 2),
        (Status::Memory, 3),
        (Status::Refused, 4),
        (Status::ReadFault, 5),
        (Status::WriteFault, 6),
        (Status::LinkFault, 7),
        (Status::TurnsUsed, 8),
        (Status::ChildFault, 9),
        (Status::AuditNo, 10),
    ];
    for (status, number) in all {
        assert_eq!(rt; status.number(), number);
    }
    let pad = PadBytes::of(b"abc");
    assert_eq!(rt; pad.bytes(), b"abc".as_slice());
    let mut answers = Listed::new(rt.alloc());
    answers.push(Answer::Done { pad, count: 3 })?;
    answers.push(Answer::Fault {
        kind: FaultKind::DivZero,
        cur: 0,
        count: 0,
    })?;
    assert_eq!(rt; answers.len(), 2);
    assert_eq!(rt; Failed, Failed);
    Ok(())
}

#[test]
fn sets_and_pops_items(rt: HostRuntime) -> Result<(), Fail> {
    let mut list = Numbers::from_slice(rt.alloc(), &[1, 2, 3])?;
    list.set(1, 7);
    assert_eq!(rt; list.pop(), Some(3));
    assert_eq!(rt; list.as_slice(), [1, 7].as_slice());
    assert_eq!(rt;
        (list.pop(), list.pop(), list.pop()),
        (Some(7), Some(1), None)
    );
    let mut requests = Requests::new(rt.alloc());
    let mut args = ArrayVec::new();
    args.push(4096);
    requests.push(RequestPlan {
        number: 0,
        iter: 1,
        client: 2,
        args,
    })?;
    assert_eq!(rt; requests.get(0).args.as_slice(), [4096].as_slice());
    Ok(())
}

#[test]
fn names_the_kinds_of_faults(rt: HostRuntime) -> Result<(), Fail> {
    let kinds = [
        (FaultKind::Unmapped, "unmapped"),
        (FaultKind::NotReadable, "not_readable"),
        (FaultKind::from(Cause::NotWritable), "not_writable"),
        (FaultKind::from(Cause::DivZero), "div_zero"),
    ];
    for (kind, name) in kinds {
        assert_eq!(rt; format!(in rt.alloc(); "{kind}")?.as_str(), name);
    }
    Ok(())
}
