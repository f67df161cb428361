// Walks over a list of four records, with programs read from text.

use flat_run::{FlatRegion, FlatRegions, FlatState, FlatWalk, can_step, due, run, start};
use iter_syntax::{FieldDecl, Iter, parse};
use pulse_base::{Answer, Bytes, FaultKind, Numbers, PadBytes};
use range_table::RegionSpan;
use std::alloc::Global;
use std::test::Fail;

const PROGRAM: &[u8] = b"record node { key: u64; val: u64; next: ptr; }
iter find on node {
  pad { key: u64; got: u64; }
  init(head: ptr, key: int) { pad.key = key; go head; }
  end {
    if cur.key == pad.key { pad.got = cur.val; done; }
    if cur.next == null { done; }
  }
  next { go cur.next; }
}";

// The answer that a walk is due at its end: done with a key and a value in its pad, a fault at a pointer, or spent.
#[derive(Clone, Copy)]
enum End {
    Done(u64, u64),
    Fault(FaultKind, u64),
    Spent,
}

// The next of the last record, how many bytes are cut off, whether the region may be read, the most iterations, the
// arguments, the iterations made, and the answer that is due then.
#[derive(Clone, Copy)]
struct Row {
    name: &'static str,
    last: u64,
    cut: usize,
    read: bool,
    limit: u64,
    args: [u64; 2],
    steps: u32,
    end: End,
}

const FINDS: Row = Row {
    name: "finds the third",
    last: 0,
    cut: 0,
    read: true,
    limit: 1024,
    args: [4096, 30],
    steps: 3,
    end: End::Done(30, 3),
};

const ROWS: [Row; 5] = [
    FINDS,
    Row {
        name: "misses a key",
        args: [4096, 99],
        steps: 4,
        end: End::Done(99, 0),
        ..FINDS
    },
    Row {
        name: "meets a cut record",
        cut: 1,
        args: [4096, 99],
        steps: 3,
        end: End::Fault(FaultKind::Unmapped, 4168),
        ..FINDS
    },
    Row {
        name: "is spent before it is unmapped",
        last: 5000,
        limit: 4,
        args: [4096, 99],
        steps: 4,
        end: End::Spent,
        ..FINDS
    },
    Row {
        name: "meets a region that may not be read",
        read: false,
        steps: 0,
        end: End::Fault(FaultKind::NotReadable, 4096),
        ..FINDS
    },
];

// Four records from 4096 on: keys 10 to 40, values 1 to 4, each with the address of the next.
fn memory(alloc: Global, row: &Row) -> Result<FlatRegions, Fail> {
    let numbers = [10, 1, 4120, 20, 2, 4144, 30, 3, 4168, 40, 4, row.last];
    let mut bytes = Bytes::new(alloc);
    for number in numbers {
        let number: u64 = number;
        bytes.append(&number.to_le_bytes())?;
    }
    let len = 96 - row.cut.min(96);
    let bytes = Bytes::from_vec(
        bytes
            .as_slice()
            .get(..len)
            .ok_or("fewer bytes")?
            .to_vec(alloc)?,
    );
    let span = RegionSpan {
        base: 4096,
        len: len as u64,
        read: row.read,
        write: true,
    };
    let mut regions = FlatRegions::new(alloc);
    regions.push(FlatRegion { span, bytes })?;
    Ok(regions)
}

// Request 0, so many times.
fn order_of(alloc: Global, count: u32) -> Result<Numbers, Fail> {
    let mut order = Numbers::new(alloc);
    for _ in 0..count {
        order.push(0)?;
    }
    Ok(order)
}

// The answer that a row says is due.
fn wanted(row: &Row) -> Answer {
    let count = u64::from(row.steps);
    match row.end {
        End::Done(key, got) => {
            let mut bytes = [0; 16];
            bytes[..8].copy_from_slice(&key.to_le_bytes());
            bytes[8..].copy_from_slice(&got.to_le_bytes());
            let pad = PadBytes::of(&bytes);
            Answer::Done { pad, count }
        }
        End::Fault(kind, cur) => Answer::Fault { kind, cur, count },
        End::Spent => Answer::Spent { count },
    }
}

// Whether nothing is due before a row's walk, its steps are legal, none is left, and then its answer is due.
fn goes_as_said(alloc: Global, fields: &[FieldDecl], iter: &Iter, row: &Row) -> Result<bool, Fail> {
    let walks = [FlatWalk::of(fields, iter, &row.args).ok_or("a pad of another size")?];
    let mut state: FlatState = start(alloc, memory(alloc, row)?, &walks)?;
    if due(&walks, row.limit, &state, 0).is_none() != (row.steps > 0) {
        return Ok(false);
    }
    let order = order_of(alloc, row.steps)?;
    if !run(alloc, &walks, row.limit, &mut state, order.as_slice())? {
        return Ok(false);
    }
    if can_step(&walks, row.limit, &state, 0) {
        return Ok(false);
    }
    Ok(due(&walks, row.limit, &state, 0) == Some(wanted(row)))
}

#[test]
fn walks_a_list(rt: HostRuntime) -> Result<(), Fail> {
    let program = parse(rt.alloc(), PROGRAM)?;
    let ([record], [it]) = (program.records.as_slice(), program.iters.as_slice()) else {
        return Err("not one record and one iterator")?;
    };
    for row in &ROWS {
        assert!(rt;
            goes_as_said(rt.alloc(), record.fields.as_slice(), it, row)?,
            "{}",
            row.name
        );
    }
    Ok(())
}
