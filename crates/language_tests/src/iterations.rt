// Iterations of iterators that are read from text. Expected values are worked out from the rules of the language.

use flat_run::{Iterated, iterate};
use iter_syntax::{Program, parse};
use pulse_base::{Bytes, Cause};
use std::alloc::Global;
use std::test::Fail;

// The fields of the record, its bytes, the end block, and what an iteration leaves.
#[derive(Clone, Copy)]
struct Row {
    fields: &'static str,
    record: &'static [u8],
    end: &'static str,
    leaves: Leaves,
}

// The bytes of the record or the pointer, and the two numbers of the pad; or the fault.
#[derive(Clone, Copy)]
enum Leaves {
    Done(&'static [u8], u64, u64),
    Goes(u64, u64, u64),
    Fault(Cause),
}

const BYTE: Row = Row {
    fields: "x: u8; y: u8;",
    record: &[1, 2],
    end: "cur.x = 261; done;",
    leaves: Leaves::Done(&[5, 2], 0, 0),
};

const ROWS: [Row; 5] = [
    BYTE,
    Row {
        end: "cur.x = 7; pad.a = cur.x; if cur.y == 1 { pad.b = 1; } else { pad.b = 2; } done; pad.a = 4;",
        leaves: Leaves::Done(&[7, 2], 7, 2),
        ..BYTE
    },
    Row {
        end: "pad.b = 1;",
        leaves: Leaves::Goes(4104, 0, 1),
        ..BYTE
    },
    Row {
        end: "cur.x = 7; pad.a = 1 / 0; done;",
        leaves: Leaves::Fault(Cause::DivZero),
        ..BYTE
    },
    Row {
        fields: "k: [u16; 2]; y: u8;",
        record: &[1, 1, 2, 1, 9],
        end: "pad.a = cur.k[2]; cur.k[2] = 5; pad.b = at(cur, 18446744073709551615); done;",
        leaves: Leaves::Done(&[1, 1, 2, 1, 9], 0, 4095),
    },
];

fn program(alloc: Global, fields: &str, end: &str) -> Result<Program, Fail> {
    let text = format!(in alloc;
        "record r {{ {fields} }} iter t on r {{ pad {{ a: u64; b: u64; }} init(p: ptr) {{ go p; }} end {{ {end} }} next {{ go at(cur, 8); }} }}"
    )?;
    if text.len() > 65536 {
        return Err("a long text")?;
    }
    Ok(parse(alloc, text.as_bytes())?)
}

// The bytes of the two numbers of the pad.
fn pad_bytes(alloc: Global, a: u64, b: u64) -> Result<Bytes, Fail> {
    let mut bytes = Bytes::new(alloc);
    bytes.append(&a.to_le_bytes())?;
    bytes.append(&b.to_le_bytes())?;
    Ok(bytes)
}

// Whether an iteration left what it should.
fn is_left(alloc: Global, ran: &Iterated, leaves: Leaves) -> Result<bool, Fail> {
    match ran {
        Iterated::Done { record, pad } => match leaves {
            Leaves::Done(bytes, a, b) => {
                let want = pad_bytes(alloc, a, b)?;
                Ok(record.as_slice() == bytes && pad.as_slice() == want.as_slice())
            }
            _ => Ok(false),
        },
        Iterated::Goes { to, pad, .. } => match leaves {
            Leaves::Goes(at, a, b) => {
                let want = pad_bytes(alloc, a, b)?;
                Ok(*to == at && pad.as_slice() == want.as_slice())
            }
            _ => Ok(false),
        },
        Iterated::Fault(cause) => match leaves {
            Leaves::Fault(want) => Ok(*cause == want),
            _ => Ok(false),
        },
    }
}

#[test]
fn iterates_on_records(rt: HostRuntime) -> Result<(), Fail> {
    for row in &ROWS {
        let program = program(rt.alloc(), row.fields, row.end)?;
        let ([record], [it]) = (program.records.as_slice(), program.iters.as_slice()) else {
            return Err("not one record and one iterator")?;
        };
        let fields = record.fields.as_slice();
        let ran = iterate(rt.alloc(), fields, it, row.record, 4096, &[0; 16], true)?;
        assert!(rt; is_left(rt.alloc(), &ran, row.leaves)?, "{}", row.end);
    }
    Ok(())
}
