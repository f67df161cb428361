// The instructions at their edges, and whole runs: a list search, stores and faults.

ghost use Rattle.std.specs.Prelude.{◌≡◌, IfOk, All};
ghost use Rattle.pulse_isa.specs.Spelling.{HasSpelling};

use crate::begin_walk::{Begun, begin};
use crate::context::{Context, Ended, iterate};
use crate::jumps::{at_most, equal, less, unequal};
use crate::numbers::{read_number, store_number};
use crate::registers::{
    Registers, add, bits_and, bits_or, bits_xor, complement, divide, multiply, remainder, set_high,
    set_low, shift_left, shift_right, subtract,
};
use code_image::{Code, Image};
use code_verify::{Sizes, verify};
use pulse_base::{Memory, PadBytes};
use pulse_isa::Instr;
use pulse_isa::Instr::{Div, GetC, GetP, GetW, Jne, Load, NextIter, PutP, PutW, Return, SetL};
use std::alloc::Global;
use std::test::Fail;

const HIGH: u64 = 0x8000_0000_0000_0000;

const MAX: u64 = u64::MAX;

// Registers 1 and 2 hold the two numbers.
fn pair(x: u64, y: u64) -> Registers {
    let mut regs = [0; 16];
    regs[1] = x;
    regs[2] = y;
    regs
}

macro_rules! gives {
    ($rt:ident, $op:ident, $x:expr, $y:expr, $want:expr) => {
        let mut regs = pair($x, $y);
        $op(&mut regs, 0, 1, 2);
        assert_eq!($rt; regs[0], $want);
    };
}

#[test]
fn calculates_at_the_edges(rt: HostRuntime) {
    gives!(rt, add, MAX, 2, 1);
    gives!(rt, subtract, 0, 1, MAX);
    gives!(rt, multiply, 0x1_0000_0001, 0x1_0000_0001, 0x2_0000_0001);
    gives!(rt, divide, MAX, 2, HIGH - 1);
    gives!(rt, divide, 7, 0, 0);
    gives!(rt, remainder, 7, 4, 3);
    gives!(rt, bits_and, 12, 10, 8);
    gives!(rt, bits_or, 12, 10, 14);
    gives!(rt, bits_xor, 12, 10, 6);
    gives!(rt, shift_left, 3, 63, HIGH);
    gives!(rt, shift_left, 5, 64, 5);
    gives!(rt, shift_right, HIGH, 63, 1);
    gives!(rt, shift_right, 5, 65, 2);
    let mut regs = pair(MAX, 6);
    complement(&mut regs, 0, 2);
    set_high(&mut regs, 1, 1);
    set_low(&mut regs, 2, 5);
    assert_eq!(rt; (regs[0], regs[1], regs[2]), (MAX - 6, 0x1_ffff_ffff, 5));
}

#[test]
fn compares_without_signs(rt: HostRuntime) {
    for (x, y, same, below) in [
        (HIGH, 1, false, false),
        (1, HIGH, false, true),
        (3, 3, true, false),
    ] {
        let regs = pair(x, y);
        assert_eq!(rt; equal(&regs, 1, 2, 0), same);
        assert_eq!(rt; unequal(&regs, 1, 2, 0), !same);
        assert_eq!(rt; less(&regs, 1, 2, 0), below);
        assert_eq!(rt; at_most(&regs, 1, 2, 0), below || same);
    }
}

#[test]
fn reads_and_stores_narrow_numbers(rt: HostRuntime) {
    let mut bytes = [1, 2, 3, 4, 5, 6, 7, 8];
    assert_eq!(rt; read_number(&bytes, 0, 1), 1);
    assert_eq!(rt; read_number(&bytes, 6, 2), 0x0807);
    assert_eq!(rt; read_number(&bytes, 4, 4), 0x0807_0605);
    assert_eq!(rt; read_number(&bytes, 0, 8), 0x0807_0605_0403_0201);
    store_number(&mut bytes, 0, 2, 0xdd_ccbb);
    store_number(&mut bytes, 7, 1, 0x1ff);
    assert_eq!(rt; bytes, [0xbb, 0xcc, 3, 4, 5, 6, 7, 0xff]);
}

const INIT: Sizes = Sizes {
    init: true,
    window: 8,
    pad: 8,
};

const BODY: Sizes = Sizes {
    init: false,
    window: 24,
    pad: 8,
};

fn code_of(alloc: Global, instrs: &[Instr]) -> Result<Code, Memory>
    ensures { IfOk result (λ code. code ≡ instrs.now) }
{
    let mut code = Code::new(alloc);
    code.append(instrs)?;
    Ok(code)
}

// An image for one argument, records of 24 bytes and a pad of 8.
fn image_of(alloc: Global, init: &[Instr], body: &[Instr]) -> Result<Image, Fail>
    requires init { All HasSpelling init.now }
    requires body { All HasSpelling body.now }
    ensures record_size { IfOk result (λ i. i.record_size ≡ 24) }
    ensures pad_size { IfOk result (λ i. i.pad_size ≡ 8) }
    ensures args { IfOk result (λ i. i.args ≡ 1) }
{
    verify(init, INIT)?;
    verify(body, BODY)?;
    let init_code = code_of(alloc, init)?;
    let body_code = code_of(alloc, body)?;
    Ok(Image::new(24, 8, 1, init_code, body_code))
}

// A search for the end of a list: the link stands in the last eight bytes of a record.
fn list_search(alloc: Global) -> Result<Image, Fail>
    ensures record_size { IfOk result (λ i. i.record_size ≡ 24) }
    ensures pad_size { IfOk result (λ i. i.pad_size ≡ 8) }
    ensures args { IfOk result (λ i. i.args ≡ 1) }
{
    let (link, end) = (8, 9);
    let init = [
        Load { off: 0, len: 8 },
        GetW {
            a: link,
            w: 8,
            off: 0,
        },
        NextIter { a: link },
    ];
    let body = [
        Load { off: 16, len: 8 },
        GetW {
            a: link,
            w: 8,
            off: 16,
        },
        SetL { a: end, imm: 0 },
        Jne {
            a: link,
            b: end,
            to: 5,
        },
        Return,
        NextIter { a: link },
    ];
    image_of(alloc, &init, &body)
}

#[test]
fn searches_a_list(rt: HostRuntime) -> Result<(), Fail> {
    let image = list_search(rt.alloc())?;
    let pad = PadBytes::of(&[0; 8]);
    assert_eq!(rt; begin(&image, &[4096]), Begun::Go { cur: 4096, pad });
    let mut context = Context { cur: 4096, pad };
    let later = Context {
        cur: 0x0707_0707_0707_0707,
        pad,
    };
    let mut record = [7; 24];
    assert_eq!(rt;
        iterate(&mut context, &image, &mut record, false),
        Ended::Go
    );
    assert_eq!(rt; context, later);
    let mut last = [0; 24];
    assert_eq!(rt;
        iterate(&mut context, &image, &mut last, false),
        Ended::Done
    );
    assert_eq!(rt; context, later);
    Ok(())
}

#[test]
fn keeps_all_where_it_faults(rt: HostRuntime) -> Result<(), Fail> {
    let init = [
        Load { off: 0, len: 8 },
        GetW { a: 1, w: 8, off: 0 },
        PutP { a: 1, w: 8, off: 0 },
        Div { a: 1, b: 1, c: 1 },
        Return,
    ];
    let body = [
        Load { off: 0, len: 8 },
        GetP { a: 1, w: 8, off: 0 },
        GetC { a: 2 },
        PutW { a: 2, w: 4, off: 4 },
        PutP { a: 2, w: 8, off: 0 },
        Div { a: 3, b: 2, c: 1 },
        NextIter { a: 3 },
    ];
    let image = image_of(rt.alloc(), &init, &body)?;
    let nine = PadBytes::of(&[9, 0, 0, 0, 0, 0, 0, 0]);
    assert_eq!(rt; begin(&image, &[9]), Begun::Done { pad: nine });
    assert_eq!(rt; begin(&image, &[0]), Begun::DivZero);
    let zero = PadBytes::of(&[0; 8]);
    let before = Context { cur: 90, pad: zero };
    let mut context = before;
    let mut record = [5; 24];
    assert_eq!(rt;
        iterate(&mut context, &image, &mut record, true),
        Ended::DivZero
    );
    assert_eq!(rt;
        iterate(&mut context, &image, &mut record, false),
        Ended::NotWritable
    );
    assert_eq!(rt; context, before);
    assert_eq!(rt; record, [5; 24]);
    context.pad = nine;
    assert_eq!(rt; iterate(&mut context, &image, &mut record, true), Ended::Go);
    let pad = PadBytes::of(&[90, 0, 0, 0, 0, 0, 0, 0]);
    assert_eq!(rt; context, Context { cur: 10, pad });
    assert_eq!(rt; &record[..10], [5, 5, 5, 5, 90, 0, 0, 0, 5, 5].as_slice());
    Ok(())
}
