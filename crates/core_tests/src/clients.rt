// The client's rules on its public calls, each beside neighbours that differ in one field.

ghost use Rattle.std.specs.Prelude.{◌≡◌, ◌≤◌, IfOk, All};
ghost use Rattle.pulse_isa.specs.Spelling.{HasSpelling};

use crate::code::code_of;
use arrayvec::ArrayVec;
use client_core::{Asked, Client, Heard, Ticked};
use code_image::{Image, Images};
use code_verify::{Sizes, verify};
use frame_codec::{Back, Ending, Leg};
use pulse_base::{Answer, FaultKind, Memory, PadBytes, RequestPlan, Requests};
use pulse_isa::Instr;
use pulse_isa::Instr::{Div, GetW, Load, NextIter, Return, SetL};
use std::alloc::Global;
use std::test::Fail;

// An image for one argument, records of 8 bytes and a pad of 8. Its body goes on at the number in the record.
fn image_of(alloc: Global, init: &[Instr]) -> Result<Image, Fail>
    requires { All HasSpelling init.now }
    ensures { IfOk result (λ i. i.args ≡ 1) }
{
    let body = [
        Load { off: 0, len: 8 },
        GetW { a: 8, w: 8, off: 0 },
        NextIter { a: 8 },
    ];
    let init_sizes = Sizes {
        init: true,
        window: 8,
        pad: 8,
    };
    let body_sizes = Sizes {
        init: false,
        window: 8,
        pad: 8,
    };
    verify(init, init_sizes)?;
    verify(&body, body_sizes)?;
    let init_code = code_of(alloc, init)?;
    let body_code = code_of(alloc, &body)?;
    Ok(Image::new(8, 8, 1, init_code, body_code))
}

// Client 2 with one request, 7, of the argument 4096.
fn client_by(
    alloc: Global,
    image: Image,
    budget: u16,
    rounds: u16,
    tries: u16,
) -> Result<Client, Fail>
    requires args { image.args ≡ 1 }
    requires budget { 1 ≤ budget }
    requires rounds { 1 ≤ rounds }
{
    let mut images = Images::new(alloc);
    images.push(image)?;
    let mut args = ArrayVec::new();
    args.push(4096);
    let mut requests = Requests::new(alloc);
    requests.push(RequestPlan {
        number: 7,
        iter: 0,
        client: 2,
        args,
    })?;
    Ok(Client::make(alloc, 2, images, requests, budget, rounds, tries)?)
}

// The same, whose walk goes to its argument.
fn client_of(alloc: Global, budget: u16, rounds: u16, tries: u16) -> Result<Client, Fail>
    requires budget { 1 ≤ budget }
    requires rounds { 1 ≤ rounds }
{
    let init = [
        Load { off: 0, len: 8 },
        GetW { a: 8, w: 8, off: 0 },
        NextIter { a: 8 },
    ];
    client_by(alloc, image_of(alloc, &init)?, budget, rounds, tries)
}

fn ask(client: &mut Client) -> Option<Asked> {
    if !client.has(7) {
        return None;
    }
    Some(client.ask(7))
}

fn tick(client: &mut Client) -> Option<Ticked> {
    if !client.has(7) {
        return None;
    }
    Some(client.tick(7))
}

fn resend(client: &Client) -> Option<Leg> {
    if !client.has(7) {
        return None;
    }
    client.resend(7)
}

fn answer(client: &Client) -> Option<Answer> {
    if !client.has(7) {
        return None;
    }
    Some(*client.answer(7))
}

fn leg(number: u32, left: u16, cur: u64, pad: &PadBytes) -> Leg {
    Leg {
        client: 2,
        request: 7,
        leg: number,
        program: 0,
        left,
        cur,
        pad: *pad,
    }
}

fn back(number: u32, left: u16, cur: u64, ending: Ending) -> Back {
    Back {
        client: 2,
        request: 7,
        leg: number,
        program: 0,
        left,
        cur,
        pad: PadBytes::of(&[1; 8]),
        ending,
    }
}

#[test]
fn waits_resumes_and_gives_up(rt: HostRuntime) -> Result<(), Fail> {
    let mut client = client_of(rt.alloc(), 1, 2, 0)?;
    let zeros = PadBytes::of(&[0; 8]);
    let resume = back(0, 0, 4120, Ending::Resume);
    assert_eq!(rt; client.len(), 1);
    assert!(rt; !client.has(8));
    assert_eq!(rt; answer(&client), Some(Answer::Unasked));
    assert_eq!(rt; tick(&mut client), Some(Ticked::Nothing));
    assert_eq!(rt; client.on(&resume), Heard::Stale);
    assert_eq!(rt;
        ask(&mut client),
        Some(Asked::Sent(leg(0, 1, 4096, &zeros)))
    );
    assert_eq!(rt; ask(&mut client), Some(Asked::Again));
    let heard = client.on(&resume);
    assert_eq!(rt; heard, Heard::Sent(leg(1, 1, 4120, &resume.pad)));
    assert_eq!(rt; client.on(&resume), Heard::Stale);
    assert_eq!(rt; resend(&client), Some(leg(1, 1, 4120, &resume.pad)));
    assert_eq!(rt; answer(&client), Some(Answer::Waiting));
    assert_eq!(rt; tick(&mut client), Some(Ticked::Silent));
    assert_eq!(rt; tick(&mut client), Some(Ticked::Nothing));
    assert_eq!(rt; resend(&client), None);
    assert_eq!(rt; answer(&client), Some(Answer::Silent));
    Ok(())
}

#[test]
fn ends_where_init_ends(rt: HostRuntime) -> Result<(), Fail> {
    let done = [Load { off: 0, len: 0 }, Return];
    let mut client = client_by(rt.alloc(), image_of(rt.alloc(), &done)?, 4, 4, 4)?;
    assert_eq!(rt; ask(&mut client), Some(Asked::Answered));
    let pad = PadBytes::of(&[0; 8]);
    assert_eq!(rt; answer(&client), Some(Answer::Done { pad, count: 0 }));
    let by_zero = [
        Load { off: 0, len: 0 },
        SetL { a: 0, imm: 1 },
        Div { a: 0, b: 0, c: 1 },
        Return,
    ];
    let mut client = client_by(rt.alloc(), image_of(rt.alloc(), &by_zero)?, 4, 4, 4)?;
    assert_eq!(rt; ask(&mut client), Some(Asked::Answered));
    let kind = FaultKind::DivZero;
    let (cur, count) = (0, 0);
    assert_eq!(rt; answer(&client), Some(Answer::Fault { kind, cur, count }));
    Ok(())
}

#[test]
fn passes_over_what_is_stale(rt: HostRuntime) -> Result<(), Fail> {
    let mut client = client_of(rt.alloc(), 64, 3, 0)?;
    ask(&mut client);
    client.on(&back(4, 0, 8, Ending::Resume));
    let heard = back(5, 61, 16, Ending::Fault(FaultKind::NotWritable));
    let rows = [
        Back { client: 3, ..heard },
        Back {
            request: 8,
            ..heard
        },
        Back { leg: 4, ..heard },
        Back {
            program: 1,
            ..heard
        },
        Back {
            pad: PadBytes::of(&[1; 7]),
            ..heard
        },
        Back { left: 65, ..heard },
        Back {
            ending: Ending::Reroute,
            ..heard
        },
        back(u32::MAX, 0, 8, Ending::Resume),
    ];
    for row in &rows {
        assert_eq!(rt; client.on(row), Heard::Stale);
        assert_eq!(rt; answer(&client), Some(Answer::Waiting));
    }
    assert_eq!(rt; client.on(&heard), Heard::Answered);
    let kind = FaultKind::NotWritable;
    let (cur, count) = (16, 67);
    assert_eq!(rt; answer(&client), Some(Answer::Fault { kind, cur, count }));
    assert_eq!(rt; client.on(&heard), Heard::Stale);
    Ok(())
}

#[test]
fn counts_ticks_and_rounds(rt: HostRuntime) -> Result<(), Fail> {
    let mut client = client_of(rt.alloc(), 2, 3, 1)?;
    ask(&mut client);
    for number in 0..2 {
        assert!(rt; matches!(tick(&mut client), Some(Ticked::Resent(_))));
        let heard = client.on(&back(number, 0, 8, Ending::Resume));
        assert!(rt; matches!(heard, Heard::Sent(_)));
    }
    assert_eq!(rt; client.on(&back(2, 0, 8, Ending::Resume)), Heard::Answered);
    assert_eq!(rt; answer(&client), Some(Answer::Spent { count: 6 }));
    Ok(())
}
