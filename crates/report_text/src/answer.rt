// Answers as text.

ghost use Rattle.std.specs.Prelude.{◌≡◌, ◌++◌, codes, IfOk, OnOk};
ghost use Rattle.report_text.specs.Answers.{answer_text};
ghost use Rattle.report_text.specs.Report.{answer_line};

use crate::text::{put, put_head, put_hex, put_number};
use pulse_base::{Answer, Bytes, FaultKind, Memory};
use std::alloc::Global;

/// The report's line of the answer of request `r`, its LF included.
pub fn answer_line(alloc: Global, r: u32, answer: &Answer) -> Result<Bytes, Memory>
    ensures { IfOk result (λ line. line ≡ answer_line r answer.now) }
{
    let mut text = Bytes::new(alloc);
    put_answer_line(alloc, &mut text, u64::from(r), answer)?;
    Ok(text)
}

pub(crate) fn put_answer_line(
    alloc: Global,
    text: &mut Bytes,
    r: u64,
    answer: &Answer,
) -> Result<(), Memory>
    ensures { OnOk result (text.new ≡ text.old ++ answer_line r answer.now) }
{
    put_head(text, "request", r)?;
    put_answer(alloc, text, answer)?;
    put(text, "\n")?;
    Ok(())
}

fn put_answer(alloc: Global, text: &mut Bytes, answer: &Answer) -> Result<(), Memory>
    ensures { OnOk result (text.new ≡ text.old ++ answer_text answer.now) }
{
    match answer {
        Answer::Unasked => put(text, "unasked"),
        Answer::Waiting => put(text, "open"),
        Answer::Done { pad, count } => put_done(alloc, text, pad.bytes(), *count),
        Answer::Fault { kind, cur, count } => put_fault(text, *kind, *cur, *count),
        Answer::Spent { count } => {
            put(text, "spent ")?;
            put_number(text, *count)?;
            Ok(())
        }
        Answer::Silent => put(text, "silent"),
    }
}

fn put_done(alloc: Global, text: &mut Bytes, pad: &[u8], count: u64) -> Result<(), Memory>
    ensures { OnOk result (text.new ≡ text.old ++ answer_text (Answer.Done pad.now count)) }
{
    put(text, "done ")?;
    put_number(text, count)?;
    put(text, " ")?;
    put_hex(alloc, text, pad)?;
    Ok(())
}

fn put_fault(text: &mut Bytes, kind: FaultKind, cur: u64, count: u64) -> Result<(), Memory>
    ensures { OnOk result (text.new ≡ text.old ++ answer_text (Answer.Fault kind cur count)) }
{
    put(text, "fault ")?;
    put(text, kind.name())?;
    put(text, " ")?;
    put_number(text, cur)?;
    put(text, " ")?;
    put_number(text, count)?;
    Ok(())
}
