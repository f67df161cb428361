// The report of a run.

ghost use Rattle.std.specs.Prelude.{◌≡◌, ◌<◌, ◌^◌, ◌++◌, codes, length, IfOk, OnOk};
ghost use Rattle.report_text.specs.Report as r;

use crate::answer::put_answer_line;
use crate::outcome::{OutRegion, Outcome};
use crate::region::put_region_line;
use crate::text::{put, put_number};
use crate::trace::put_event_line;
use pulse_base::{Answer, Bytes, Memory, Trace};
use std::alloc::Global;

/// The report of a run: a line for each event, the order of the turns, a line for each request and for each region.
/// The work grows with the text.
pub fn report(alloc: Global, outcome: &Outcome) -> Result<Bytes, Memory>
    ensures { IfOk result (λ text. text ≡ r.report outcome.now) }
{
    let mut text = Bytes::new(alloc);
    put(&mut text, "pulse report 1\n")?;
    put_events(&mut text, outcome.trace.as_slice())?;
    put_order(&mut text, outcome.order.as_slice())?;
    put_answers(alloc, &mut text, outcome.answers.as_slice())?;
    put_regions(alloc, &mut text, outcome.regions.as_slice())?;
    put(&mut text, "end\n")?;
    Ok(text)
}

fn put_events(text: &mut Bytes, traces: &[Trace]) -> Result<(), Memory>
    ensures { OnOk result (text.new ≡ text.old ++ r.each_line r.event_line 0 traces.now) }
{
    'events: for (k, trace) in traces.iter().enumerate() {
        put_event_line(text, k as u64, trace)?;
    }
    Ok(())
}

fn put_order(text: &mut Bytes, order: &[u32]) -> Result<(), Memory>
    ensures { OnOk result (text.new ≡ text.old ++ codes "order" ++ r.order_text order.now ++ codes "\n") }
{
    put(text, "order")?;
    put_turns(text, order)?;
    put(text, "\n")?;
    Ok(())
}

fn put_turns(text: &mut Bytes, order: &[u32]) -> Result<(), Memory>
    ensures { OnOk result (text.new ≡ text.old ++ r.order_text order.now) }
{
    'turns: for r in order {
        put(text, " ")?;
        put_number(text, u64::from(*r))?;
    }
    Ok(())
}

fn put_answers(alloc: Global, text: &mut Bytes, answers: &[Answer]) -> Result<(), Memory>
    ensures { OnOk result (text.new ≡ text.old ++ r.each_line r.answer_line 0 answers.now) }
{
    'answers: for (r, answer) in answers.iter().enumerate() {
        put_answer_line(alloc, text, r as u64, answer)?;
    }
    Ok(())
}

fn put_regions(alloc: Global, text: &mut Bytes, regions: &[OutRegion]) -> Result<(), Memory>
    ensures { OnOk result (text.new ≡ text.old ++ r.each_line r.region_line 0 regions.now) }
{
    'regions: for (i, region) in regions.iter().enumerate() {
        put_region_line(alloc, text, i as u64, region)?;
    }
    Ok(())
}
