// What events did, as text.

ghost use Rattle.std.specs.Prelude.{◌≡◌, ◌++◌, codes, decimal, OnOk};
ghost use Rattle.report_text.specs.Traces.{sent_text, trace_text};
ghost use Rattle.report_text.specs.Report.{event_line};

use crate::text::{put, put_head, put_number};
use pulse_base::{Bytes, Memory, Trace};

/// The line of event `k`.
pub(crate) fn put_event_line(text: &mut Bytes, k: u64, trace: &Trace) -> Result<(), Memory>
    ensures { OnOk result (text.new ≡ text.old ++ event_line k trace.now) }
{
    put_head(text, "event", k)?;
    put_trace(text, trace)?;
    put(text, "\n")?;
    Ok(())
}

fn put_trace(text: &mut Bytes, trace: &Trace) -> Result<(), Memory>
    ensures { OnOk result (text.new ≡ text.old ++ trace_text trace.now) }
{
    match trace {
        Trace::Sent(letter) => put_word(text, "sent ", *letter),
        Trace::Answered => put(text, "answered"),
        Trace::Again => put(text, "again"),
        Trace::Silent => put(text, "silent"),
        Trace::Nothing => put(text, "nothing"),
        Trace::Missed => put(text, "missed"),
        Trace::Started => put(text, "started"),
        Trace::Running => put(text, "running"),
        Trace::Full => put(text, "full"),
        Trace::Foreign => put(text, "foreign"),
        Trace::Stale => put(text, "stale"),
        Trace::Idle => put(text, "idle"),
        Trace::Iterated { request, sent } => {
            put_word(text, "iterated ", *request)?;
            put_sent(text, *sent)?;
            Ok(())
        }
        Trace::Part(request) => put_word(text, "part ", *request),
        Trace::Waits(request) => put_word(text, "waits ", *request),
    }
}

// A word and its number.
fn put_word(text: &mut Bytes, word: &str, number: u32) -> Result<(), Memory>
    ensures { OnOk result (text.new ≡ text.old ++ word.now ++ decimal number) }
{
    put(text, word)?;
    put_number(text, u64::from(number))?;
    Ok(())
}

// The letter that an iteration sent, if it sent one.
fn put_sent(text: &mut Bytes, sent: Option<u32>) -> Result<(), Memory>
    ensures { OnOk result (text.new ≡ text.old ++ sent_text sent) }
{
    match sent {
        None => Ok(()),
        Some(letter) => put_word(text, " sent ", letter),
    }
}
