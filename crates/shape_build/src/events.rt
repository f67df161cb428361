// The events and the requests of a document.

ghost use Rattle.std.specs.Prelude.{◌≡◌, ◌+◌, ◌*◌, ◌<◌, ◌≤◌, ◌^◌, ◌++◌, codes, decimal, OnOk};
ghost use Rattle.shape_build.specs.Draws.{draw};
ghost use Rattle.shape_build.specs.Text.{below};
ghost use Rattle.shape_build.specs.Requests.{event_line, event_text, events_text, request_text, two, three};

use crate::draws::Draws;
use crate::text::{put, put_number};
use pulse_base::{Bytes, Memory};

#[tactic(auto, unfolding(crate::specs::Requests::event_line))]
fn put_event_line(text: &mut Bytes, name: &str, number: u64) -> Result<(), Memory>
    ensures { OnOk result (text.new ≡ text.old ++ event_line name.now number) }
{
    put(text, "\"")?;
    put(text, name)?;
    put_number(text, number)?;
    put(text, "\",\n")?;
    Ok(())
}

// The event of two draws, the e-th behind the asks.
#[tactic(auto, unfolding(crate::specs::Requests::event_text))]
fn put_event(text: &mut Bytes, requests: u64, e: u64, a: u64, b: u64) -> Result<(), Memory>
    requires some { 1 ≤ requests }
    requires few { requests < 2 ^ 32 }
    requires events { e < 2 ^ 32 }
    ensures { OnOk result (text.new ≡ text.old ++ event_text requests e a b) }
{
    if a % 4 < 2 {
        put_event_line(text, "deliver ", b % (requests + e))?;
        return Ok(());
    }
    if a % 4 == 2 {
        put_event_line(text, "turn ", b % 4)?;
        return Ok(());
    }
    put_event_line(text, "tick ", b % requests)?;
    Ok(())
}

fn put_asks(text: &mut Bytes, requests: u64) -> Result<(), Memory>
    ensures { OnOk result (text.new ≡ text.old ++ below requests (event_line (codes "ask "))) }
{
    'asks: for r in 0..requests {
        put_event_line(text, "ask ", r)?;
    }
    Ok(())
}

fn put_drawn_events(text: &mut Bytes, requests: u64, draws: &mut Draws) -> Result<(), Memory>
    requires some { 1 ≤ requests }
    requires few { requests < 2 ^ 32 }
    requires room { draws.old.count < 2 ^ 30 }
    ensures { OnOk result (text.new ≡ text.old ++ below 900 (λ e. event_text requests e (draw draws.old.seed (draws.old.count + 2 * e)) (draw draws.old.seed (draws.old.count + 2 * e + 1)))) }
{
    'events: for e in 0..900 {
        let a = draws.draw();
        let b = draws.draw();
        put_event(text, requests, e, a, b)?;
    }
    Ok(())
}

/// An ask of each request, and 900 events of the next draws.
#[tactic(auto, unfolding(crate::specs::Requests::events_text))]
pub(crate) fn put_events(text: &mut Bytes, requests: u64, draws: &mut Draws) -> Result<(), Memory>
    requires some { 1 ≤ requests }
    requires few { requests < 2 ^ 32 }
    requires room { draws.old.count < 2 ^ 30 }
    ensures { OnOk result (text.new ≡ text.old ++ events_text requests draws.old.seed draws.old.count) }
{
    put_asks(text, requests)?;
    put_drawn_events(text, requests, draws)?;
    put(text, "]\n")?;
    Ok(())
}

fn put_request_head(text: &mut Bytes, iter: &str) -> Result<(), Memory>
    ensures { OnOk result (text.new ≡ text.old ++ codes "[[request]]\niter = \"" ++ iter.now ++ codes "\"\nargs = [") }
{
    put(text, "[[request]]\niter = \"")?;
    put(text, iter)?;
    put(text, "\"\nargs = [")?;
    Ok(())
}

#[tactic(auto, unfolding(crate::specs::Requests::two))]
fn put_two(text: &mut Bytes, a: u64, b: u64) -> Result<(), Memory>
    ensures { OnOk result (text.new ≡ text.old ++ two a b) }
{
    put_number(text, a)?;
    put(text, ", ")?;
    put_number(text, b)?;
    Ok(())
}

#[tactic(auto, unfolding(crate::specs::Requests::three))]
fn put_three(text: &mut Bytes, a: u64, b: u64, c: u64) -> Result<(), Memory>
    ensures { OnOk result (text.new ≡ text.old ++ three a b c) }
{
    put_two(text, a, b)?;
    put(text, ", ")?;
    put_number(text, c)?;
    Ok(())
}

/// A request of one argument.
#[tactic(auto, unfolding(crate::specs::Requests::request_text))]
pub(crate) fn put_request_of_one(text: &mut Bytes, iter: &str, a: u64) -> Result<(), Memory>
    ensures { OnOk result (text.new ≡ text.old ++ request_text iter.now (decimal a)) }
{
    put_request_head(text, iter)?;
    put_number(text, a)?;
    put(text, "]\n")?;
    Ok(())
}

/// A request of two arguments.
#[tactic(auto, unfolding(crate::specs::Requests::request_text))]
pub(crate) fn put_request_of_two(text: &mut Bytes, iter: &str, a: u64, b: u64) -> Result<(), Memory>
    ensures { OnOk result (text.new ≡ text.old ++ request_text iter.now (two a b)) }
{
    put_request_head(text, iter)?;
    put_two(text, a, b)?;
    put(text, "]\n")?;
    Ok(())
}

/// A request of three arguments.
#[tactic(auto, unfolding(crate::specs::Requests::request_text))]
pub(crate) fn put_request_of_three(
    text: &mut Bytes,
    iter: &str,
    a: u64,
    b: u64,
    c: u64,
) -> Result<(), Memory>
    ensures { OnOk result (text.new ≡ text.old ++ request_text iter.now (three a b c)) }
{
    put_request_head(text, iter)?;
    put_three(text, a, b, c)?;
    put(text, "]\n")?;
    Ok(())
}
