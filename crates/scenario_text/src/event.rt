// The events of a schedule.

ghost use Rattle.std.specs.Prelude.{◌≡◌, ◌≤◌, ◌<◌, ◌^◌, IfSome, codes, length};
ghost use Rattle.toml.specs.View.{items_view};
ghost use Rattle.scenario_text.specs.Events.{event_of, events_fault, number_after, number_word};
ghost use Rattle.scenario_text.specs.Regions.{plan_events};
ghost use Rattle.scenario_text.specs.Steps.{Gives};

use crate::fault::DocFault;
use crate::number::{after, number_of};
use pulse_base::{Event, Events, Memory};
use std::alloc::Global;
use toml::Value;

const PAST_U32: u128 = 0x1_0000_0000;

fn number_word(text: &[u8]) -> Option<u64>
    ensures value { result ≡ number_word text.now }
    ensures low { IfSome result (λ n. n < 2 ^ 32) }
{
    if text.len() == 0 || text[0] == b'0' && 1 < text.len() {
        return None;
    }
    number_of(10, PAST_U32, text)
}

fn number_after(word: &[u8], text: &[u8]) -> Option<u64>
    ensures value { result ≡ number_after word.now text.now }
    ensures low { IfSome result (λ n. n < 2 ^ 32) }
{
    match after(word, text) {
        Some(rest) => number_word(rest),
        None => None,
    }
}

// The event of a text, where there are so many requests and nodes.
fn event_of(requests: u64, nodes: u64, text: &[u8]) -> Option<Event>
    ensures { result ≡ event_of requests nodes text.now }
{
    if let Some(n) = number_after(b"ask ", text) {
        if n < requests {
            return Some(Event::Ask(n as u32));
        }
    }
    if let Some(n) = number_after(b"tick ", text) {
        if n < requests {
            return Some(Event::Tick(n as u32));
        }
    }
    if let Some(n) = number_after(b"deliver ", text) {
        return Some(Event::Deliver(n as u32));
    }
    if let Some(n) = number_after(b"turn ", text) {
        if n < nodes {
            return Some(Event::Turn(n as u32));
        }
    }
    None
}

/// The events of a list of texts, or the first text that is none.
pub(crate) fn read_events(
    alloc: Global,
    requests: u64,
    nodes: u64,
    texts: &[Value],
) -> Result<Events, DocFault>
    requires few { length texts.now < 2 ^ 32 }
    ensures { Gives (events_fault requests nodes 0 (items_view texts.now)) (plan_events requests nodes (items_view texts.now)) result }
{
    let mut events = Events::new(alloc);
    let mut at = 0;
    'texts: while at < texts.len() {
        let event = match texts[at].as_str() {
            Some(text) => event_of(requests, nodes, text.as_bytes()),
            None => None,
        };
        match event {
            Some(event) => {
                if events.push(event).is_err() {
                    return Err(DocFault::Memory);
                }
            }
            None => return Err(DocFault::Event(at as u32)),
        }
        at += 1;
    }
    Ok(events)
}
