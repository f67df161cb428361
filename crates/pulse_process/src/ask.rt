// A process that is a client.

ghost use Rattle.std.specs.Prelude.{◌≡◌, ◌≢◌, ◌≤◌, ◌<◌, ◌+◌, Bool, nat_eq, Err, IfOk, IfErr};
ghost use Rattle.pulse_base.specs.Outside.{Rose};
ghost use Rattle.std.specs.List.{IsDistinct};
ghost use Rattle.pulse_serve.specs.ClientRun.{ServesClient, numbers};
ghost use Rattle.pulse_process.specs.Ask as a;
ghost use Rattle.pulse_process.specs.Bound.{BoundTo, end_of};
ghost use Rattle.pulse_process.specs.Answer.{AskAnswer};

use crate::document::read_scenario;
use crate::fault::{FormLimit, ProcessFault};
use crate::told::{Told, finished};
use client_core::Client;
use pulse_base::{Bytes, Failed, Link, Memory};
use pulse_codegen::build;
use pulse_serve::{Served, ask_all};
use report_text::answer_line;
use scenario_parts::client_of;
use scenario_text::Scenario;
use std::alloc::Global;

/// The lines of a client's requests, in order, and the last line. A request that has no answer is open. The requests of a client
/// that was made of a scenario differ in their numbers.
pub fn client_text(alloc: Global, client: &Client) -> Result<Bytes, Memory>
    requires differ { IsDistinct nat_eq (numbers client.now) }
    ensures { IfOk result (λ text. text ≡ a.client_text client.now) }
{
    let mut text = Bytes::new(alloc);
    'requests: for k in 0..client.len() {
        let number = client.number(k);
        text.append(answer_line(alloc, number, client.answer(number))?.as_slice())?;
    }
    text.append(b"end\n")?;
    Ok(text)
}

/// Binds the port of client c, asks all its requests, and makes so many turns at most.
pub fn ask_bound<L: Link>(net: &mut L, client: &mut Client, c: u16, port: u16, turns: u64) -> Served
    requires client { c < 16 }
    requires port { port ≤ 65000 }
    ensures serves { (f : Bool) → result ≡ end_of f → BoundTo (port + 65 + c) (L.traffic net.old) (L.traffic net.new) (λ rs ss. ServesClient port turns (end_of f) client.old rs client.new ss) }
    ensures requests { numbers client.new ≡ numbers client.old }
    ensures link { result ≡ Served.LinkFault → Rose (L.faults net.old) (L.faults net.new) }
    ensures kept { result ≢ Served.LinkFault → L.faults net.new ≡ L.faults net.old }
{
    match net.bind(port + 65 + c) {
        Ok(()) => ask_all(net, client, port, turns),
        Err(Failed) => Served::LinkFault,
    }
}

/// Runs client c of the scenario of a document over a link, in so many turns at most, and tells its answers.
pub fn run_ask<L: Link>(
    alloc: Global,
    text: &[u8],
    client: u16,
    turns: u64,
    net: &mut L,
) -> Result<Told, ProcessFault>
    ensures answer { AskAnswer text.now client turns (L.traffic net.old) (L.traffic net.new) result }
    ensures link { result ≡ Err ProcessFault.Link → Rose (L.faults net.old) (L.faults net.new) }
    ensures kept { result ≢ Err ProcessFault.Link → result ≢ Err ProcessFault.Memory → L.faults net.new ≡ L.faults net.old }
    ensures refused { IfErr result (λ f. f ≢ ProcessFault.Link → f ≢ ProcessFault.Memory → net.new ≡ net.old) }
{
    let scenario = read_scenario(alloc, text)?;
    let Scenario { checked, plan } = scenario;
    if client >= plan.clients {
        return Err(ProcessFault::Form(FormLimit::Client));
    }
    let built = build(alloc, checked)?;
    let mut asking = client_of(alloc, &built, &plan, client)?;
    let served = ask_bound(net, &mut asking, client, plan.port, turns);
    let finished = finished(served)?;
    let text = client_text(alloc, &asking)?;
    Ok(Told { text, finished })
}
