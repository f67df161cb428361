// The run of a cluster.

ghost use Rattle.std.specs.Prelude.{◌≡◌, ◌≢◌, Err, IfErr};
ghost use Rattle.pulse_base.specs.Outside.{Rose};
ghost use Rattle.pulse_cluster.specs.Answer.{ClusterAnswer};

use crate::children::{start_all, wait_all};
use crate::stops::stop_all;
use pulse_base::{Link, Spawner};
use pulse_codegen::build;
use pulse_process::{
    FormLimit, ProcessFault, Told, ask_bound, client_text, finished, read_scenario,
};
use scenario_parts::client_of;
use scenario_text::Scenario;
use std::alloc::Global;

/// Starts the nodes and the switch of the scenario of a document as children, asks all its requests as its one client in so many turns
/// at most, stops the children and waits for them, and tells the answers. A fault of the link or of a child ends it there.
pub fn run_cluster<L: Link, S: Spawner>(
    alloc: Global,
    text: &[u8],
    turns: u64,
    net: &mut L,
    kids: &mut S,
) -> Result<Told, ProcessFault>
    ensures answer { ClusterAnswer text.now turns (L.traffic net.old) (L.traffic net.new) (S.family kids.old) (S.family kids.new) result }
    ensures link { result ≡ Err ProcessFault.Link → Rose (L.faults net.old) (L.faults net.new) }
    ensures child { result ≡ Err ProcessFault.Child → Rose (S.faults kids.old) (S.faults kids.new) }
    ensures link_kept { result ≢ Err ProcessFault.Link → L.faults net.new ≡ L.faults net.old }
    ensures children_kept { result ≢ Err ProcessFault.Child → S.faults kids.new ≡ S.faults kids.old }
    ensures refused { IfErr result (λ f. f ≢ ProcessFault.Link → f ≢ ProcessFault.Child → f ≢ ProcessFault.Memory → (net.new ≡ net.old) × (kids.new ≡ kids.old)) }
{
    let scenario = read_scenario(alloc, text)?;
    let Scenario { checked, plan } = scenario;
    if plan.clients != 1 {
        return Err(ProcessFault::Form(FormLimit::Clients));
    }
    let built = build(alloc, checked)?;
    let mut client = client_of(alloc, &built, &plan, 0)?;
    let started = start_all(alloc, kids, text, plan.nodes, turns)?;
    let served = ask_bound(net, &mut client, 0, plan.port, turns);
    let finished = finished(served)?;
    stop_all(net, plan.port, plan.nodes)?;
    wait_all(kids, started)?;
    let text = client_text(alloc, &client)?;
    Ok(Told { text, finished })
}
