// The commands that are processes of a document's scenario.

ghost use Rattle.std.specs.Prelude.{◌≡◌, ◌≢◌, Err, IfErr};
ghost use Rattle.pulse_base.specs.Outside.{Rose};
ghost use Rattle.pulse_process.specs.Answer.{AskAnswer, NodeAnswer, SwitchAnswer};
ghost use Rattle.pulse_cluster.specs.Answer.{ClusterAnswer};
ghost use Rattle.pulse_cli.specs.Steps.{ComesEarly, Serves};
ghost use Rattle.pulse_cli.specs.Steps as st;

use crate::failure::{Failure, Refusal};
use node_core::Yard;
use pulse_base::{Link, Spawner};
use pulse_cluster::run_cluster;
use pulse_process::{ProcessFault, Told, run_ask, run_node, run_switch};
use std::alloc::Global;

// The failure of a process.
fn failure_of(fault: ProcessFault) -> Failure
    ensures { result ≡ st.failure_of fault }
{
    match fault {
        ProcessFault::Document(fault) => Failure::Refused(Refusal::Document(fault)),
        ProcessFault::Form(limit) => Failure::Refused(Refusal::Form(limit)),
        ProcessFault::Link => Failure::Link,
        ProcessFault::Child => Failure::Child,
        ProcessFault::Memory => Failure::Memory,
    }
}

/// Runs a node, and tells its regions.
pub(crate) fn node_process<L: Link, Y: Yard>(
    alloc: Global,
    text: &[u8],
    node: u16,
    turns: u64,
    net: &mut L,
    yard: &mut Y,
) -> Result<Told, Failure>
    ensures serves { Serves (NodeAnswer text.now node turns (L.traffic net.old) (L.traffic net.new) (Y.returned yard.old) (Y.returned yard.new)) result }
    ensures link { result ≡ Err Failure.Link → Rose (L.faults net.old) (L.faults net.new) }
    ensures kept { result ≢ Err Failure.Link → result ≢ Err Failure.Memory → L.faults net.new ≡ L.faults net.old }
    ensures early { IfErr result (λ failure. ComesEarly failure → (net.new ≡ net.old) × (yard.new ≡ yard.old)) }
{
    match run_node(alloc, text, node, turns, net, yard) {
        Ok(told) => Ok(told),
        Err(fault) => Err(failure_of(fault)),
    }
}

/// Runs the switch.
pub(crate) fn switch_process<L: Link>(
    alloc: Global,
    text: &[u8],
    turns: u64,
    net: &mut L,
) -> Result<Told, Failure>
    ensures serves { Serves (SwitchAnswer text.now turns (L.traffic net.old) (L.traffic net.new)) result }
    ensures link { result ≡ Err Failure.Link → Rose (L.faults net.old) (L.faults net.new) }
    ensures kept { result ≢ Err Failure.Link → result ≢ Err Failure.Memory → L.faults net.new ≡ L.faults net.old }
    ensures early { IfErr result (λ failure. ComesEarly failure → net.new ≡ net.old) }
{
    match run_switch(alloc, text, turns, net) {
        Ok(told) => Ok(told),
        Err(fault) => Err(failure_of(fault)),
    }
}

/// Runs a client, and tells its answers.
pub(crate) fn ask_process<L: Link>(
    alloc: Global,
    text: &[u8],
    client: u16,
    turns: u64,
    net: &mut L,
) -> Result<Told, Failure>
    ensures serves { Serves (AskAnswer text.now client turns (L.traffic net.old) (L.traffic net.new)) result }
    ensures link { result ≡ Err Failure.Link → Rose (L.faults net.old) (L.faults net.new) }
    ensures kept { result ≢ Err Failure.Link → result ≢ Err Failure.Memory → L.faults net.new ≡ L.faults net.old }
    ensures early { IfErr result (λ failure. ComesEarly failure → net.new ≡ net.old) }
{
    match run_ask(alloc, text, client, turns, net) {
        Ok(told) => Ok(told),
        Err(fault) => Err(failure_of(fault)),
    }
}

/// Runs all processes of a document, and tells the answers.
pub(crate) fn cluster_process<L: Link, S: Spawner>(
    alloc: Global,
    text: &[u8],
    turns: u64,
    net: &mut L,
    kids: &mut S,
) -> Result<Told, Failure>
    ensures serves { Serves (ClusterAnswer text.now turns (L.traffic net.old) (L.traffic net.new) (S.family kids.old) (S.family kids.new)) result }
    ensures link { result ≡ Err Failure.Link → Rose (L.faults net.old) (L.faults net.new) }
    ensures child { result ≡ Err Failure.Child → Rose (S.faults kids.old) (S.faults kids.new) }
    ensures link_kept { result ≢ Err Failure.Link → L.faults net.new ≡ L.faults net.old }
    ensures children_kept { result ≢ Err Failure.Child → S.faults kids.new ≡ S.faults kids.old }
    ensures early { IfErr result (λ failure. ComesEarly failure → (net.new ≡ net.old) × (kids.new ≡ kids.old)) }
{
    match run_cluster(alloc, text, turns, net, kids) {
        Ok(told) => Ok(told),
        Err(fault) => Err(failure_of(fault)),
    }
}
