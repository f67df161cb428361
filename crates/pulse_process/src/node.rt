// A process that is a node.

ghost use Rattle.std.specs.Prelude.{◌≡◌, ◌≢◌, ◌≤◌, ◌<◌, ◌+◌, ◌++◌, All, Bool, codes, length, Err, IfOk, IfErr, OnOk};
ghost use Rattle.pulse_base.specs.Outside.{Rose};
ghost use Rattle.run_views.specs.Nodes.{bytes_numbered};
ghost use Rattle.pulse_serve.specs.Runs.{Serves};
ghost use Rattle.pulse_serve.specs.NodeRun.{node_loop};
ghost use Rattle.pulse_process.specs.Bound.{BoundTo, end_of};
ghost use Rattle.pulse_process.specs.inner.Held.{HasSpan, HaveSpans, IsHeld, SameRegions, line_here, lines_here};
ghost use Rattle.pulse_process.specs.Answer.{NodeAnswer};

use crate::document::read_scenario;
use crate::fault::{FormLimit, ProcessFault};
use crate::told::{Told, finished};
use node_core::{NodePart, Yard};
use pulse_base::{Bytes, Failed, Link, Memory};
use pulse_codegen::build;
use pulse_serve::{Served, serve_node};
use report_text::{OutRegion, region_line};
use scenario_parts::part_of;
use scenario_text::{PlanRegion, Scenario};
use std::alloc::Global;

// A region of the plan, as the node has it.
fn region_of<N: NodePart>(
    alloc: Global,
    part: &N,
    number: u16,
    region: &PlanRegion,
) -> Result<OutRegion, Memory>
    requires held { IsHeld (N.state part.now) number region.now }
    ensures { IfOk result (λ out. out ≡ record { shown = region.now.shown; bytes = bytes_numbered (N.state part.now).node.regions number }) }
{
    let mut bytes = Bytes::from_slice(alloc, region.bytes.as_slice())?.into_vec();
    part.read_region(number, 0, &mut bytes);
    Ok(OutRegion {
        shown: region.shown,
        bytes: Bytes::from_vec(bytes),
    })
}

// Puts the line of a region of the plan, where the node has it.
fn put_region<N: NodePart>(
    alloc: Global,
    text: &mut Bytes,
    part: &N,
    number: u16,
    region: &PlanRegion,
) -> Result<(), Memory>
    requires filled { length region.now.bytes ≡ (region.now.span).len }
    requires span { HasSpan (N.state part.now) number region.now }
    ensures { OnOk result (text.new ≡ text.old ++ line_here (N.state part.now) number region.now) }
{
    if !part.has_region(number) {
        return Ok(());
    }
    let out = region_of(alloc, part, number, region)?;
    let line = region_line(alloc, u32::from(number), &out)?;
    text.append(line.as_slice())
}

// The lines of those regions of the plan that the node has, and the last line.
fn node_text<N: NodePart>(alloc: Global, regions: &[PlanRegion], part: &N) -> Result<Bytes, Memory>
    requires few { length regions.now ≤ 64 }
    requires filled { All (λ r. length r.bytes ≡ (r.span).len) regions.now }
    requires spans { HaveSpans (N.state part.now) regions.now }
    ensures { IfOk result (λ text. text ≡ lines_here (N.state part.now) 0 regions.now ++ codes "end\n") }
{
    let mut text = Bytes::new(alloc);
    'regions: for (k, region) in regions.iter().enumerate() {
        put_region(alloc, &mut text, part, k as u16, region)?;
    }
    text.append(b"end\n")?;
    Ok(text)
}

// Binds the node's port, and serves.
fn serve<L: Link, N: NodePart>(
    net: &mut L,
    part: &mut N,
    node: u16,
    port: u16,
    turns: u64,
) -> Served
    requires node { node < 64 }
    requires port { port ≤ 65000 }
    ensures serves { (f : Bool) → result ≡ end_of f → BoundTo (port + 1 + node) (L.traffic net.old) (L.traffic net.new) (λ rs ss. Serves (node_loop (N.plain part.old) port) turns (end_of f) (N.state part.old) rs (N.state part.new) ss) }
    ensures same { SameRegions (N.state part.old) (N.state part.new) }
    ensures link { result ≡ Served.LinkFault → Rose (L.faults net.old) (L.faults net.new) }
    ensures kept { result ≢ Served.LinkFault → L.faults net.new ≡ L.faults net.old }
{
    match net.bind(port + 1 + node) {
        Ok(()) => serve_node(net, part, port, turns),
        Err(Failed) => Served::LinkFault,
    }
}

/// Runs node n of the scenario of a document over a link, for so many turns at most, and tells its regions. The yard makes the node
/// and is given it back.
pub fn run_node<L: Link, Y: Yard>(
    alloc: Global,
    text: &[u8],
    node: u16,
    turns: u64,
    net: &mut L,
    yard: &mut Y,
) -> Result<Told, ProcessFault>
    ensures answer { NodeAnswer text.now node turns (L.traffic net.old) (L.traffic net.new) (Y.returned yard.old) (Y.returned yard.new) result }
    ensures link { result ≡ Err ProcessFault.Link → Rose (L.faults net.old) (L.faults net.new) }
    ensures kept { result ≢ Err ProcessFault.Link → result ≢ Err ProcessFault.Memory → L.faults net.new ≡ L.faults net.old }
    ensures refused { IfErr result (λ f. f ≢ ProcessFault.Link → f ≢ ProcessFault.Memory → (net.new ≡ net.old) × (yard.new ≡ yard.old)) }
{
    let scenario = read_scenario(alloc, text)?;
    let Scenario { checked, plan } = scenario;
    if node >= plan.nodes {
        return Err(ProcessFault::Form(FormLimit::Node));
    }
    let built = build(alloc, checked)?;
    let mut part = part_of(alloc, yard, &built, &plan, node)?;
    let served = serve(net, &mut part, node, plan.port, turns);
    let text = node_text(alloc, plan.regions.as_slice(), &part);
    yard.give_back(part)?;
    let finished = finished(served)?;
    let text = text?;
    Ok(Told { text, finished })
}
