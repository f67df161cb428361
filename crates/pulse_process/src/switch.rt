// A process that is the switch.

ghost use Rattle.std.specs.Prelude.{◌≡◌, ◌≢◌, ◌≤◌, Bool, All, Err, IfErr};
ghost use Rattle.pulse_base.specs.Outside.{Rose};
ghost use Rattle.switch_core.specs.Owners.{IsNode};
ghost use Rattle.pulse_serve.specs.Runs.{Serves};
ghost use Rattle.pulse_serve.specs.SwitchRun.{switch_loop};
ghost use Rattle.pulse_process.specs.Bound.{BoundTo, end_of};
ghost use Rattle.pulse_process.specs.Answer.{SwitchAnswer};

use crate::document::read_scenario;
use crate::fault::ProcessFault;
use crate::told::{Told, finished};
use pulse_base::{Bytes, Failed, Link};
use pulse_serve::{Served, serve_switch};
use scenario_parts::switch_of;
use scenario_text::Scenario;
use std::alloc::Global;
use switch_core::Switch;

// Binds the switch's port, and serves.
fn serve<L: Link>(net: &mut L, switch: &Switch, port: u16, turns: u64) -> Served
    requires port { port ≤ 65000 }
    requires nodes { All IsNode switch.now.owners }
    requires clients { switch.now.clients ≤ 16 }
    ensures serves { (f : Bool) → result ≡ end_of f → BoundTo port (L.traffic net.old) (L.traffic net.new) (λ rs ss. Serves (switch_loop port) turns (end_of f) switch.now rs switch.now ss) }
    ensures link { result ≡ Served.LinkFault → Rose (L.faults net.old) (L.faults net.new) }
    ensures kept { result ≢ Served.LinkFault → L.faults net.new ≡ L.faults net.old }
{
    match net.bind(port) {
        Ok(()) => serve_switch(net, switch, port, turns),
        Err(Failed) => Served::LinkFault,
    }
}

/// Runs the switch of the scenario of a document over a link, for so many turns at most. It tells nothing.
pub fn run_switch<L: Link>(
    alloc: Global,
    text: &[u8],
    turns: u64,
    net: &mut L,
) -> Result<Told, ProcessFault>
    ensures answer { SwitchAnswer text.now turns (L.traffic net.old) (L.traffic net.new) result }
    ensures link { result ≡ Err ProcessFault.Link → Rose (L.faults net.old) (L.faults net.new) }
    ensures kept { result ≢ Err ProcessFault.Link → result ≢ Err ProcessFault.Memory → L.faults net.new ≡ L.faults net.old }
    ensures refused { IfErr result (λ f. f ≢ ProcessFault.Link → f ≢ ProcessFault.Memory → net.new ≡ net.old) }
{
    let scenario = read_scenario(alloc, text)?;
    let Scenario { checked, plan } = scenario;
    let switch = switch_of(alloc, &checked, &plan)?;
    let served = serve(net, &switch, plan.port, turns);
    let finished = finished(served)?;
    Ok(Told {
        text: Bytes::new(alloc),
        finished,
    })
}
