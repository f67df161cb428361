// What ends the children of a cluster.

ghost use Rattle.std.specs.Prelude.{◌≡◌, ◌≤◌, [], ◌∷◌, IfErr, OnOk};
ghost use Rattle.pulse_base.specs.Outside.{HasCause};
ghost use Rattle.pulse_serve.specs.Frames.{Grew, letter};
ghost use Rattle.pulse_cluster.specs.Cluster.{stops, three_stops};

use frame_codec::Frame;
use pulse_base::{Failed, Link};
use pulse_process::ProcessFault;
use pulse_serve::post;

// Sends a Stop.
fn stop<L: Link>(net: &mut L, port: u16) -> Result<(), ProcessFault>
    ensures sent { OnOk result (Grew (L.traffic net.old) (L.traffic net.new) [] (letter port Frame.Stop ∷ [])) }
    ensures cause { HasCause (L.faults net.old) (L.faults net.new) result }
    ensures fault { IfErr result (λ f. f ≡ ProcessFault.Link) }
{
    match post(net, port, &Frame::Stop) {
        Ok(()) => Ok(()),
        Err(Failed) => Err(ProcessFault::Link),
    }
}

// Sends three Stops to a port, since a frame may be lost.
fn stop_surely<L: Link>(net: &mut L, port: u16) -> Result<(), ProcessFault>
    ensures sent { OnOk result (Grew (L.traffic net.old) (L.traffic net.new) [] (three_stops port)) }
    ensures cause { HasCause (L.faults net.old) (L.faults net.new) result }
    ensures fault { IfErr result (λ f. f ≡ ProcessFault.Link) }
{
    stop(net, port)?;
    stop(net, port)?;
    stop(net, port)?;
    Ok(())
}

/// Sends three Stops to each node in order, and then three to the switch.
pub(crate) fn stop_all<L: Link>(net: &mut L, port: u16, nodes: u16) -> Result<(), ProcessFault>
    requires port { port ≤ 65000 }
    requires nodes { nodes ≤ 64 }
    ensures sent { OnOk result (Grew (L.traffic net.old) (L.traffic net.new) [] (stops port nodes)) }
    ensures cause { HasCause (L.faults net.old) (L.faults net.new) result }
    ensures fault { IfErr result (λ f. f ≡ ProcessFault.Link) }
{
    'nodes: for n in 0..nodes {
        stop_surely(net, port + 1 + n)?;
    }
    stop_surely(net, port)?;
    Ok(())
}
