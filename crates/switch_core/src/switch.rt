// The switch.

ghost use Rattle.std.specs.Prelude.{◌≡◌, ◌-◌, ◌<◌, ◌≤◌, ◌^◌, length, All, slice_index_or, nat_lt, ◌&&◌};
ghost use Rattle.range_table.specs.Memory.{region_of};
ghost use Rattle.run_rules.specs.Node.{back_of};
ghost use Rattle.run_rules.specs.Switch as s;
ghost use Rattle.switch_core.specs.Owners.{IsNode, IsRecordSize};

use frame_codec::{Back, Ending, Frame, Leg};
use pulse_base::{FaultKind, Numbers};
use range_table::Table;
use run_rules::Out;
use std::marker::Model;

/// All regions, the node that owns each, the bytes of a record of each program, and how many clients there are.
/// Contracts see these four.
#[derive(Debug, Drop)]
pub struct Switch {
    table: Table,
    owners: Numbers,
    sizes: Numbers,
    clients: u16,
}

impl Model for Switch {
    ghost use Rattle.std.specs.Prelude.{◌≡◌, length, All};
    ghost use Rattle.run_rules.specs.Switch.{SwitchState};
    ghost use Rattle.switch_core.specs.Owners.{IsNode, IsRecordSize};

    ghost Value = { SwitchState };

    ghost view = { λ s. record { table = s.table; owners = s.owners; sizes = s.sizes; clients = s.clients } };

    ghost invariant = { λ s. (length s.owners ≡ length s.table) × All IsNode s.owners × All IsRecordSize s.sizes };
}

// The same leg as it ended.
fn back_of(leg: &Leg, ending: Ending) -> Back
    ensures { result ≡ back_of leg.now ending }
{
    Back {
        client: leg.client,
        request: leg.request,
        leg: leg.leg,
        program: leg.program,
        left: leg.left,
        cur: leg.cur,
        pad: leg.pad,
        ending,
    }
}

// The leg that goes on where a back was rerouted, with the iterations that it had left.
fn next_leg(back: &Back) -> Leg
    requires { back.now.leg < 2 ^ 32 - 1 }
    ensures { result ≡ s.next_leg back.now }
{
    Leg {
        client: back.client,
        request: back.request,
        leg: back.leg + 1,
        program: back.program,
        left: back.left,
        cur: back.cur,
        pad: back.pad,
    }
}

impl Switch {
    /// A switch over a table: `owners` has the node of each region, below 64, `sizes` the bytes of a record of each
    /// program, 1 to 256, and `clients` is 1 to 16.
    pub fn make(table: Table, owners: Numbers, sizes: Numbers, clients: u16) -> Switch
        requires owned { length owners ≡ length table }
        requires nodes { All IsNode owners }
        requires sizes { All IsRecordSize sizes }
        requires some { 1 ≤ clients }
        requires few { clients ≤ 16 }
        ensures { result ≡ record { table = table; owners = owners; sizes = sizes; clients = clients } }
    {
        Switch {
            table,
            owners,
            sizes,
            clients,
        }
    }

    // Whether there is such a client and such a program.
    fn is_known(&self, client: u16, program: u16) -> bool
        ensures { result ≡ s.is_known self.now client program }
    {
        client < self.clients && usize::from(program) < self.sizes.len()
    }

    // Where a leg goes: to the owner of the region that holds its record, or back to its client as unmapped.
    fn route(&self, leg: &Leg) -> Out
        requires { leg.now.program < length self.now.sizes }
        ensures { result ≡ s.route self.now leg.now }
    {
        let size = *self.sizes.get(usize::from(leg.program)) as u16;
        match self.table.find(leg.cur, size) {
            Some(i) => Out::ToNode(*self.owners.get(i) as u16, *leg),
            None => Out::ToClient(leg.client, back_of(leg, Ending::Fault(FaultKind::Unmapped))),
        }
    }

    // Where a back goes: a Reroute on as the next leg, any other to its client.
    fn pass_back(&self, back: &Back) -> Out
        requires { back.now.program < length self.now.sizes }
        ensures { result ≡ s.pass_back self.now back.now back.now.ending }
    {
        match back.ending {
            Ending::Reroute => {
                if back.leg == u32::MAX {
                    return Out::Nothing;
                }
                self.route(&next_leg(back))
            }
            Ending::Done => Out::ToClient(back.client, *back),
            Ending::Resume => Out::ToClient(back.client, *back),
            Ending::Fault(_) => Out::ToClient(back.client, *back),
        }
    }

    /// What becomes of a frame: a leg goes to the node that owns the region of its record, or its client has it back
    /// as unmapped; a Reroute goes on as the next leg; any other back goes to its client. A Stop, and a client or a
    /// program that is not there, give nothing, and neither does a Reroute of the last leg number.
    pub fn on(&self, frame: &Frame) -> Out
        ensures { result ≡ s.on self.now frame.now }
    {
        match frame {
            Frame::Leg(leg) => {
                if !self.is_known(leg.client, leg.program) {
                    return Out::Nothing;
                }
                self.route(leg)
            }
            Frame::Back(back) => {
                if !self.is_known(back.client, back.program) {
                    return Out::Nothing;
                }
                self.pass_back(back)
            }
            Frame::Stop => Out::Nothing,
        }
    }
}
