// The node.

ghost use Rattle.std.specs.Prelude.{◌≡◌, ◌≤◌, ◌<◌, ◌↔◌, [], ◌∷◌, length, map, slice_get, Some, None, IfOk, IfSome, IsSome, is_some, IsTrue, option_copied, false};
ghost use Rattle.std.specs.FinMap as m;
ghost use Rattle.run_rules.specs.Node.{key_of, back_of, find_live, place_of};
ghost use Rattle.run_rules.specs.Accepting.{is_foreign};
ghost use Rattle.node_core.specs.Part.{IsRegions, new_part, IsHere, HoldsRange, IsRange, place_by, HasAccepted, HasTurned};

mod accepting;
mod making;
mod reading;
mod turning;

use crate::held::Held;
use crate::part::{NodePart, Turned};
use code_image::Images;
use frame_codec::{Back, Ending, Leg};
use leg_ledger::{Ledger, LegKey};
use range_table::Table;
use run_rules::{Accepted, LiveLeg, ProgramSizes};
use std::collections::VecDeque;
use std::marker::Model;

/// A node that runs each leg to the end of its iteration. Its live legs are a queue that takes no memory after `make`,
/// and its kept replies a hash map: `accept` and `turn` cost the same however many replies are kept. A turn touches its
/// record in place, and finds it by a search in the table of the regions.
#[derive(Drop)]
pub struct Node {
    regions: Vec<Held>,
    table: Table,
    images: Images,
    slots: u32,
    ledger: Ledger,
    live: VecDeque<LiveLeg>,
}

impl Model for Node {
    ghost use Rattle.std.specs.Coded.{codes};
    ghost use Rattle.std.specs.FinMap as m;
    ghost use Rattle.node_core.specs.Part.{PartState};
    ghost use Rattle.node_core.specs.inner.View.{part_view, IsNode};
    ghost use Rattle.run_rules.specs.contracts.node.NodeRegion.{the_row as region_row};
    ghost use Rattle.run_rules.specs.contracts.node.ProgramSizes.{the_row as sizes_row};
    ghost use Rattle.run_rules.specs.contracts.node.LiveLeg.{the_row as live_row};
    ghost use Rattle.leg_ledger.specs.contracts.leg.LegKey.{the_row as key_row};
    ghost use Rattle.leg_ledger.specs.contracts.leg.Reply.{the_row as reply_row};
    ghost use Rattle.code_image.specs.contracts.image.Image.{the_row as image_row};

    ghost Value = { PartState };

    ghost coded = { Prim.hlevel (codes, m.code, region_row.coded, sizes_row.coded, live_row.coded, key_row.coded, reply_row.coded, image_row.coded) };

    ghost view = { part_view };

    ghost invariant = { IsNode };
}

// What names a leg.
fn key_of(leg: &Leg) -> LegKey
    ensures { result ≡ key_of leg.now }
{
    LegKey {
        client: leg.client,
        request: leg.request,
        leg: leg.leg,
    }
}

// The back of a leg as it stands.
fn back_of(leg: &Leg, ending: Ending) -> Back
    ensures { result ≡ back_of leg.now ending }
{
    Back {
        client: leg.client,
        request: leg.request,
        leg: leg.leg,
        program: leg.program,
        left: leg.left,
        cur: leg.cur,
        pad: leg.pad,
        ending,
    }
}

impl Node {
    // The sizes of a program, if it is known here.
    fn sizes_of(&self, program: u16) -> Option<ProgramSizes>
        ensures sizes { result ≡ slice_get self.now.node.sizes program }
        ensures some { IfSome result (λ s. 1 ≤ s.record_size) }
    {
        let program = program as usize;
        if program >= self.images.len() {
            return None;
        }
        let image = self.images.get(program);
        Some(ProgramSizes {
            record_size: image.record_size,
            pad_size: image.pad_size,
        })
    }

    // Whether the program is not known here, or the pad is not of its size.
    fn is_foreign(&self, leg: &Leg) -> bool
        ensures { result ≡ is_foreign self.now.node leg.now }
    {
        match self.sizes_of(leg.program) {
            None => true,
            Some(sizes) => leg.pad.bytes().len() != sizes.pad_size as usize,
        }
    }

    // The place of the region here that holds the leg's record.
    fn place_of(&self, leg: &Leg) -> Option<usize>
        requires { is_foreign self.now.node leg.now ≡ false }
        ensures place { result ≡ place_of self.now.node leg.now }
        ensures inside { IfSome result (λ i. i < length self.now.node.regions) }
    {
        match self.sizes_of(leg.program) {
            None => None,
            Some(sizes) => self.table.find(leg.cur, sizes.record_size),
        }
    }
}

// A field is named where contracts are to know what holds of all fields.
impl NodePart for Node {
    ghost use Rattle.run_rules.specs.Waiting.{rest};
    ghost use Rattle.std.specs.Prelude.{true};

    ghost state = { λ n. n };

    ghost rest = { λ n. rest n.node };

    ghost plain = { λ n. true };

    fn accept(&mut self, leg: &Leg) -> Accepted {
        let _ = &self.slots;
        let answer = self.accept_leg(leg);
        let _ = &self.slots;
        answer
    }

    fn turn(&mut self) -> Turned {
        let _ = &self.slots;
        let turned = self.turn_first();
        let _ = &self.slots;
        turned
    }

    fn is_idle(&self) -> bool {
        self.live.is_empty()
    }

    fn has_region(&self, region: u16) -> bool {
        let _ = &self.slots;
        self.place_by(region).is_some()
    }

    fn read_region(&self, region: u16, at: usize, out: &mut [u8]) {
        let _ = &self.slots;
        self.read_bytes(region, at, out);
    }
}
