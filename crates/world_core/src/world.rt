// The world.

ghost use Rattle.std.specs.Prelude.{◌≡◌, ◌<◌, ◌≤◌, [], length, map, Some, slice_get};
ghost use Rattle.std.specs.Option.{option_map};
ghost use Rattle.run_rules.specs.Client.{answer_of};
ghost use Rattle.world_core.specs.Letters.{IsLetterOf, IsTo};
ghost use Rattle.world_core.specs.Scene.{HoldsAt, ReadsAt, owner_in, world_of};
ghost use Rattle.world_core.specs.inner.Fits.{IsScene};

mod drain;
mod events;

use crate::clients::Clients;
use crate::letter::To;
use crate::letters::Letters;
use crate::nodes::Nodes;
use client_core::Client;
use code_image::Images;
use node_core::NodePart;
use pulse_base::{Answer, Numbers};
use std::alloc::Global;
use std::marker::Model;
use switch_core::Switch;

/// A world: nodes, clients and a switch, the letters that they sent, and the order of iterations.
#[derive(Drop)]
pub struct World<N: NodePart> {
    switch: Switch,
    // The switch's.
    owners: Numbers,
    images: Images,
    homes: Numbers,
    nodes: Nodes<N>,
    clients: Clients,
    letters: Letters,
    order: Numbers,
}

impl<N: NodePart> Model for World<N> {
    ghost use Rattle.std.specs.Prelude.{◌≡◌};
    ghost use Rattle.world_core.specs.Scene.{Scene};
    ghost use Rattle.world_core.specs.inner.Fits.{IsScene};
    ghost use Rattle.std.specs.Coded.{codes};
    ghost use Rattle.std.specs.FinMap as m;
    ghost use Rattle.run_rules.specs.contracts.node.NodeRegion.{the_row as region_row};
    ghost use Rattle.run_rules.specs.contracts.node.ProgramSizes.{the_row as sizes_row};
    ghost use Rattle.run_rules.specs.contracts.node.LiveLeg.{the_row as live_row};
    ghost use Rattle.leg_ledger.specs.contracts.leg.LegKey.{the_row as key_row};
    ghost use Rattle.leg_ledger.specs.contracts.leg.Reply.{the_row as reply_row};
    ghost use Rattle.code_image.specs.contracts.image.Image.{the_row as image_row};
    ghost use Rattle.run_rules.specs.contracts.client.Terms.{the_row as terms_row};
    ghost use Rattle.client_core.specs.contracts.request.Request.{the_row as request_row};
    ghost use Rattle.world_core.specs.contracts.letter.Letter.{the_row as letter_row};
    ghost use Rattle.range_table.specs.contracts.region.RegionSpan.{the_row as span_row};

    ghost Value = { Scene };

    ghost coded = { Prim.hlevel (codes, m.code, region_row.coded, sizes_row.coded, live_row.coded, key_row.coded, reply_row.coded, image_row.coded, terms_row.coded, request_row.coded, letter_row.coded, span_row.coded) };

    ghost view = { λ w. record { switch = w.switch; images = w.images; homes = w.homes; nodes = w.nodes; clients = w.clients; letters = w.letters.sent; order = w.order } };

    ghost invariant = { λ w. (w.owners ≡ w.switch.owners) × IsScene (record { switch = w.switch; images = w.images; homes = w.homes; nodes = w.nodes; clients = w.clients; letters = w.letters.sent; order = w.order }) };
}

impl<N: NodePart> World<N> {
    /// A world of these parts, in which nothing was sent. `owners` are the switch's, and `homes` has the client of each request.
    pub fn of(
        alloc: Global,
        switch: Switch,
        owners: Numbers,
        images: Images,
        homes: Numbers,
        nodes: Vec<N>,
        clients: Vec<Client>,
    ) -> World<N>
        requires owners { owners ≡ switch.owners }
        requires fits { IsScene (record { switch = switch; images = images; homes = homes; nodes = map (λ n. record { part = N.state n; rest = N.rest n; plain = N.plain n }) nodes.items; clients = clients.items; letters = []; order = [] }) }
        ensures { result ≡ record { switch = switch; images = images; homes = homes; nodes = map (λ n. record { part = N.state n; rest = N.rest n; plain = N.plain n }) nodes.items; clients = clients.items; letters = []; order = [] } }
    {
        World {
            switch,
            owners,
            images,
            homes,
            nodes: Nodes::of(nodes),
            clients: Clients::of(clients),
            letters: Letters::new(alloc),
            order: Numbers::new(alloc),
        }
    }

    /// How many letters were sent: at most 4,000,000,000.
    pub fn letters(&self) -> u32
        ensures { result ≡ length self.now.letters }
    {
        self.letters.len() as u32
    }

    /// The bytes of the frame of a letter.
    pub fn letter(&self, k: u32) -> &[u8]
        requires { k < length self.now.letters }
        ensures { IsLetterOf self.now.letters k result.now }
    {
        self.letters.bytes(k as usize)
    }

    /// Where a letter goes.
    pub fn letter_to(&self, k: u32) -> To
        requires { k < length self.now.letters }
        ensures { IsTo self.now.letters k result }
    {
        self.letters.get(k as usize).to
    }

    /// The requests of the turns that ran an iteration, in order.
    pub fn order(&self) -> &Numbers
        ensures { result.now ≡ self.now.order }
    {
        &self.order
    }

    /// How many nodes there are.
    pub fn nodes(&self) -> usize
        ensures { result ≡ length self.now.nodes }
    {
        self.nodes.len()
    }

    /// How many requests there are.
    pub fn requests(&self) -> usize
        ensures { result ≡ length self.now.homes }
    {
        self.homes.len()
    }

    /// The answer of a request: `Waiting` where it is asked and has none.
    pub fn answer(&self, r: u32) -> &Answer
        requires { r < length self.now.homes }
        ensures { option_map answer_of (slice_get (world_of self.now).asking r) ≡ Some result.now }
    {
        self.clients.answer(*self.homes.get(r as usize) as usize, r)
    }

    /// Copies bytes of a region, from `at` on, as its owner has them.
    pub fn region(&self, i: u16, at: usize, out: &mut [u8])
        requires here { i < length self.now.switch.owners }
        requires holds { HoldsAt self.now.nodes (owner_in self.now i) i at (length out.old) }
        ensures { ReadsAt self.now.nodes (owner_in self.now i) i at out.new }
    {
        let owner = *self.owners.get(i as usize);
        self.nodes.read(owner as usize, i, at, out)
    }

    /// The nodes, in the order of their numbers and as they are.
    pub fn end(self) -> Vec<N>
        ensures { map (λ n. record { part = N.state n; rest = N.rest n; plain = N.plain n }) result.items ≡ self.nodes }
    {
        let World { nodes, .. } = self;
        nodes.into_vec()
    }
}
