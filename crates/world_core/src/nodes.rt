// The nodes of a run.

ghost use Rattle.std.specs.Prelude.{◌≡◌, ◌<◌, ◌≤◌, ◌↔◌, [], IsTrue, length, map, slice_get};
ghost use Rattle.drain_run.specs.Drain.{live_at};
ghost use Rattle.world_core.specs.Scene.{HoldsAt, ReadsAt, nodes_of};
ghost use Rattle.world_core.specs.inner.Nodes.{Takes, Makes, AnswerFits, TurnFits};

use frame_codec::Leg;
use node_core::{Accepted, NodePart, Turned};
use std::marker::Model;

/// The nodes, by their numbers. Contracts see their states.
#[derive(Drop)]
pub struct Nodes<N: NodePart> {
    nodes: Vec<N>,
}

impl<N: NodePart> Model for Nodes<N> {
    ghost use Rattle.std.specs.Prelude.{List, map};
    ghost use Rattle.world_core.specs.Scene.{Member};
    ghost use Rattle.std.specs.Coded.{codes};
    ghost use Rattle.std.specs.FinMap as m;
    ghost use Rattle.run_rules.specs.contracts.node.NodeRegion.{the_row as region_row};
    ghost use Rattle.run_rules.specs.contracts.node.ProgramSizes.{the_row as sizes_row};
    ghost use Rattle.run_rules.specs.contracts.node.LiveLeg.{the_row as live_row};
    ghost use Rattle.leg_ledger.specs.contracts.leg.LegKey.{the_row as key_row};
    ghost use Rattle.leg_ledger.specs.contracts.leg.Reply.{the_row as reply_row};
    ghost use Rattle.code_image.specs.contracts.image.Image.{the_row as image_row};

    ghost Value = { List Member };

    ghost coded = { Prim.hlevel (codes, m.code, region_row.coded, sizes_row.coded, live_row.coded, key_row.coded, reply_row.coded, image_row.coded) };

    ghost view = { λ w. map (λ n. record { part = N.state n; rest = N.rest n; plain = N.plain n }) w.nodes.items };
}

impl<N: NodePart> Nodes<N> {
    /// The nodes of a list.
    pub fn of(nodes: Vec<N>) -> Nodes<N>
        ensures { result ≡ map (λ n. record { part = N.state n; rest = N.rest n; plain = N.plain n }) nodes.items }
    {
        Nodes { nodes }
    }

    /// Hands a leg to a node. No other node changes.
    pub fn take(&mut self, n: usize, leg: &Leg) -> Accepted
        requires here { n < length self.old }
        requires left { 1 ≤ leg.now.left }
        ensures takes { Takes result self.old self.new n leg.now }
        ensures fits { AnswerFits result }
    {
        self.nodes[n].accept(leg)
    }

    /// Lets a node make a turn. No other node changes.
    pub fn turn(&mut self, n: usize) -> Turned
        requires { n < length self.old }
        ensures makes { Makes result self.old self.new n }
        ensures fits { TurnFits result }
    {
        self.nodes[n].turn()
    }

    /// Whether no leg is live on a node.
    pub fn is_idle(&self, n: usize) -> bool
        requires { n < length self.now }
        ensures { IsTrue result ↔ (live_at (slice_get (nodes_of self.now) n) ≡ []) }
    {
        self.nodes[n].is_idle()
    }

    /// How many nodes there are.
    pub fn len(&self) -> usize
        ensures { result ≡ length self.now }
    {
        self.nodes.len()
    }

    /// Copies bytes of a region that is on a node, from `at` on.
    pub fn read(&self, n: usize, region: u16, at: usize, out: &mut [u8])
        requires here { n < length self.now }
        requires holds { HoldsAt self.now n region at (length out.old) }
        ensures { ReadsAt self.now n region at out.new }
    {
        self.nodes[n].read_region(region, at, out)
    }

    /// The nodes, as they are.
    pub fn into_vec(self) -> Vec<N>
        ensures { map (λ n. record { part = N.state n; rest = N.rest n; plain = N.plain n }) result.items ≡ self }
    {
        let Nodes { nodes } = self;
        nodes
    }
}
