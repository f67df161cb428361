// Makers of nodes, which take them back.

ghost use Rattle.std.specs.Prelude.{◌≡◌, ◌≤◌, ◌++◌, ◌∷◌, [], IfOk, OnOk, OnErr, IsTrue, option_map};
ghost use Rattle.node_core.specs.Part.{IsRegions, new_part};

use crate::node::Node;
use crate::part::NodePart;
use code_image::Images;
use pulse_base::Memory;
use run_rules::NodeRegions;
use std::alloc::Global;
use std::marker::Model;

/// What makes the nodes of a run, and takes each back with its state.
pub trait Yard {
    ghost use Rattle.std.specs.Prelude.{List, Option};
    ghost use Rattle.node_core.specs.Part.{PartState};

    type Part: NodePart;

    /// The states of the parts that were given back, in order, where the yard tells them.
    ghost returned: { Self → Option (List PartState) };

    /// A new part of these regions, for the programs of these images, with so many slots. It is plain, and nothing is
    /// kept or live. Want of memory is the only refusal.
    fn make_part(
        &mut self,
        regions: NodeRegions,
        images: Images,
        slots: u32,
    ) -> Result<Self::Part, Memory>
        requires regions { IsRegions regions }
        requires some { 1 ≤ slots }
        requires slots { slots ≤ 64 }
        ensures made { IfOk result (λ p. Self.Part.state p ≡ new_part regions images slots) }
        ensures plain { IfOk result (λ p. IsTrue (Self.Part.plain p)) }
        ensures returned { returned self.new ≡ returned self.old };

    /// Takes a part back. After Memory the part is gone.
    fn give_back(&mut self, part: Self::Part) -> Result<(), Memory>
        ensures ok { OnOk result (returned self.new ≡ option_map (λ parts. parts ++ Self.Part.state part ∷ []) (returned self.old)) }
        ensures err { OnErr result (returned self.new ≡ returned self.old) };
}

/// A yard that keeps the nodes that it was given back. Contracts see their states.
#[derive(Drop)]
pub struct MemYard {
    alloc: Global,
    parts: Vec<Node>,
}

impl Model for MemYard {
    ghost use Rattle.std.specs.Prelude.{List};
    ghost use Rattle.std.specs.Coded.{coded_list};
    ghost use Rattle.node_core.specs.Part.{PartState};
    ghost use Rattle.node_core.specs.contracts.node.Node.{the_row as node_row};

    ghost Value = { List PartState };

    ghost coded = { coded_list node_row.coded };

    ghost view = { λ y. y.parts.items };
}

impl MemYard {
    /// A yard without parts, which takes no memory.
    pub fn new(alloc: Global) -> MemYard
        ensures { result ≡ [] }
    {
        MemYard {
            alloc,
            parts: Vec::new(alloc),
        }
    }

    /// The nodes that were given back, in that order and each in its state.
    pub fn parts(self) -> Vec<Node>
        ensures { result.items ≡ self }
    {
        let MemYard { alloc: _, parts } = self;
        parts
    }
}

impl Yard for MemYard {
    ghost use Rattle.std.specs.Prelude.{Some};

    type Part = Node;

    ghost returned = { λ y. Some y };

    fn make_part(
        &mut self,
        regions: NodeRegions,
        images: Images,
        slots: u32,
    ) -> Result<Node, Memory> {
        Node::make(self.alloc, regions, images, slots)
    }

    fn give_back(&mut self, part: Node) -> Result<(), Memory> {
        match self.parts.push(part) {
            Ok(()) => Ok(()),
            Err(_) => Err(Memory),
        }
    }
}

/// A yard that lets go of the nodes that it is given back.
#[derive(Drop)]
pub struct NodeYard {
    alloc: Global,
}

impl NodeYard {
    /// Takes no memory.
    pub fn new(alloc: Global) -> NodeYard {
        NodeYard { alloc }
    }
}

impl Yard for NodeYard {
    ghost use Rattle.std.specs.Prelude.{None};

    type Part = Node;

    ghost returned = { λ y. None };

    fn make_part(
        &mut self,
        regions: NodeRegions,
        images: Images,
        slots: u32,
    ) -> Result<Node, Memory> {
        Node::make(self.alloc, regions, images, slots)
    }

    fn give_back(&mut self, _part: Node) -> Result<(), Memory> {
        Ok(())
    }
}
