// Making a node.

ghost use Rattle.std.specs.Prelude.{◌≡◌, ◌≤◌, map, IfOk};
ghost use Rattle.run_rules.specs.Node.{spans_of};
ghost use Rattle.node_core.specs.Part.{IsRegions, new_part};
ghost use Rattle.node_core.specs.inner.View.{held_view};

use super::Node;
use crate::held::Held;
use code_image::Images;
use leg_ledger::Ledger;
use pulse_base::Memory;
use range_table::{Regions, Table};
use run_rules::{NodeRegion, NodeRegions};
use std::alloc::Global;
use std::collections::VecDeque;

// Where the regions lie.
fn spans_of(alloc: Global, regions: &[NodeRegion]) -> Result<Regions, Memory>
    ensures { IfOk result (λ spans. spans ≡ spans_of regions.now) }
{
    let mut spans = Regions::new(alloc);
    for region in regions {
        spans.push(region.span)?;
    }
    Ok(spans)
}

// The regions, with their bytes as they are.
fn held_of(alloc: Global, regions: NodeRegions) -> Result<Vec<Held>, Memory>
    ensures { IfOk result (λ held. map held_view held.items ≡ regions) }
{
    let mut held = Vec::new(alloc);
    for region in regions.into_vec() {
        let NodeRegion {
            number,
            span,
            bytes,
        } = region;
        held.push(Held {
            number,
            span,
            bytes: bytes.into_vec(),
        })?;
    }
    Ok(held)
}

impl Node {
    /// A node of these regions, for the programs of these images, with so many slots. Nothing is kept or live. Want of
    /// memory is its only refusal.
    pub fn make(
        alloc: Global,
        regions: NodeRegions,
        images: Images,
        slots: u32,
    ) -> Result<Node, Memory>
        requires regions { IsRegions regions }
        requires some { 1 ≤ slots }
        requires slots { slots ≤ 64 }
        ensures { IfOk result (λ n. n ≡ new_part regions images slots) }
    {
        let spans = spans_of(alloc, regions.as_slice())?;
        let live = VecDeque::with_capacity(alloc, slots as usize)?;
        match Table::new(spans) {
            Err(_) => unreachable!(),
            Ok(table) => Ok(Node {
                regions: held_of(alloc, regions)?,
                table,
                images,
                slots,
                ledger: Ledger::make(alloc),
                live,
            }),
        }
    }
}
