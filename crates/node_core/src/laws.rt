// A law of all parts: what `run_rules` proves of waiting holds of them.

ghost use Rattle.node_core.specs.Part.{PartState, IsPart};
ghost use Rattle.run_rules.specs.Waiting.{IsOrderly};

/// At every moment a part's node is orderly. So the laws of `run_rules` on waiting speak of it: a leg that [`Node`]
/// started with b iterations left, on W slots, is no longer live after b × W turns, and its back is then kept.
///
/// [`Node`]: crate::Node
pub fn law_parts_are_orderly()
    ensures { (p : PartState) → IsPart p → IsOrderly p.node }
{}
