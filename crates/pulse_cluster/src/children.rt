// The children of a cluster.

ghost use Rattle.std.specs.Prelude.{◌≡◌, ◌≢◌, ◌+◌, ◌⊎◌, [], length, map, IfOk, IfErr, OnOk};
ghost use Rattle.std.specs.String.{string_bytes};
ghost use Rattle.pulse_base.specs.Outside.{Rose};
ghost use Rattle.pulse_cluster.specs.Cluster.{FamilyGrew, child_words, node_words, starts, switch_words};
ghost use Rattle.pulse_cluster.specs.inner.Starting.{StartsOne};

use pulse_base::{Failed, Kid, Memory, Spawner};
use pulse_process::ProcessFault;
use std::alloc::Global;

// The words of a child that is node n.
fn node_words(alloc: Global, n: u16, turns: u64) -> Result<Vec<String>, Memory>
    ensures { IfOk result (λ words. map string_bytes words.items ≡ node_words n turns) }
{
    let mut words = Vec::new(alloc);
    words.push(String::from_str(alloc, "node")?)?;
    words.push(format!(in alloc; "{n}")?)?;
    words.push(format!(in alloc; "{turns}")?)?;
    Ok(words)
}

// The words of a child that is the switch.
fn switch_words(alloc: Global, turns: u64) -> Result<Vec<String>, Memory>
    ensures { IfOk result (λ words. map string_bytes words.items ≡ switch_words turns) }
{
    let mut words = Vec::new(alloc);
    words.push(String::from_str(alloc, "switch")?)?;
    words.push(format!(in alloc; "{turns}")?)?;
    Ok(words)
}

// Starts a child and puts it after the others.
fn start<S: Spawner>(
    kids: &mut S,
    words: &[String],
    text: &[u8],
    started: &mut Vec<Kid>,
) -> Result<(), ProcessFault>
    ensures started { OnOk result (StartsOne (S.family kids.old) (S.family kids.new) (map string_bytes words.now) text.now started.old.items started.new.items) }
    ensures child { result ≡ Err ProcessFault.Child → Rose (S.faults kids.old) (S.faults kids.new) }
    ensures kept { result ≢ Err ProcessFault.Child → S.faults kids.new ≡ S.faults kids.old }
    ensures fault { IfErr result (λ f. (f ≡ ProcessFault.Child) ⊎ (f ≡ ProcessFault.Memory)) }
{
    match kids.start(words, text) {
        Ok(kid) => match started.push(kid) {
            Ok(()) => Ok(()),
            Err(_) => Err(ProcessFault::Memory),
        },
        Err(Failed) => Err(ProcessFault::Child),
    }
}

/// Starts the nodes in order and then the switch, each with a text as its input, and gives them in this order.
pub(crate) fn start_all<S: Spawner>(
    alloc: Global,
    kids: &mut S,
    text: &[u8],
    nodes: u16,
    turns: u64,
) -> Result<Vec<Kid>, ProcessFault>
    ensures started { IfOk result (λ started. FamilyGrew (S.family kids.old) (S.family kids.new) (starts text.now (child_words turns 0 nodes) started.items) []) }
    ensures all { IfOk result (λ started. length started.items ≡ nodes + 1) }
    ensures child { result ≡ Err ProcessFault.Child → Rose (S.faults kids.old) (S.faults kids.new) }
    ensures kept { result ≢ Err ProcessFault.Child → S.faults kids.new ≡ S.faults kids.old }
    ensures fault { IfErr result (λ f. (f ≡ ProcessFault.Child) ⊎ (f ≡ ProcessFault.Memory)) }
{
    let mut started = Vec::new(alloc);
    'nodes: for n in 0..nodes {
        let words = node_words(alloc, n, turns)?;
        start(kids, words.as_slice(), text, &mut started)?;
    }
    let words = switch_words(alloc, turns)?;
    start(kids, words.as_slice(), text, &mut started)?;
    Ok(started)
}

/// Waits for children, in their order. What they ended with is passed over.
pub(crate) fn wait_all<S: Spawner>(kids: &mut S, started: Vec<Kid>) -> Result<(), ProcessFault>
    ensures waited { OnOk result (FamilyGrew (S.family kids.old) (S.family kids.new) [] started.items) }
    ensures child { result ≡ Err ProcessFault.Child → Rose (S.faults kids.old) (S.faults kids.new) }
    ensures kept { result ≢ Err ProcessFault.Child → S.faults kids.new ≡ S.faults kids.old }
    ensures fault { IfErr result (λ f. f ≡ ProcessFault.Child) }
{
    'kids: for kid in started {
        match kids.wait(kid) {
            Ok(_) => {}
            Err(Failed) => return Err(ProcessFault::Child),
        }
    }
    Ok(())
}
