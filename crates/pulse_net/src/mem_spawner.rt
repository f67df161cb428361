// A spawner in memory.

ghost use Rattle.std.specs.Prelude.{◌≡◌, ◌<◌, ◌↔◌, Ok, Some, All, map, get_or, length, IfOk, IsErr, IsTrue, Contains};
ghost use Rattle.std.specs.String.{string_bytes};
ghost use Rattle.pulse_base.specs.Outside.{HasCause};
ghost use Rattle.pulse_base.specs.Spawner.{Starts, Waits};
ghost use Rattle.pulse_net.specs.Spawners.{new_spawner, start_of, IsStatus, Counted};

use crate::start::Start;
use pulse_base::{Bytes, Failed, Kid, Listed, Memory, Numbers, Spawner};
use std::alloc::Global;
use std::marker::Model;

/// A spawner that starts nothing and records each call that does not fail. Chosen calls fail, and so does one that there
/// is no memory to record.
#[derive(Debug, Drop)]
pub struct MemSpawner {
    alloc: Global,
    statuses: Numbers,
    started: Listed<Start>,
    waited: Numbers,
    fails: Numbers,
    calls: u64,
    faults: u64,
}

impl Model for MemSpawner {
    ghost use Rattle.std.specs.Prelude.{All};
    ghost use Rattle.pulse_net.specs.Spawners.{SpawnerState, family_of, IsStatus};

    ghost Value = { SpawnerState };

    ghost view = { λ s. record { family = family_of s.started s.waited; statuses = s.statuses; fails = s.fails; calls = s.calls; faults = s.faults } };

    ghost invariant = { λ s. All IsStatus s.statuses };
}

fn copy_words(alloc: Global, words: &[String]) -> Result<Listed<Bytes>, Memory>
    ensures { IfOk result (λ copies. copies ≡ map string_bytes words.now) }
{
    let mut copies = Listed::new(alloc);
    let mut at = 0;
    'words: while at < words.len() {
        let copy = Bytes::from_slice(alloc, words[at].as_bytes())?;
        copies.push(copy)?;
        at += 1;
    }
    Ok(copies)
}

fn record_start(alloc: Global, words: &[String], input: &[u8], kid: u32) -> Result<Start, Memory>
    ensures { IfOk result (λ s. start_of s ≡ record { words = map string_bytes words.now; input = input.now; kid = kid }) }
{
    let words = copy_words(alloc, words)?;
    let input = Bytes::from_slice(alloc, input)?;
    Ok(Start { words, input, kid })
}

// The status at a place, or 0 past the last.
fn status_at(statuses: &Numbers, at: usize) -> u8
    requires { All IsStatus statuses.now }
    ensures { result ≡ get_or statuses.now at 0 }
{
    if at < statuses.len() {
        *statuses.get(at) as u8
    } else {
        0
    }
}

impl MemSpawner {
    /// A spawner whose children end with these statuses, each below 256, in the order of the waits, and then with 0. The
    /// calls whose numbers `fails` holds fail, the first call having the number 0.
    pub fn make(alloc: Global, statuses: Numbers, fails: Numbers) -> MemSpawner
        requires { All IsStatus statuses }
        ensures { result ≡ new_spawner statuses fails }
    {
        MemSpawner {
            alloc,
            statuses,
            started: Listed::new(alloc),
            waited: Numbers::new(alloc),
            fails,
            calls: 0,
            faults: 0,
        }
    }

    /// The children started so far.
    pub fn started(&self) -> &[Start]
        ensures { map start_of result.now ≡ self.now.family.started }
    {
        self.started.as_slice()
    }

    /// The numbers of those waited for so far.
    pub fn waited(&self) -> &[u32]
        ensures { result.now ≡ self.now.family.waited }
    {
        self.waited.as_slice()
    }

    // Whether the call that is to come is to fail.
    fn is_to_fail(&self) -> bool
        ensures { IsTrue result ↔ Contains self.now.fails self.now.calls }
    {
        let call = self.calls;
        self.fails.as_slice().iter().any(|n| u64::from(*n) == call)
    }

    // Counts a call that did what it was asked.
    fn succeed<T>(&mut self, answer: T) -> Result<T, Failed>
        ensures result { result ≡ Ok answer }
        ensures counts { Counted self.old self.new result }
        ensures family { self.new.family ≡ self.old.family }
    {
        self.calls = self.calls.saturating_add(1);
        Ok(answer)
    }

    // Counts a call that failed.
    fn fail<T>(&mut self) -> Result<T, Failed>
        ensures result { IsErr result }
        ensures counts { Counted self.old self.new result }
        ensures cause { HasCause self.old.faults self.new.faults result }
    {
        self.calls = self.calls.saturating_add(1);
        self.faults = self.faults.saturating_add(1);
        Err(Failed)
    }
}

impl Spawner for MemSpawner {
    ghost family = { λ s. Some s.family };

    ghost faults = { λ s. s.faults };

    fn start(&mut self, words: &[String], input: &[u8]) -> Result<Kid, Failed>
        ensures family { Starts (Some self.old.family) (Some self.new.family) (map string_bytes words.now) input.now result }
        ensures cause { HasCause self.old.faults self.new.faults result }
        ensures fails { Contains self.old.fails self.old.calls → IsErr result }
        ensures counts { Counted self.old self.new result }
    {
        let number = u32::try_from(self.started.len()).unwrap_or(u32::MAX);
        if !self.is_to_fail() {
            if let Ok(start) = record_start(self.alloc, words, input, number) {
                if let Ok(()) = self.started.push(start) {
                    return self.succeed(Kid::of(number));
                }
            }
        }
        self.fail()
    }

    fn wait(&mut self, kid: Kid) -> Result<u8, Failed>
        ensures family { Waits (Some self.old.family) (Some self.new.family) kid result }
        ensures cause { HasCause self.old.faults self.new.faults result }
        ensures fails { Contains self.old.fails self.old.calls → IsErr result }
        ensures counts { Counted self.old self.new result }
        ensures status { IfOk result (λ status. status ≡ get_or self.old.statuses (length self.old.family.waited) 0) }
    {
        let at = self.waited.len();
        if !self.is_to_fail() {
            if let Ok(()) = self.waited.push(kid.number()) {
                let status = status_at(&self.statuses, at);
                return self.succeed(status);
            }
        }
        self.fail()
    }
}
