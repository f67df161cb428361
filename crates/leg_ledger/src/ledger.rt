// The ledger: the legs that were entered, and their replies.

ghost use Rattle.std.specs.Prelude.{◌≡◌, ◌↔◌, None, IsSome, IsTrue, OnOk, OnErr, option_copied};
ghost use Rattle.std.specs.FinMap as map;
ghost use Rattle.leg_ledger.specs.Legs.{Enters, KeepsReplies, ended, kept_reply, running_region};

use crate::leg::{LegKey, LegState, Reply};
use frame_codec::Back;
use indexmap::IndexMap;
use pulse_base::Memory;
use std::alloc::Global;
use std::marker::Model;

/// What became of a key that was to be entered.
#[derive(Clone, Copy, Debug, PartialEq, Eq)]
pub enum Entering {
    /// It is entered now, and runs.
    Entered,
    /// It was entered before and has no reply yet.
    Running,
    /// Its reply is kept.
    Kept,
    /// There was no memory to enter it.
    Memory,
}

/// The legs that were entered, each with its region and, once it ended, its reply. Contracts see the map
/// from keys to what is known of each leg. A call costs one or two look-ups in a hash map, however many
/// replies are kept; of all calls `enter` alone takes memory.
#[derive(Drop)]
pub struct Ledger {
    legs: IndexMap<LegKey, LegState>,
}

impl Model for Ledger {
    ghost use Rattle.leg_ledger.specs.Legs.{Legs, key_cmp};
    ghost use Rattle.std.specs.FinMap as map;
    ghost use Rattle.leg_ledger.specs.contracts.leg.LegKey.{the_row as key_row};
    ghost use Rattle.leg_ledger.specs.contracts.leg.LegState.{the_row as state_row};

    ghost Value = { Legs };

    ghost coded = { map.code key_row.coded state_row.coded };

    ghost view = { λ l. map.from_entries l.legs.entries };
}

impl Ledger {
    /// A ledger that no key was entered in, which takes no memory.
    pub fn make(alloc: Global) -> Ledger
        ensures { result ≡ map.empty }
    {
        Ledger {
            legs: IndexMap::new(alloc),
        }
    }

    // What is known of a key.
    fn state(&self, key: LegKey) -> Option<&LegState>
        ensures { option_copied result ≡ map.get self.now key }
    {
        self.legs.get(&key)
    }

    // Notes what is known of a new key, or changes nothing.
    fn add(&mut self, key: LegKey, state: LegState) -> Result<(), Memory>
        requires { map.get self.old key ≡ None }
        ensures ok { OnOk result (self.new ≡ map.insert self.old key state) }
        ensures err { OnErr result (self.new ≡ self.old) }
    {
        match self.legs.insert(key, state) {
            Ok(_) => Ok(()),
            Err(_) => Err(Memory),
        }
    }

    // Notes what is known now of an entered key.
    fn change(&mut self, key: LegKey, state: LegState)
        requires { IsSome (map.get self.old key) }
        ensures { self.new ≡ map.insert self.old key state }
    {
        if let Some(place) = self.legs.get_mut(&key) {
            *place = state;
        }
    }

    /// Enters a leg that is started at a region, unless its key was entered before.
    pub fn enter(&mut self, key: LegKey, region: u16) -> Entering
        ensures enters { Enters result self.old self.new key region }
        ensures kept { (result ≡ Entering.Kept) ↔ IsSome (kept_reply self.old key) }
        ensures running { (result ≡ Entering.Running) ↔ IsSome (running_region self.old key) }
        ensures keeps { KeepsReplies self.old self.new }
    {
        match self.state(key) {
            Some(LegState::Started(_)) => return Entering::Running,
            Some(LegState::Ended(_)) => return Entering::Kept,
            None => {}
        }
        match self.add(key, LegState::Started(region)) {
            Ok(()) => Entering::Entered,
            Err(Memory) => Entering::Memory,
        }
    }

    /// Ends a leg that runs. Its reply, with the region of its `enter`, is kept from then on.
    pub fn finish(&mut self, key: LegKey, back: Back)
        requires { IsSome (running_region self.old key) }
        ensures ends { self.new ≡ ended self.old key back }
        ensures keeps { KeepsReplies self.old self.new }
    {
        if let Some(LegState::Started(region)) = self.state(key) {
            let region = *region;
            self.change(key, LegState::Ended(Reply { back, region }));
        }
    }

    /// The reply that is kept of a key.
    pub fn kept(&self, key: LegKey) -> Option<&Reply>
        ensures { option_copied result ≡ kept_reply self.now key }
    {
        match self.state(key) {
            Some(LegState::Ended(reply)) => Some(reply),
            _ => None,
        }
    }

    /// Whether a key is entered and has no reply.
    pub fn running(&self, key: LegKey) -> bool
        ensures { IsTrue result ↔ IsSome (running_region self.now key) }
    {
        matches!(self.state(key), Some(LegState::Started(_)))
    }
}
