// The names in scope.

ghost use Rattle.std.specs.Prelude.{◌≡◌, ◌-◌, [], ◌∷◌, length, drop, option_map, OnOk};
ghost use Rattle.iter_check.specs.Layout.{text};
ghost use Rattle.iter_unroll.specs.unrolling.Scope as t;
ghost use Rattle.iter_unroll.specs.unrolling.Flattened as f;
ghost use Rattle.iter_unroll.specs.unrolling.Views.{env_of};

use iter_syntax::Word;
use pulse_base::Memory;
use std::alloc::Global;

/// What a name in scope stands for in straight code: the slot of a let, the number of a loop variable
/// in its turn, or the number of an argument.
#[derive(Clone, Copy, Debug, PartialEq, Eq)]
pub enum Meant {
    Slot(u8),
    Number(u64),
    Argument(u8),
}

/// A name with what it stands for.
#[derive(Clone, Copy, Debug)]
pub struct Entry<'a> {
    pub word: &'a Word,
    pub meant: Meant,
}

/// The names in scope, the oldest first, and how many of them are lets.
#[derive(Debug, Drop)]
pub struct Scope<'a> {
    pub entries: Vec<Entry<'a>>,
    pub lets: u8,
}

impl<'a> Scope<'a> {
    /// No names.
    pub fn new(alloc: Global) -> Scope<'a>
        ensures env { env_of result.entries.items ≡ [] }
        ensures lets { result.lets ≡ 0 }
    {
        Scope {
            entries: Vec::new(alloc),
            lets: 0,
        }
    }

    /// How many names are in scope.
    pub fn len(&self) -> usize
        ensures { result ≡ length self.now.entries.items }
    {
        self.entries.len()
    }

    /// Brings a name in scope.
    #[tactic(auto, using(crate::proofs::unrolling::Scopes::env_push))]
    pub fn declare(&mut self, word: &'a Word, meant: Meant) -> Result<(), Memory>
        ensures ok { OnOk result (env_of self.new.entries.items ≡ (text word.now, meant) ∷ env_of self.old.entries.items) }
        ensures lets { self.new.lets ≡ self.old.lets }
    {
        match self.entries.push(Entry { word, meant }) {
            Ok(()) => Ok(()),
            Err(_) => Err(Memory),
        }
    }

    /// Leaves the oldest names, as many as `len`, of which `lets` are lets.
    #[tactic(auto, using(crate::proofs::unrolling::Scopes::env_cut))]
    pub fn leave(&mut self, len: usize, lets: u8)
        ensures env { env_of self.new.entries.items ≡ drop (length self.old.entries.items - len) (env_of self.old.entries.items) }
        ensures lets { self.new.lets ≡ lets }
    {
        self.entries.truncate(len);
        self.lets = lets;
    }
}

/// What the newest of a name stands for.
pub fn find(entries: &[Entry], word: &Word) -> Option<Meant>
    ensures { result ≡ t.lookup (text word.now) (env_of entries.now) }
{
    let mut at = entries.len();
    'entries: while at > 0 {
        at -= 1;
        let entry = &entries[at];
        if entry.word.text.as_slice() == word.text.as_slice() {
            return Some(entry.meant);
        }
    }
    None
}

/// The slot of a let in scope.
pub fn let_slot(entries: &[Entry], word: &Word) -> Option<u8>
    ensures { result ≡ f.let_slot (t.lookup (text word.now) (env_of entries.now)) }
{
    match find(entries, word) {
        None => None,
        Some(Meant::Slot(slot)) => Some(slot),
        Some(Meant::Number(_)) => None,
        Some(Meant::Argument(_)) => None,
    }
}
