// The names in scope.

ghost use Rattle.std.specs.Prelude.{◌≡◌, ◌-◌, ◌≤◌, [], ◌∷◌, length, drop, OnOk, OnErr};
ghost use Rattle.iter_check.specs.Layout.{text};
ghost use Rattle.iter_check.specs.State.{look, change};
ghost use Rattle.iter_check.specs.Views.NamesView.{place_in};

use iter_syntax::Word;
use pulse_base::{Bytes, Listed, Memory};
use std::alloc::Global;
use std::marker::Model;

// A name with its value.
#[derive(Debug, Drop)]
struct Name {
    text: Bytes,
    value: u64,
}

/// The arguments, lets and loop variables in scope, the newest first. Contracts see a list of names
/// with their values.
#[derive(Debug, Drop)]
pub struct Names {
    names: Vec<Name>,
}

impl Model for Names {
    ghost use Rattle.std.specs.Prelude.{ℕ, List};
    ghost use Rattle.std.specs.Coded.{coded_list, coded_ℕ, coded×};

    ghost Value = { List (List ℕ × ℕ) };

    ghost coded = { coded_list (coded× (coded_list coded_ℕ) coded_ℕ) };

    ghost use Rattle.iter_check.specs.Views.NamesView.{names_view};

    ghost view = { names_view };
}

// The place of the newest of a name, or the number of names where there is none.
fn place(names: &[Name], word: &Word) -> usize
    ensures found { result ≡ place_in (text word.now) names.now }
    ensures within { result ≤ length names.now }
{
    for (i, name) in names.iter().enumerate() {
        if name.text.as_slice() == word.text.as_slice() {
            return i;
        }
    }
    names.len()
}

impl Names {
    pub fn new(alloc: Global) -> Names
        ensures { result ≡ [] }
    {
        Names {
            names: Vec::new(alloc),
        }
    }

    pub fn len(&self) -> usize
        ensures { result ≡ length self.now }
    {
        self.names.len()
    }

    /// The value of the newest of a name, and 0 where there is none.
    pub fn look(&self, word: &Word) -> u64
        ensures { result ≡ look (text word.now) self.now }
    {
        let at = place(&self.names, word);
        if at < self.names.len() {
            self.names[at].value
        } else {
            0
        }
    }

    /// Brings a name in scope, or changes nothing.
    pub fn declare(&mut self, alloc: Global, word: &Word, value: u64) -> Result<(), Memory>
        ensures ok { OnOk result (self.new ≡ (text word.now, value) ∷ self.old) }
        ensures err { OnErr result (self.new ≡ self.old) }
    {
        let mut text = Listed::new(alloc);
        text.append(word.text.as_slice())?;
        match self.names.insert(0, Name { text, value }) {
            Ok(()) => Ok(()),
            Err(_) => Err(Memory),
        }
    }

    /// Gives the newest of a name another value. Where there is none, nothing changes.
    pub fn change(&mut self, word: &Word, value: u64)
        ensures { self.new ≡ change (text word.now) value self.old }
    {
        let at = place(&self.names, word);
        if at < self.names.len() {
            self.names[at].value = value;
        }
    }

    /// Leaves the oldest names, as many as `len`.
    pub fn keep_oldest(&mut self, len: usize)
        ensures { self.new ≡ drop (length self.old - len) self.old }
    {
        'shed: while self.names.len() > len {
            self.names.remove(0);
        }
    }
}
