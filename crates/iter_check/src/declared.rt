// Names that are declared in a list: no two are the same, and there are at most so many.

ghost use Rattle.std.specs.Prelude.{◌≡◌, [], find, bytes_eq, option_map};
ghost use Rattle.iter_syntax.specs.declared.tree.Word.{Word};
ghost use Rattle.iter_check.specs.Layout.{text};
ghost use Rattle.iter_check.specs.FaultList as fl;
ghost use Rattle.iter_check.specs.First.Least.{note, least};
ghost use Rattle.iter_check.specs.First.Decl as first;

use crate::best::note;
use crate::kind::{CheckKind, Fault};
use iter_syntax::{Arg, FieldDecl, Iter, RecordDecl, Word};

/// What is declared under a name.
pub(crate) trait Declared {
    ghost word: { Self → Word };

    fn name(&self) -> &Word
        ensures { result.now ≡ word self.now };
}

impl Declared for FieldDecl {
    ghost word = { λ f. f.name };

    fn name(&self) -> &Word {
        &self.name
    }
}

impl Declared for RecordDecl {
    ghost word = { λ r. r.name };

    fn name(&self) -> &Word {
        &self.name
    }
}

impl Declared for Iter {
    ghost word = { λ it. it.name };

    fn name(&self) -> &Word {
        &self.name
    }
}

impl Declared for Arg {
    ghost word = { λ a. a.name };

    fn name(&self) -> &Word {
        &self.name
    }
}

fn same_text(a: &Word, b: &Word) -> bool
    ensures { result ≡ bytes_eq (text a.now) (text b.now) }
{
    a.text.as_slice() == b.text.as_slice()
}

// The first of these that a word is the name of.
fn first_named<'a, T: Declared>(items: &'a [T], word: &Word) -> Option<&'a T>
    ensures { option_map (λ x. x.now) result ≡ find (λ x. bytes_eq (text (T.word x)) (text word.now)) items.now }
{
    items.iter().find(|x| same_text(x.name(), word))
}

// Whether a word is the name of one of these.
fn names_one<T: Declared>(items: &[T], word: &Word) -> bool
    ensures { result ≡ fl.names_one T.word items.now word.now }
{
    first_named(items, word).is_some()
}

fn note_again<T: Declared>(best: &mut Option<Fault>, earlier: &[T], word: &Word)
    ensures { best.new ≡ note CheckKind.Name (word.now).place (fl.names_one T.word earlier.now word.now) best.old }
{
    note(best, CheckKind::Name, word.place, names_one(earlier, word));
}

/// The names that are those of earlier ones. Each is compared with all before it.
pub(crate) fn check_names<T: Declared>(best: &mut Option<Fault>, items: &[T])
    ensures { best.new ≡ first.first_twice T.word [] items.now best.old }
{
    let mut at = 0;
    'items: while at < items.len() {
        note_again(best, &items[..at], items[at].name());
        at += 1;
    }
}

/// The names, of which there are at most so many.
pub(crate) fn check_list<T: Declared>(
    best: &mut Option<Fault>,
    kind: CheckKind,
    most: usize,
    items: &[T],
)
    ensures { best.new ≡ first.first_names kind most T.word items.now best.old }
{
    check_names(best, items);
    if most < items.len() {
        note(best, kind, items[most].name().place, true);
    }
}
