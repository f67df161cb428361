// The names in scope, and the fields of a record or a pad.

ghost use Rattle.std.specs.Prelude.{◌≡◌, length, take, option_map, nat_le, OnOk};
ghost use Rattle.iter_check.specs.Scope as sc;
ghost use Rattle.iter_check.specs.Scoping.{lets};

use crate::sort::Sort;
use iter_syntax::{FieldDecl, Word};
use pulse_base::{Bytes, Listed, Memory};
use std::alloc::Global;

/// A name in scope, with its type where it has one.
#[derive(Debug, Drop)]
pub struct Binding {
    pub text: Bytes,
    pub sort: Option<Sort>,
    pub is_let: bool,
}

/// The names in scope, the oldest first.
pub(crate) type Scope = Vec<Binding>;

/// What a name is bound to, where it is in scope.
pub(crate) fn bound<'a>(scope: &'a [Binding], name: &Word) -> Option<&'a Binding>
    ensures { option_map (λ b. b.now) result ≡ sc.bound scope.now name.now }
{
    scope
        .iter()
        .find(|b| b.text.as_slice() == name.text.as_slice())
}

/// The declaration of a field, where there is one.
pub(crate) fn declared_field<'a>(fields: &'a [FieldDecl], name: &Word) -> Option<&'a FieldDecl>
    ensures { option_map (λ f. f.now) result ≡ sc.declared_field fields.now name.now }
{
    fields
        .iter()
        .find(|f| f.name.text.as_slice() == name.text.as_slice())
}

/// Brings a name in scope.
pub(crate) fn declare(
    alloc: Global,
    scope: &mut Scope,
    name: &Word,
    sort: Option<Sort>,
    is_let: bool,
) -> Result<(), Memory>
    ensures { OnOk result (scope.new.items ≡ sc.bind name.now sort is_let scope.old.items) }
{
    let mut text = Listed::new(alloc);
    text.append(name.text.as_slice())?;
    match scope.push(Binding { text, sort, is_let }) {
        Ok(()) => Ok(()),
        Err(_) => Err(Memory),
    }
}

/// Leaves the oldest names, as many as `len`.
pub(crate) fn keep_oldest(scope: &mut Scope, len: usize)
    ensures { scope.new.items ≡ take len scope.old.items }
{
    scope.truncate(len);
}

/// Whether so many lets are in scope that there may be no other.
pub(crate) fn is_full(scope: &[Binding]) -> bool
    ensures { result ≡ nat_le 8 (lets scope.now) }
{
    scope.iter().filter(|b| b.is_let).count() >= 8
}

pub(crate) fn how_many(scope: &Scope) -> usize
    ensures { result ≡ length scope.now.items }
{
    scope.len()
}
