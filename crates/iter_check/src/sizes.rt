// The sizes of records and pads, counted up to 257 bytes.

ghost use Rattle.std.specs.Prelude.{◌≡◌, ◌≤◌, find, option_map, is_some, min};
ghost use Rattle.iter_check.specs.Layout.{size_of};
ghost use Rattle.iter_check.specs.Accepted.{IsSize};
ghost use Rattle.iter_check.specs.FaultList as fl;
ghost use Rattle.iter_check.specs.First.Decl as first;

use crate::best::note;
use crate::declared::check_names;
use crate::fields::size_of;
use crate::kind::{CheckKind, Fault};
use iter_syntax::{FieldDecl, Word};

/// One more than the most bytes of a record or a pad.
const TOO_LARGE: u32 = 257;

/// The bytes of these fields together, or 257 where there are more than 256.
pub(crate) fn size_up_to(fields: &[FieldDecl]) -> u32
    ensures same { result ≡ min (size_of fields.now) 257 }
    ensures bound { result ≤ 257 }
{
    match size_of(fields) {
        None => TOO_LARGE,
        Some(bytes) => if bytes < 257 { bytes as u32 } else { TOO_LARGE },
    }
}

fn is_zero(len: Option<u64>) -> bool
    ensures { result ≡ fl.is_zero len }
{
    match len {
        None => false,
        Some(n) => n == 0,
    }
}

fn first_empty(fields: &[FieldDecl]) -> Option<&FieldDecl>
    ensures { option_map (λ f. f.now) result ≡ find (λ f. fl.is_zero f.len) fields.now }
{
    fields.iter().find(|f| is_zero(f.len))
}

fn has_empty(fields: &[FieldDecl]) -> bool
    ensures { result ≡ is_some (find (λ f. fl.is_zero f.len) fields.now) }
{
    first_empty(fields).is_some()
}

fn no_fields(fields: &[FieldDecl]) -> bool
    ensures { result ≡ fl.no_fields fields.now }
{
    fields.is_empty()
}

fn bad_size(fields: &[FieldDecl]) -> bool
    ensures { result ≡ fl.bad_size fields.now }
{
    no_fields(fields) || (has_empty(fields) || size_up_to(fields) > 256)
}

/// The faults of the fields of a record or a pad.
pub(crate) fn check_fields(
    best: &mut Option<Fault>,
    kind: CheckKind,
    owner: &Word,
    fields: &[FieldDecl],
)
    ensures { best.new ≡ first.first_fields kind owner.now fields.now best.old }
{
    check_names(best, fields);
    note(best, kind, owner.place, bad_size(fields));
}

/// The bytes of the fields of an accepted record or pad.
pub(crate) fn bytes_of(fields: &[FieldDecl]) -> u16
    requires { IsSize (size_of fields.now) }
    ensures { result ≡ size_of fields.now }
{
    size_up_to(fields) as u16
}
