// What a request asks.

ghost use Rattle.std.specs.Prelude.{◌≡◌, ◌≢◌, ◌≤◌, ◌↔◌, None, IfSome};
ghost use Rattle.iter_check.specs.Layout as l;

use iter_check::size_of;
use iter_syntax::{FieldDecl, Iter};

/// A request as it is asked: an iterator, the fields of the record that it is on, and its arguments. The
/// iterator's pad has 1 to 256 bytes, as that of every accepted program.
#[derive(Clone, Copy)]
pub struct FlatWalk<'a> {
    pub fields: &'a [FieldDecl],
    pub iter: &'a Iter,
    pub args: &'a [u64],
    pub ghost some: { 1 ≤ l.size_of iter.now.pad },
    pub ghost fit: { l.size_of iter.now.pad ≤ 256 },
}

impl<'a> FlatWalk<'a> {
    /// The walk, or none where the iterator's pad does not have 1 to 256 bytes.
    pub fn of(fields: &'a [FieldDecl], iter: &'a Iter, args: &'a [u64]) -> Option<FlatWalk<'a>>
        ensures fits { (result ≢ None) ↔ ((1 ≤ l.size_of iter.now.pad) × (l.size_of iter.now.pad ≤ 256)) }
        ensures given { IfSome result (λ w. (w.fields.now ≡ fields.now) × (w.iter.now ≡ iter.now) × (w.args.now ≡ args.now)) }
    {
        match size_of(iter.pad.as_slice()) {
            None => None,
            Some(size) => {
                if size < 1 || size > 256 {
                    return None;
                }
                Some(FlatWalk { fields, iter, args })
            }
        }
    }
}
