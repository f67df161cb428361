// The lines of records and iterators.

ghost use Rattle.std.specs.Prelude.{◌≡◌, ◌≤◌, ◌<◌, ◌++◌, Some, length, drop, slice_get, option_map, IfOk, OnOk};
ghost use Rattle.iter_syntax.specs.Steps.Printing.{iter_next};
ghost use Rattle.iter_check.specs.Layout.{size_of};
ghost use Rattle.layout_text.specs.Decls.{record_text, head_text, iter_text, layout_text};

use crate::fields::{bytes_of_all, put_fields};
use crate::text::{put, put_number};
use iter_check::Checked;
use iter_syntax::{Iter, RecordDecl};
use pulse_base::{Bytes, Memory};
use std::alloc::Global;

// The lines of a record.
fn put_record(text: &mut Bytes, decl: &RecordDecl) -> Result<(), Memory>
    requires { size_of (decl.now).fields ≤ 256 }
    ensures { OnOk result (text.new ≡ text.old ++ record_text decl.now) }
{
    put(text, "record ")?;
    text.append(decl.name.text.as_slice())?;
    put(text, " ")?;
    put_number(text, bytes_of_all(decl.fields.as_slice()))?;
    put(text, "\n")?;
    put_fields(text, decl.fields.as_slice())?;
    Ok(())
}

// The line of an iterator, with its numbers of nodes.
fn put_head(text: &mut Bytes, iter: &Iter, nodes: (u32, u32)) -> Result<(), Memory>
    requires { size_of (iter.now).pad ≤ 256 }
    ensures { OnOk result (text.new ≡ text.old ++ head_text iter.now nodes.0 nodes.1) }
{
    let (init, body) = nodes;
    put(text, "iter ")?;
    text.append(iter.name.text.as_slice())?;
    put(text, " ")?;
    text.append(iter.on.text.as_slice())?;
    put(text, " pad ")?;
    put_number(text, bytes_of_all(iter.pad.as_slice()))?;
    put(text, " args ")?;
    put_number(text, iter.args.len() as u64)?;
    put(text, " nodes ")?;
    put_number(text, u64::from(init))?;
    put(text, " ")?;
    put_number(text, u64::from(body))?;
    put(text, "\n")?;
    Ok(())
}

// The iterator of a number.
fn put_iter(text: &mut Bytes, checked: &Checked, at: usize) -> Result<(), Memory>
    requires { at < length (checked.now).iters }
    ensures { OnOk result (option_map (λ it. text.old ++ iter_text it) (slice_get (checked.now).iters at) ≡ Some text.new) }
{
    let iter = checked.iter(at);
    put_head(text, iter, checked.node_counts(at))?;
    put_fields(text, iter.pad.as_slice())?;
    Ok(())
}

// Whether an iterator comes before the records that are left.
fn iter_comes(records: &[RecordDecl], iters: &[Iter]) -> bool
    ensures { result ≡ iter_next records.now iters.now }
{
    if iters.is_empty() {
        return false;
    }
    records.is_empty() || iters[0].place.0 < records[0].place.0
}

/// The lines of an accepted program. The work grows with the text.
pub fn layout(alloc: Global, checked: &Checked) -> Result<Bytes, Memory>
    ensures { IfOk result (λ text. text ≡ layout_text checked.now) }
{
    let mut text = Bytes::new(alloc);
    let mut records = checked.program().records.as_slice();
    let mut at = 0;
    'decls: while !records.is_empty() || at < checked.iters() {
        if iter_comes(records, &checked.program().iters.as_slice()[at..]) {
            put_iter(&mut text, checked, at)?;
            at += 1;
        } else {
            put_record(&mut text, &records[0])?;
            records = &records[1..];
        }
    }
    Ok(text)
}
