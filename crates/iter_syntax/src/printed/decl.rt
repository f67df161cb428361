// Records, iterators and programs.

#![tactic(auto, using(crate::proofs::Printing::all_append))]

ghost use Rattle.std.specs.Prelude.{◌≡◌, ◌<◌, ◌≤◌, ◌⊎◌, length, drop, IsTrue, OnOk};
ghost use Rattle.iter_syntax.specs.Printed as P;
ghost use Rattle.iter_syntax.specs.Steps.Printing.{add_all, head_kinds, iter_next};

use super::stmt::put_block;
use super::text::{put_keyword, put_name, put_next, put_number, put_symbol};
use crate::token::{Keyword, Symbol};
use crate::tree::{Arg, FieldDecl, Iter, Program, RecordDecl, Width};
use pulse_base::{Bytes, Memory};

fn width_keyword(width: Width) -> Keyword
    ensures { result ≡ P.width_key width }
{
    match width {
        Width::U8 => Keyword::U8,
        Width::U16 => Keyword::U16,
        Width::U32 => Keyword::U32,
        Width::U64 => Keyword::U64,
        Width::Ptr => Keyword::Ptr,
    }
}

/// A width, or `[ width ; len ]`.
fn put_type(text: &mut Bytes, width: Width, len: Option<u64>) -> Result<(), Memory>
    ensures { OnOk result (text.new ≡ add_all (P.type_kinds width len) text.old) }
{
    match len {
        None => {
            put_keyword(text, width_keyword(width))?;
            Ok(())
        }
        Some(len) => {
            put_symbol(text, Symbol::OpenSquare)?;
            put_keyword(text, width_keyword(width))?;
            put_symbol(text, Symbol::Semicolon)?;
            put_number(text, len)?;
            put_symbol(text, Symbol::CloseSquare)?;
            Ok(())
        }
    }
}

fn put_field(text: &mut Bytes, field: &FieldDecl) -> Result<(), Memory>
    ensures { OnOk result (text.new ≡ add_all (P.field_kinds field.now) text.old) }
{
    put_name(text, &field.name)?;
    put_symbol(text, Symbol::Colon)?;
    put_type(text, field.width, field.len)?;
    put_symbol(text, Symbol::Semicolon)?;
    Ok(())
}

/// `{ fields }`
fn put_fields(text: &mut Bytes, fields: &[FieldDecl]) -> Result<(), Memory>
    ensures { OnOk result (text.new ≡ add_all (P.fields_kinds fields.now) text.old) }
{
    put_symbol(text, Symbol::OpenBrace)?;
    'row: for field in fields {
        put_field(text, field)?;
    }
    put_symbol(text, Symbol::CloseBrace)?;
    Ok(())
}

fn put_record(text: &mut Bytes, decl: &RecordDecl) -> Result<(), Memory>
    ensures { OnOk result (text.new ≡ add_all (P.record_kinds decl.now) text.old) }
{
    put_keyword(text, Keyword::Record)?;
    put_name(text, &decl.name)?;
    put_fields(text, decl.fields.as_slice())?;
    Ok(())
}

fn put_arg(text: &mut Bytes, arg: &Arg) -> Result<(), Memory>
    ensures { OnOk result (text.new ≡ add_all (P.arg_kinds arg.now) text.old) }
{
    put_name(text, &arg.name)?;
    put_symbol(text, Symbol::Colon)?;
    put_keyword(
        text,
        if arg.pointer {
            Keyword::Ptr
        } else {
            Keyword::Int
        },
    )?;
    Ok(())
}

/// Arguments with commas between them.
fn put_args(text: &mut Bytes, args: &[Arg]) -> Result<(), Memory>
    ensures { OnOk result (text.new ≡ add_all (P.args_kinds args.now) text.old) }
{
    'row: for i in 0..args.len() {
        if i > 0 {
            put_symbol(text, Symbol::Comma)?;
        }
        put_arg(text, &args[i])?;
    }
    Ok(())
}

/// `iter name on on { pad { fields }`
fn put_head(text: &mut Bytes, iter: &Iter) -> Result<(), Memory>
    ensures { OnOk result (text.new ≡ add_all (head_kinds iter.now) text.old) }
{
    put_keyword(text, Keyword::Iter)?;
    put_name(text, &iter.name)?;
    put_keyword(text, Keyword::On)?;
    put_name(text, &iter.on)?;
    put_symbol(text, Symbol::OpenBrace)?;
    put_keyword(text, Keyword::Pad)?;
    put_fields(text, iter.pad.as_slice())?;
    Ok(())
}

fn put_iter(text: &mut Bytes, iter: &Iter) -> Result<(), Memory>
    ensures { OnOk result (text.new ≡ add_all (P.iter_kinds iter.now) text.old) }
{
    put_head(text, iter)?;
    put_keyword(text, Keyword::Init)?;
    put_symbol(text, Symbol::OpenRound)?;
    put_args(text, iter.args.as_slice())?;
    put_symbol(text, Symbol::CloseRound)?;
    put_block(text, &iter.init_part)?;
    put_keyword(text, Keyword::End)?;
    put_block(text, &iter.end_part)?;
    put_next(text)?;
    put_block(text, &iter.next_part)?;
    put_symbol(text, Symbol::CloseBrace)?;
    Ok(())
}

/// Whether an iterator comes before the records that are left.
fn iter_comes(records: &[RecordDecl], iters: &[Iter]) -> bool
    requires { (0 < length records.now) ⊎ (0 < length iters.now) }
    ensures { result ≡ iter_next records.now iters.now }
{
    if iters.is_empty() {
        return false;
    }
    records.is_empty() || iters[0].place.0 < records[0].place.0
}

/// The records and iterators in the order of their places.
pub(super) fn put_program(text: &mut Bytes, program: &Program) -> Result<(), Memory>
    ensures { OnOk result (text.new ≡ add_all (P.program_kinds program.now) text.old) }
{
    let mut records = program.records.as_slice();
    let mut iters = program.iters.as_slice();
    'row: while !records.is_empty() || !iters.is_empty() {
        if iter_comes(records, iters) {
            put_iter(text, &iters[0])?;
            iters = &iters[1..];
        } else {
            put_record(text, &records[0])?;
            records = &records[1..];
        }
    }
    Ok(())
}
