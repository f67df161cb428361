// Which fields code reads. No contract says so: this bears on the speed of code, and never on what it means.

use crate::field::Field;
use iter_unroll::{FlatExpr, FlatStmt};
use pulse_base::{Listed, Memory};

// Adds a field, unless it is there.
fn note(fields: &mut Listed<Field>, field: Field) -> Result<(), Memory> {
    for known in fields.as_slice() {
        if *known == field {
            return Ok(());
        }
    }
    fields.push(field)
}

fn note_expr(fields: &mut Listed<Field>, e: &FlatExpr) -> Result<(), Memory> {
    match e {
        FlatExpr::Num { .. }
        | FlatExpr::Null
        | FlatExpr::Arg { .. }
        | FlatExpr::Local { .. }
        | FlatExpr::Cur => Ok(()),
        FlatExpr::CurField { field } => note(
            fields,
            Field {
                pad: false,
                off: field.off,
                width: field.width,
            },
        ),
        FlatExpr::PadField { field } => note(
            fields,
            Field {
                pad: true,
                off: field.off,
                width: field.width,
            },
        ),
        FlatExpr::Not { of } => note_expr(fields, of.get()),
        FlatExpr::Flip { of } => note_expr(fields, of.get()),
        FlatExpr::Binary { left, right, .. } => {
            note_expr(fields, left.get())?;
            note_expr(fields, right.get())
        }
        FlatExpr::At { base, offset } => {
            note_expr(fields, base.get())?;
            note_expr(fields, offset.get())
        }
    }
}

#[cycle(note)]
fn note_stmt(fields: &mut Listed<Field>, s: &FlatStmt) -> Result<(), Memory> {
    match s {
        FlatStmt::Local { value, .. } => note_expr(fields, value),
        FlatStmt::Pad { value, .. } => note_expr(fields, value),
        FlatStmt::Cur { value, .. } => note_expr(fields, value),
        FlatStmt::If { test, yes, no } => {
            note_expr(fields, test)?;
            note_row(fields, yes.as_slice())?;
            note_row(fields, no.as_slice())
        }
        FlatStmt::Done => Ok(()),
        FlatStmt::Go { to } => note_expr(fields, to),
    }
}

/// Adds the fields that statements in a row read.
#[cycle(note)]
pub fn note_row(fields: &mut Listed<Field>, stmts: &[FlatStmt]) -> Result<(), Memory> {
    'row: for s in stmts {
        note_stmt(fields, s)?;
    }
    Ok(())
}
