// What statements do.

ghost use Rattle.std.specs.Prelude.{◌≡◌, ◌-◌, length, IfOk};
ghost use Rattle.iter_syntax.specs.declared.tree.Place.{Place};
ghost use Rattle.iter_syntax.specs.Tree.{ex, st, sts, block, end, used, to_pad, to_cur};
ghost use Rattle.iter_check.specs.Value as v;
ghost use Rattle.iter_check.specs.Meaning.{meaning, inside, within, turns, declare};
ghost use Rattle.flat_run.specs.Views.Interpreter.{setting_of, state_of, outcome_of, index_of, is_falls};

use crate::value::{Setting, State, value_of};
use iter_check::{word, write_item};
use iter_syntax::{Block, Expr, FieldUse, Stmt, Word};
use pulse_base::{Cause, Memory};
use std::alloc::Global;

/// Where statements lead: they fall through, are done, go to a pointer, or fault.
#[derive(Clone, Copy, Debug, PartialEq, Eq)]
pub enum Ending {
    Falls,
    Done,
    Goes(u64),
    Fault(Cause),
}

impl Ending {
    /// Whether the next statement is reached.
    pub fn falls(self) -> bool
        ensures { result ≡ is_falls self }
    {
        match self {
            Ending::Falls => true,
            Ending::Done => false,
            Ending::Goes(_) => false,
            Ending::Fault(_) => false,
        }
    }
}

// The number that stands for an expression's value; a division by zero has none.
fn number(setting: &Setting, state: &State, e: &Expr) -> Option<u64>
    ensures { result ≡ v.word (v.value_of (setting_of setting.now) (state_of state.now) (ex e.now)) }
{
    word(value_of(setting, state, e))
}

// The index of a use, 0 where it has none.
fn index(setting: &Setting, state: &State, target: &FieldUse) -> Option<u64>
    ensures { result ≡ index_of (setting_of setting.now) (state_of state.now) (used target.now).1 }
{
    match &target.index {
        None => Some(0),
        Some(index) => number(setting, state, index.get()),
    }
}

fn store_pad(setting: &Setting, state: &mut State, target: &FieldUse, value: &Expr) -> Ending
    ensures { (p : Place) → outcome_of result state.new ≡ meaning (setting_of setting.now) (to_pad p (used target.now).0 (used target.now).1 (ex value.now) end) (state_of state.old) }
{
    match index(setting, state, target) {
        None => Ending::Fault(Cause::DivZero),
        Some(i) => match number(setting, state, value) {
            None => Ending::Fault(Cause::DivZero),
            Some(v) => {
                write_item(setting.pad_fields, &target.name, i, v, &mut state.pad);
                Ending::Falls
            }
        },
    }
}

fn store_record(setting: &Setting, state: &mut State, target: &FieldUse, value: &Expr) -> Ending
    ensures { (p : Place) → outcome_of result state.new ≡ meaning (setting_of setting.now) (to_cur p (used target.now).0 (used target.now).1 (ex value.now) end) (state_of state.old) }
{
    match index(setting, state, target) {
        None => Ending::Fault(Cause::DivZero),
        Some(i) => match number(setting, state, value) {
            None => Ending::Fault(Cause::DivZero),
            Some(v) => {
                if setting.writable {
                    write_item(setting.record_fields, &target.name, i, v, &mut state.record);
                    Ending::Falls
                } else {
                    Ending::Fault(Cause::NotWritable)
                }
            }
        },
    }
}

#[cycle(statements)]
fn run_stmt(alloc: Global, setting: &Setting, state: &mut State, s: &Stmt) -> Result<Ending, Memory>
    ensures { IfOk result (λ e. outcome_of e state.new ≡ meaning (setting_of setting.now) (st s.now end) (state_of state.old)) }
{
    match s {
        Stmt::Let { name, value, .. } => match number(setting, state, value) {
            None => Ok(Ending::Fault(Cause::DivZero)),
            Some(v) => {
                state.names.declare(alloc, name, v)?;
                Ok(Ending::Falls)
            }
        },
        Stmt::Set { name, value, .. } => match number(setting, state, value) {
            None => Ok(Ending::Fault(Cause::DivZero)),
            Some(v) => {
                state.names.change(name, v);
                Ok(Ending::Falls)
            }
        },
        Stmt::SetPad { target, value, .. } => Ok(store_pad(setting, state, target, value)),
        Stmt::SetCur { target, value, .. } => Ok(store_record(setting, state, target, value)),
        Stmt::If { test, yes, no, .. } => match number(setting, state, test) {
            None => Ok(Ending::Fault(Cause::DivZero)),
            Some(0) => match no {
                None => Ok(Ending::Falls),
                Some(other) => run_block(alloc, setting, state, other),
            },
            Some(_) => run_block(alloc, setting, state, yes),
        },
        Stmt::For {
            name,
            first,
            past,
            body,
            ..
        } => run_loop(alloc, setting, state, name, *first, *past, body),
        Stmt::Done { .. } => Ok(Ending::Done),
        Stmt::Go { to, .. } => match number(setting, state, to) {
            None => Ok(Ending::Fault(Cause::DivZero)),
            Some(v) => Ok(Ending::Goes(v)),
        },
    }
}

// Leaves a block before which there were `len` names.
fn leave(ending: Ending, state: &mut State, len: usize)
    ensures { outcome_of ending state.new ≡ within len (outcome_of ending state.old) }
{
    match ending {
        Ending::Falls => state.names.keep_oldest(len),
        Ending::Done => {}
        Ending::Goes(_) => {}
        Ending::Fault(_) => {}
    }
}

#[cycle(statements)]
fn run_block(
    alloc: Global,
    setting: &Setting,
    state: &mut State,
    body: &Block,
) -> Result<Ending, Memory>
    ensures { IfOk result (λ e. outcome_of e state.new ≡ inside (meaning (setting_of setting.now) (block body.now)) (state_of state.old)) }
{
    let len = state.names.len();
    let ending = run_row(alloc, setting, state, body.stmts.as_slice())?;
    leave(ending, state, len);
    Ok(ending)
}

// A turn of a loop: its block, with the loop's variable in scope.
#[cycle(statements)]
fn run_turn(
    alloc: Global,
    setting: &Setting,
    state: &mut State,
    name: &Word,
    i: u64,
    body: &Block,
) -> Result<Ending, Memory>
    ensures { IfOk result (λ e. outcome_of e state.new ≡ within (length state.old.names) (meaning (setting_of setting.now) (block body.now) (declare name.now i (state_of state.old)))) }
{
    let len = state.names.len();
    state.names.declare(alloc, name, i)?;
    let ending = run_row(alloc, setting, state, body.stmts.as_slice())?;
    leave(ending, state, len);
    Ok(ending)
}

#[cycle(statements)]
fn run_loop(
    alloc: Global,
    setting: &Setting,
    state: &mut State,
    name: &Word,
    first: u64,
    past: u64,
    body: &Block,
) -> Result<Ending, Memory>
    ensures { IfOk result (λ e. outcome_of e state.new ≡ turns name.now first (past - first) (meaning (setting_of setting.now) (block body.now)) (state_of state.old)) }
{
    let mut i = first;
    'turns: while i < past {
        let ending = run_turn(alloc, setting, state, name, i, body)?;
        if !ending.falls() {
            return Ok(ending);
        }
        i += 1;
    }
    Ok(Ending::Falls)
}

/// Runs statements on a state, which is then what they leave; after a fault, or for want of memory, it
/// may be anything.
#[cycle(statements)]
pub fn run_row(
    alloc: Global,
    setting: &Setting,
    state: &mut State,
    stmts: &[Stmt],
) -> Result<Ending, Memory>
    ensures { IfOk result (λ e. outcome_of e state.new ≡ meaning (setting_of setting.now) (sts stmts.now) (state_of state.old)) }
{
    'row: for s in stmts {
        let ending = run_stmt(alloc, setting, state, s)?;
        if !ending.falls() {
            return Ok(ending);
        }
    }
    Ok(Ending::Falls)
}
