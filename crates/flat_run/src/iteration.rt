// One iteration at a record, and the init of a walk.

ghost use Rattle.std.specs.Prelude.{◌≡◌, [], IfOk, replicate};
ghost use Rattle.iter_check.specs.Layout.{size_of};
ghost use Rattle.iter_check.specs.Iteration as i;
ghost use Rattle.flat_run.specs.Views.Interpreter.{setting_of, state_of, outcome_of, iterated_of, begun_of};

use crate::statements::{Ending, run_row};
use crate::value::{Setting, State};
use iter_check::{Names, size_of};
use iter_syntax::{Arg, FieldDecl, Iter};
use pulse_base::{Bytes, Cause, Listed, Memory};
use std::alloc::Global;

/// What an iteration gives: the walk is done or goes to a pointer, with the bytes of the record and of
/// the pad then. A fault gives neither.
#[derive(Debug, Drop)]
pub enum Iterated {
    Done { record: Bytes, pad: Bytes },
    Goes { to: u64, record: Bytes, pad: Bytes },
    Fault(Cause),
}

/// What init gives: the first pointer and pad of a walk, the pad of one that is done at once, or a
/// division by zero.
#[derive(Debug, Drop)]
pub enum Begun {
    Ready { cur: u64, pad: Bytes },
    Ended { pad: Bytes },
    DivZero,
}

fn copied(alloc: Global, bytes: &[u8]) -> Result<Vec<u8>, Memory>
    ensures { IfOk result (λ v. v.items ≡ bytes.now) }
{
    match Vec::from_slice(alloc, bytes) {
        Ok(copy) => Ok(copy),
        Err(_) => Err(Memory),
    }
}

fn after_iteration(ending: Ending, state: State) -> Iterated
    ensures { iterated_of result ≡ i.iterated (outcome_of ending state) }
{
    let State {
        record,
        pad,
        names: _,
    } = state;
    let record = Listed::from_vec(record);
    let pad = Listed::from_vec(pad);
    match ending {
        Ending::Falls => Iterated::Done { record, pad },
        Ending::Done => Iterated::Done { record, pad },
        Ending::Goes(to) => Iterated::Goes { to, record, pad },
        Ending::Fault(cause) => Iterated::Fault(cause),
    }
}

// End, and then next with no names where end falls through.
fn end_then_next(
    alloc: Global,
    setting: &Setting,
    it: &Iter,
    state: State,
) -> Result<Iterated, Memory>
    ensures { IfOk result (λ r. iterated_of r ≡ i.iterated (i.end_then_next (setting_of setting.now) it.now (state_of state))) }
{
    let mut state = state;
    let ending = run_row(alloc, setting, &mut state, it.end_part.stmts.as_slice())?;
    if !ending.falls() {
        return Ok(after_iteration(ending, state));
    }
    state.names = Names::new(alloc);
    let ending = run_row(alloc, setting, &mut state, it.next_part.stmts.as_slice())?;
    Ok(after_iteration(ending, state))
}

/// One iteration of an iterator on a record with these fields: end, and then next with no names where
/// end falls through.
pub fn iterate(
    alloc: Global,
    fields: &[FieldDecl],
    it: &Iter,
    record_bytes: &[u8],
    cur: u64,
    pad: &[u8],
    writable: bool,
) -> Result<Iterated, Memory>
    ensures { IfOk result (λ r. iterated_of r ≡ i.iteration fields.now it.now record_bytes.now cur pad.now writable) }
{
    let setting = Setting {
        record_fields: fields,
        pad_fields: it.pad.as_slice(),
        cur,
        writable,
    };
    let record = copied(alloc, record_bytes)?;
    let pad = copied(alloc, pad)?;
    let state = State {
        record,
        pad,
        names: Names::new(alloc),
    };
    end_then_next(alloc, &setting, it, state)
}

// A pad of zeros, as long as the fields are.
fn zero_pad(alloc: Global, fields: &[FieldDecl]) -> Result<Vec<u8>, Memory>
    ensures { IfOk result (λ v. v.items ≡ replicate (size_of fields.now) 0) }
{
    match size_of(fields) {
        None => Err(Memory),
        Some(size) => match vec![in alloc; 0u8; size as usize] {
            Ok(zeros) => Ok(zeros),
            Err(_) => Err(Memory),
        },
    }
}

// The arguments as names, the last one the newest.
fn arguments(alloc: Global, args: &[Arg], values: &[u64]) -> Result<Names, Memory>
    ensures { IfOk result (λ names. names ≡ i.with_arguments args.now values.now []) }
{
    let mut names = Names::new(alloc);
    let mut at = 0;
    'each: while at < args.len() && at < values.len() {
        names.declare(alloc, &args[at].name, values[at])?;
        at += 1;
    }
    Ok(names)
}

fn after_init(ending: Ending, state: State) -> Begun
    ensures { begun_of result ≡ i.begun (outcome_of ending state) }
{
    let State {
        record: _,
        pad,
        names: _,
    } = state;
    let pad = Listed::from_vec(pad);
    match ending {
        Ending::Falls => Begun::Ended { pad },
        Ending::Done => Begun::Ended { pad },
        Ending::Goes(cur) => Begun::Ready { cur, pad },
        Ending::Fault(_) => Begun::DivZero,
    }
}

/// Runs init on a zero pad, with the arguments as names and no record. An argument without a value is
/// not there, and a value without an argument is not used.
pub fn begin(alloc: Global, it: &Iter, values: &[u64]) -> Result<Begun, Memory>
    ensures { IfOk result (λ r. begun_of r ≡ i.begin it.now values.now) }
{
    let setting = Setting {
        record_fields: &[],
        pad_fields: it.pad.as_slice(),
        cur: 0,
        writable: true,
    };
    let pad = zero_pad(alloc, it.pad.as_slice())?;
    let names = arguments(alloc, it.args.as_slice(), values)?;
    let mut state = State {
        record: Vec::new(alloc),
        pad,
        names,
    };
    let ending = run_row(alloc, &setting, &mut state, it.init_part.stmts.as_slice())?;
    Ok(after_init(ending, state))
}
