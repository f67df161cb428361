// What an index is worth in the turns of the loops around it.

ghost use Rattle.std.specs.Prelude.{◌≡◌, ◌≤◌, ◌<◌, ◌+◌, ◌-◌, ◌++◌, ◌∷◌, [], length, drop, OnOk, IfOk};
ghost use Rattle.iter_syntax.specs.Tree.{ex};
ghost use Rattle.iter_check.specs.Layout.{text};
ghost use Rattle.iter_check.specs.Value as v;
ghost use Rattle.iter_check.specs.Indices as ix;

use crate::value::{apply, word};
use iter_syntax::{BinaryOp, Expr, Word};
use pulse_base::{Bytes, Listed, Memory};
use std::alloc::Global;

/// A loop around a statement: its variable, the first number, and the one past the last.
#[derive(Debug, Drop)]
pub struct Loop {
    pub text: Bytes,
    pub first: u64,
    pub past: u64,
}

/// The loops around a statement, the outermost first.
pub(crate) type Loops = Vec<Loop>;

/// One more loop around.
pub(crate) fn enter(
    alloc: Global,
    loops: &mut Loops,
    name: &Word,
    first: u64,
    past: u64,
) -> Result<(), Memory>
    ensures { OnOk result (loops.new.items ≡ loops.old.items ++ ix.loop_of name.now first past ∷ []) }
{
    let mut text = Listed::new(alloc);
    text.append(name.text.as_slice())?;
    match loops.push(Loop { text, first, past }) {
        Ok(()) => Ok(()),
        Err(_) => Err(Memory),
    }
}

pub(crate) fn how_many(loops: &Loops) -> usize
    ensures { result ≡ length loops.now.items }
{
    loops.len()
}

// The number of a loop variable in a turn.
fn number_in(name: &Word, loops: &[Loop], turn: &[u64]) -> Option<u64>
    ensures { result ≡ ix.number_in (text name.now) loops.now turn.now }
{
    let mut i = 0;
    'around: while i < loops.len() && i < turn.len() {
        if loops[i].text.as_slice() == name.text.as_slice() {
            return Some(turn[i]);
        }
        i += 1;
    }
    None
}

fn applied(op: BinaryOp, x: u64, y: u64) -> Option<u64>
    ensures { result ≡ v.word (v.apply op x y) }
{
    word(apply(op, x, y))
}

// What an index is worth in a turn.
fn index_in(loops: &[Loop], turn: &[u64], index: &Expr) -> Option<u64>
    ensures { result ≡ ix.index_in loops.now turn.now (ex index.now) }
{
    match index {
        Expr::Num { value, .. } => Some(*value),
        Expr::Null { .. } => None,
        Expr::Name { name } => number_in(name, loops, turn),
        Expr::Cur { .. } => None,
        Expr::CurField { .. } => None,
        Expr::PadField { .. } => None,
        Expr::Not { .. } => None,
        Expr::Flip { of, .. } => match index_in(loops, turn, of.get()) {
            None => None,
            Some(x) => Some(u64::MAX - x),
        },
        Expr::Binary {
            op,
            left,
            right,
            ..
        } => match index_in(loops, turn, left.get()) {
            None => None,
            Some(x) => match index_in(loops, turn, right.get()) {
                None => None,
                Some(y) => applied(*op, x, y),
            },
        },
        Expr::At { .. } => None,
    }
}

fn out_of(loops: &[Loop], index: &Expr, len: u64, turn: &[u64]) -> bool
    ensures { result ≡ ix.out_of loops.now (ex index.now) len turn.now }
{
    match index_in(loops, turn, index) {
        None => true,
        Some(i) => i >= len,
    }
}

fn depth_of(turn: &Vec<u64>) -> usize
    ensures { result ≡ length turn.now.items }
{
    turn.len()
}

fn push_number(turn: &mut Vec<u64>, n: u64) -> Result<(), Memory>
    ensures { OnOk result (turn.new.items ≡ turn.old.items ++ n ∷ []) }
{
    match turn.push(n) {
        Ok(()) => Ok(()),
        Err(_) => Err(Memory),
    }
}

/// Whether an index is not below a length in some turn of the loops that have no number yet. It stops at
/// the first such turn.
#[cycle(turns)]
pub(crate) fn in_some_turn(
    loops: &[Loop],
    turn: &mut Vec<u64>,
    index: &Expr,
    len: u64,
) -> Result<bool, Memory>
    requires { length turn.old.items ≤ length loops.now }
    ensures some { IfOk result (λ b. b ≡ ix.in_some_turn (drop (length turn.old.items) loops.now) turn.old.items (ix.out_of loops.now (ex index.now) len)) }
    ensures same { OnOk result (turn.new.items ≡ turn.old.items) }
{
    let at = depth_of(turn);
    if at < loops.len() {
        let around = &loops[at];
        return in_turns(loops, turn, index, len, around.first, around.past);
    }
    Ok(out_of(loops, index, len, turn.as_slice()))
}

// The same for the numbers of the first of these loops, from one on.
#[cycle(turns)]
fn in_turns(
    loops: &[Loop],
    turn: &mut Vec<u64>,
    index: &Expr,
    len: u64,
    first: u64,
    past: u64,
) -> Result<bool, Memory>
    requires { length turn.old.items < length loops.now }
    ensures some { IfOk result (λ b. b ≡ ix.for_some first (past - first) (λ i. ix.in_some_turn (drop (length turn.old.items + 1) loops.now) (turn.old.items ++ i ∷ []) (ix.out_of loops.now (ex index.now) len))) }
    ensures same { OnOk result (turn.new.items ≡ turn.old.items) }
{
    let at = depth_of(turn);
    let mut i = first;
    'turns: while i < past {
        push_number(turn, i)?;
        let found = in_some_turn(loops, turn, index, len)?;
        turn.truncate(at);
        if found {
            return Ok(true);
        }
        i += 1;
    }
    Ok(false)
}
