// The faults of paths.

ghost use Rattle.std.specs.Prelude.{◌≡◌, ◌&&◌, ◌||◌, false};
ghost use Rattle.iter_syntax.specs.Tree.{st, sts, block};
ghost use Rattle.iter_check.specs.Paths as pa;
ghost use Rattle.iter_check.specs.First.Least.{note};
ghost use Rattle.iter_check.specs.First.Path as first;

use crate::best::note;
use crate::kind::{CheckKind, Fault};
use crate::sort::Part;
use iter_syntax::{Block, Place, Stmt};

fn is_next(part: Part) -> bool
    ensures { result ≡ pa.is_next part }
{
    match part {
        Part::Next => true,
        Part::Init => false,
        Part::End => false,
    }
}

fn is_end(part: Part) -> bool
    ensures { result ≡ pa.is_end part }
{
    match part {
        Part::End => true,
        Part::Init => false,
        Part::Next => false,
    }
}

fn note_late(best: &mut Option<Fault>, place: Place, late: bool)
    ensures { best.new ≡ note CheckKind.Path place late best.old }
{
    note(best, CheckKind::Path, place, late);
}

fn either(a: bool, b: bool) -> bool
    ensures { result ≡ (a || b) }
{
    a || b
}

fn both(a: bool, b: bool) -> bool
    ensures { result ≡ (a && b) }
{
    a && b
}

// Whether a statement ends; `late` says that one before it does.
#[cycle(paths)]
fn path_stmt(best: &mut Option<Fault>, part: Part, late: bool, s: &Stmt) -> bool
    ensures { first.Passed part late result (st s.now) best.old best.new }
{
    match s {
        Stmt::Let { place, .. }
        | Stmt::Set { place, .. }
        | Stmt::SetPad { place, .. }
        | Stmt::SetCur { place, .. } => {
            note_late(best, *place, late);
            false
        }
        Stmt::If { place, yes, no, .. } => {
            note_late(best, *place, late);
            let yes_ends = path_block(best, part, yes);
            match no {
                None => false,
                Some(other) => both(yes_ends, path_block(best, part, other)),
            }
        }
        Stmt::For { place, body, .. } => {
            note_late(best, *place, late);
            let ends = path_block(best, part, body);
            note(best, CheckKind::Path, *place, ends);
            false
        }
        Stmt::Done { place } => {
            note_late(best, *place, late);
            note(best, CheckKind::Path, *place, is_next(part));
            true
        }
        Stmt::Go { place, .. } => {
            note_late(best, *place, late);
            note(best, CheckKind::Path, *place, is_end(part));
            true
        }
    }
}

/// Whether a block ends.
#[cycle(paths)]
pub(crate) fn path_block(best: &mut Option<Fault>, part: Part, body: &Block) -> bool
    ensures ends { result ≡ pa.ends (block body.now) }
    ensures faults { best.new ≡ first.first_paths part false (block body.now) best.old }
{
    path_row(best, part, body.stmts.as_slice())
}

#[cycle(paths)]
fn path_row(best: &mut Option<Fault>, part: Part, stmts: &[Stmt]) -> bool
    ensures ends { result ≡ pa.ends (sts stmts.now) }
    ensures faults { best.new ≡ first.first_paths part false (sts stmts.now) best.old }
{
    let mut late = false;
    let mut last = false;
    'row: for s in stmts {
        last = path_stmt(best, part, late, s);
        late = either(last, late);
    }
    last
}
