// The number of nodes, counted up to 2,001.

ghost use Rattle.std.specs.Prelude.{◌≡◌, ◌≤◌, ◌+◌, ◌-◌, ◌*◌};
ghost use Rattle.iter_syntax.specs.Tree.{Sts, ex, st, sts, block};
ghost use Rattle.iter_check.specs.FaultList.{init_nodes, body_nodes};
ghost use Rattle.iter_check.specs.First.Count as n;

use iter_syntax::{Block, Expr, Iter, Stmt};

/// One more than the most nodes of a segment.
const TOO_MANY: u32 = 2001;

fn up_to(count: u32) -> u32
    ensures { result ≡ n.up_to count }
{
    if count < TOO_MANY { count } else { TOO_MANY }
}

fn one_more(count: u32) -> u32
    requires { count ≤ 2001 }
    ensures same { result ≡ n.up_to (count + 1) }
    ensures bound { result ≤ 2001 }
{
    up_to(count + 1)
}

// So many nodes, and those of an expression.
fn count_expr(count: u32, expr: &Expr) -> u32
    requires { count ≤ 2001 }
    ensures same { result ≡ n.count_expr count (ex expr.now) }
    ensures bound { result ≤ 2001 }
{
    let more = one_more(count);
    match expr {
        Expr::Num { .. } => more,
        Expr::Null { .. } => more,
        Expr::Name { .. } => more,
        Expr::Cur { .. } => more,
        Expr::CurField { field, .. } => match &field.index {
            None => more,
            Some(_) => more,
        },
        Expr::PadField { field, .. } => match &field.index {
            None => more,
            Some(_) => more,
        },
        Expr::Not { of, .. } => count_expr(more, of.get()),
        Expr::Flip { of, .. } => count_expr(more, of.get()),
        Expr::Binary { left, right, .. } => {
            let with_left = count_expr(more, left.get());
            count_expr(with_left, right.get())
        }
        Expr::At { base, offset, .. } => {
            let with_base = count_expr(more, base.get());
            count_expr(with_base, offset.get())
        }
    }
}

fn turns(first: u64, past: u64) -> u32
    ensures same { result ≡ n.up_to (past - first) }
    ensures bound { result ≤ 2001 }
{
    let many = past.saturating_sub(first);
    if many < 2001 { many as u32 } else { TOO_MANY }
}

fn with_turns(count: u32, many: u32, each: u32) -> u32
    requires { (count ≤ 2001) × (many ≤ 2001) × (each ≤ 2001) }
    ensures same { result ≡ n.up_to (count + many * each) }
    ensures bound { result ≤ 2001 }
{
    up_to(count + many * each)
}

#[cycle(nodes)]
#[tactic(auto, using(crate::proofs::CountLaws::count_pad_is, crate::proofs::CountLaws::count_cur_is))]
fn count_stmt(count: u32, s: &Stmt) -> u32
    requires { count ≤ 2001 }
    ensures same { (rest : Sts) → n.count count (st s.now rest) ≡ n.count result rest }
    ensures bound { result ≤ 2001 }
{
    let more = one_more(count);
    match s {
        Stmt::Let { value, .. } => count_expr(more, value),
        Stmt::Set { value, .. } => count_expr(more, value),
        Stmt::SetPad { value, .. } => count_expr(more, value),
        Stmt::SetCur { value, .. } => count_expr(more, value),
        Stmt::If { test, yes, no, .. } => {
            let with_test = count_expr(more, test);
            let with_yes = count_block(with_test, yes);
            match no {
                None => with_yes,
                Some(other) => count_block(with_yes, other),
            }
        }
        Stmt::For {
            first,
            past,
            body,
            ..
        } => {
            let each = count_block(0, body);
            with_turns(more, turns(*first, *past), each)
        }
        Stmt::Done { .. } => more,
        Stmt::Go { to, .. } => count_expr(more, to),
    }
}

/// So many nodes, and those of a block.
#[cycle(nodes)]
pub(crate) fn count_block(count: u32, body: &Block) -> u32
    requires { count ≤ 2001 }
    ensures same { result ≡ n.count count (block body.now) }
    ensures bound { result ≤ 2001 }
{
    count_row(count, body.stmts.as_slice())
}

#[cycle(nodes)]
fn count_row(count: u32, stmts: &[Stmt]) -> u32
    requires { count ≤ 2001 }
    ensures same { result ≡ n.count count (sts stmts.now) }
    ensures bound { result ≤ 2001 }
{
    let mut so_far = count;
    'row: for s in stmts {
        so_far = count_stmt(so_far, s);
    }
    so_far
}

/// The nodes of an iterator's init, up to 2,001.
#[tactic(auto, using(crate::proofs::CountLaws::one_block))]
pub(crate) fn init_count(it: &Iter) -> u32
    ensures { result ≡ n.up_to (init_nodes it.now) }
{
    count_block(0, &it.init_part)
}

/// The nodes of an iterator's body, up to 2,001.
#[tactic(auto, using(crate::proofs::CountLaws::two_blocks))]
pub(crate) fn body_count(it: &Iter) -> u32
    ensures { result ≡ n.up_to (body_nodes it.now) }
{
    let with_end = count_block(0, &it.end_part);
    count_block(with_end, &it.next_part)
}
