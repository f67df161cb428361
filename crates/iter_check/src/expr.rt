// The faults and the types of expressions.

ghost use Rattle.std.specs.Prelude.{◌≡◌, Some, is_none};
ghost use Rattle.iter_syntax.specs.Tree.{ex, used};
ghost use Rattle.iter_check.specs.declared.sort.Sort.TheVariants as s;
ghost use Rattle.iter_check.specs.Scope as sc;
ghost use Rattle.iter_check.specs.Typing as ty;
ghost use Rattle.iter_check.specs.Expressions as e;
ghost use Rattle.iter_check.specs.First.Least.{note, least};
ghost use Rattle.iter_check.specs.First.Expr as first;

use crate::best::note;
use crate::kind::{CheckKind, Fault};
use crate::scope::{Binding, bound, declared_field};
use crate::sort::{Part, Sort};
use crate::typing::{
    clash, gives, in_init, is_not, no_address, of_cur, of_one, of_two, same_sort, width_sort,
};
use iter_syntax::{BinaryOp, Expr, FieldDecl, FieldUse, Place, Word};

/// Where an expression stands: in which block of its iterator, with which fields.
#[derive(Clone, Copy)]
pub struct Site<'a> {
    pub part: Part,
    pub record_fields: &'a [FieldDecl],
    pub pad_fields: &'a [FieldDecl],
}

/// The place of an expression: its first token that is not `(`.
pub(crate) fn place_of(expr: &Expr) -> Place
    ensures { result ≡ e.place_of (ex expr.now) }
{
    match expr {
        Expr::Num { place, .. } => *place,
        Expr::Null { place } => *place,
        Expr::Name { name } => name.place,
        Expr::Cur { place } => *place,
        Expr::CurField { place, .. } => *place,
        Expr::PadField { place, .. } => *place,
        Expr::Not { place, .. } => *place,
        Expr::Flip { place, .. } => *place,
        Expr::Binary { left, .. } => place_of(left.get()),
        Expr::At { place, .. } => *place,
    }
}

// Whether an expression is deeper than so many.
fn deeper(limit: u8, expr: &Expr) -> bool
    ensures { result ≡ first.deeper limit (ex expr.now) }
{
    if limit == 0 {
        return true;
    }
    match expr {
        Expr::Num { .. } => false,
        Expr::Null { .. } => false,
        Expr::Name { .. } => false,
        Expr::Cur { .. } => false,
        Expr::CurField { .. } => false,
        Expr::PadField { .. } => false,
        Expr::Not { of, .. } => deeper(limit - 1, of.get()),
        Expr::Flip { of, .. } => deeper(limit - 1, of.get()),
        Expr::Binary { left, right, .. } => {
            deeper(limit - 1, left.get()) || deeper(limit - 1, right.get())
        }
        Expr::At { base, offset, .. } => {
            deeper(limit - 1, base.get()) || deeper(limit - 1, offset.get())
        }
    }
}

/// Notes a whole expression or an index that is too deep.
pub(crate) fn note_deep(best: &mut Option<Fault>, expr: &Expr)
    ensures { best.new ≡ first.note_deep (ex expr.now) best.old }
{
    note(best, CheckKind::Depth, place_of(expr), deeper(7, expr));
}

// The type of a name, and its fault.
fn check_name(best: &mut Option<Fault>, scope: &[Binding], name: &Word) -> Option<Sort>
    ensures sort { result ≡ ty.name_sort (sc.bound scope.now name.now) }
    ensures faults { best.new ≡ note CheckKind.Name (name.now).place (is_none (sc.bound scope.now name.now)) best.old }
{
    let found = bound(scope, name);
    note(best, CheckKind::Name, name.place, found.is_none());
    match found {
        None => None,
        Some(binding) => binding.sort,
    }
}

// The type of `cur`, and its fault.
fn check_cur(best: &mut Option<Fault>, part: Part, place: Place) -> Option<Sort>
    ensures sort { result ≡ ty.of_cur part (Some s.Ptr) }
    ensures faults { best.new ≡ note CheckKind.Name place (ty.in_init part) best.old }
{
    note(best, CheckKind::Name, place, in_init(part));
    of_cur(part, Some(Sort::Ptr))
}

// The type of a binary operator over parts of these types, and the fault of its rule.
fn check_binary(
    best: &mut Option<Fault>,
    place: Place,
    op: BinaryOp,
    left: Option<Sort>,
    right: Option<Sort>,
) -> Option<Sort>
    ensures sort { result ≡ ty.of_two left right (ty.clash op left right) (ty.gives op) }
    ensures faults { best.new ≡ note CheckKind.Typing place (ty.clash op left right) best.old }
{
    note(best, CheckKind::Typing, place, clash(op, left, right));
    of_two(left, right, clash(op, left, right), gives(op))
}

// The type of `at` over parts of these types, and the fault of its rule.
fn check_address(
    best: &mut Option<Fault>,
    place: Place,
    base: Option<Sort>,
    offset: Option<Sort>,
) -> Option<Sort>
    ensures sort { result ≡ ty.of_two base offset (ty.no_address base offset) s.Ptr }
    ensures faults { best.new ≡ note CheckKind.Typing place (ty.no_address base offset) best.old }
{
    note(best, CheckKind::Typing, place, no_address(base, offset));
    of_two(base, offset, no_address(base, offset), Sort::Ptr)
}

// The type of a field with no index, and its faults.
fn check_plain(best: &mut Option<Fault>, fields: &[FieldDecl], name: &Word) -> Option<Sort>
    ensures sort { result ≡ ty.plain_sort (sc.declared_field fields.now name.now) }
    ensures faults { best.new ≡ least best.old (e.plain_faults (sc.declared_field fields.now name.now) name.now) }
{
    match declared_field(fields, name) {
        None => {
            note(best, CheckKind::Name, name.place, true);
            None
        }
        Some(field) => {
            note(best, CheckKind::Typing, name.place, field.len.is_some());
            if field.len.is_some() {
                None
            } else {
                Some(width_sort(field.width))
            }
        }
    }
}

// The faults of a field with an index, those of the index aside.
fn note_item(best: &mut Option<Fault>, fields: &[FieldDecl], name: &Word)
    ensures { best.new ≡ least best.old (e.item_faults (sc.declared_field fields.now name.now) name.now) }
{
    match declared_field(fields, name) {
        None => note(best, CheckKind::Name, name.place, true),
        Some(field) => note(best, CheckKind::Typing, name.place, field.len.is_none()),
    }
}

// The type of a field with an index of a type.
fn item_sort(fields: &[FieldDecl], name: &Word, index: Option<Sort>) -> Option<Sort>
    ensures { result ≡ ty.item_sort (sc.declared_field fields.now name.now) index }
{
    match declared_field(fields, name) {
        None => None,
        Some(field) => match index {
            None => None,
            Some(sort) => {
                if field.len.is_some() && same_sort(sort, Sort::Int) {
                    Some(width_sort(field.width))
                } else {
                    None
                }
            }
        },
    }
}

/// The type of an expression, and its faults.
#[cycle(exprs)]
pub(crate) fn check_expr(
    best: &mut Option<Fault>,
    site: &Site,
    scope: &[Binding],
    expr: &Expr,
) -> Option<Sort>
    ensures sort { result ≡ ty.sort_of (first.ground_of site.now) scope.now (ex expr.now) }
    ensures faults { best.new ≡ first.first_expr (first.ground_of site.now) scope.now (ex expr.now) best.old }
{
    match expr {
        Expr::Num { .. } => Some(Sort::Int),
        Expr::Null { .. } => Some(Sort::Ptr),
        Expr::Name { name } => check_name(best, scope, name),
        Expr::Cur { place } => check_cur(best, site.part, *place),
        Expr::CurField { place, field } => check_cur_field(best, site, scope, *place, field),
        Expr::PadField { field, .. } => check_use(best, site, scope, site.pad_fields, field),
        Expr::Not { place, of } => check_one(best, site, scope, *place, Sort::Bool, of.get()),
        Expr::Flip { place, of } => check_one(best, site, scope, *place, Sort::Int, of.get()),
        Expr::Binary {
            op_place,
            op,
            left,
            right,
        } => {
            let a = check_expr(best, site, scope, left.get());
            let b = check_expr(best, site, scope, right.get());
            check_binary(best, *op_place, *op, a, b)
        }
        Expr::At {
            place,
            base,
            offset,
        } => {
            let a = check_expr(best, site, scope, base.get());
            let b = check_expr(best, site, scope, offset.get());
            check_address(best, *place, a, b)
        }
    }
}

// The type of `!` or `~` over an expression, which gives the type that it wants, and its faults.
#[cycle(exprs)]
fn check_one(
    best: &mut Option<Fault>,
    site: &Site,
    scope: &[Binding],
    place: Place,
    wanted: Sort,
    of: &Expr,
) -> Option<Sort>
    ensures sort { let found = ty.sort_of (first.ground_of site.now) scope.now (ex of.now) in result ≡ ty.of_one found (ty.is_not wanted found) wanted }
    ensures faults { best.new ≡ note CheckKind.Typing place (ty.is_not wanted (ty.sort_of (first.ground_of site.now) scope.now (ex of.now))) (first.first_expr (first.ground_of site.now) scope.now (ex of.now) best.old) }
{
    let sort = check_expr(best, site, scope, of);
    note(best, CheckKind::Typing, place, is_not(wanted, sort));
    of_one(sort, is_not(wanted, sort), wanted)
}

// The type of a field of `cur`, and its faults.
#[cycle(exprs)]
fn check_cur_field(
    best: &mut Option<Fault>,
    site: &Site,
    scope: &[Binding],
    place: Place,
    field: &FieldUse,
) -> Option<Sort>
    ensures sort { let g = first.ground_of site.now in result ≡ ty.of_cur g.part (first.use_sort g scope.now g.record_fields (used field.now).0 (used field.now).1) }
    ensures faults { let g = first.ground_of site.now in best.new ≡ first.first_use g scope.now g.record_fields (used field.now).0 (used field.now).1 (note CheckKind.Name place (ty.in_init g.part) best.old) }
{
    note(best, CheckKind::Name, place, in_init(site.part));
    let sort = check_use(best, site, scope, site.record_fields, field);
    of_cur(site.part, sort)
}

/// The type of a field's use, and its faults.
#[cycle(exprs)]
pub(crate) fn check_use(
    best: &mut Option<Fault>,
    site: &Site,
    scope: &[Binding],
    fields: &[FieldDecl],
    field: &FieldUse,
) -> Option<Sort>
    ensures sort { result ≡ first.use_sort (first.ground_of site.now) scope.now fields.now (used field.now).0 (used field.now).1 }
    ensures faults { best.new ≡ first.first_use (first.ground_of site.now) scope.now fields.now (used field.now).0 (used field.now).1 best.old }
{
    match &field.index {
        None => check_plain(best, fields, &field.name),
        Some(index) => {
            note_item(best, fields, &field.name);
            note_deep(best, index.get());
            let sort = check_expr(best, site, scope, index.get());
            note(
                best,
                CheckKind::Typing,
                place_of(index.get()),
                is_not(Sort::Int, sort),
            );
            item_sort(fields, &field.name, sort)
        }
    }
}
