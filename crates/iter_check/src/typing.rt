// The rules of types.

ghost use Rattle.std.specs.Prelude.{◌≡◌};
ghost use Rattle.iter_check.specs.Typing as ty;

use crate::sort::{Part, Sort};
use iter_syntax::{BinaryOp, Width};

/// The type of a field or of an element of a width.
pub(crate) fn width_sort(width: Width) -> Sort
    ensures { result ≡ ty.width_sort width }
{
    match width {
        Width::Ptr => Sort::Ptr,
        Width::U8 => Sort::Int,
        Width::U16 => Sort::Int,
        Width::U32 => Sort::Int,
        Width::U64 => Sort::Int,
    }
}

pub(crate) fn same_sort(a: Sort, b: Sort) -> bool
    ensures { result ≡ ty.same_sort a b }
{
    a == b
}

/// Whether there is a type, and it is not the one that is wanted.
pub(crate) fn is_not(wanted: Sort, found: Option<Sort>) -> bool
    ensures { result ≡ ty.is_not wanted found }
{
    match found {
        None => false,
        Some(sort) => !same_sort(wanted, sort),
    }
}

/// Whether there are two types, and they differ.
pub(crate) fn differ(a: Option<Sort>, b: Option<Sort>) -> bool
    ensures { result ≡ ty.differ a b }
{
    match a {
        None => false,
        Some(sort) => is_not(sort, b),
    }
}

pub(crate) fn is_bool(a: Option<Sort>) -> bool
    ensures { result ≡ ty.is_bool a }
{
    match a {
        None => false,
        Some(sort) => same_sort(sort, Sort::Bool),
    }
}

/// Whether the rule of a binary operator fails.
pub(crate) fn clash(op: BinaryOp, a: Option<Sort>, b: Option<Sort>) -> bool
    ensures { result ≡ ty.clash op a b }
{
    match op {
        BinaryOp::Or | BinaryOp::And => is_not(Sort::Bool, a) || is_not(Sort::Bool, b),
        BinaryOp::Eq | BinaryOp::Ne => is_bool(a) || (is_bool(b) || differ(a, b)),
        _ => is_not(Sort::Int, a) || is_not(Sort::Int, b),
    }
}

/// Whether the rule of `at` fails.
pub(crate) fn no_address(a: Option<Sort>, b: Option<Sort>) -> bool
    ensures { result ≡ ty.no_address a b }
{
    is_not(Sort::Ptr, a) || is_not(Sort::Int, b)
}

/// The type that a binary operator gives.
pub(crate) fn gives(op: BinaryOp) -> Sort
    ensures { result ≡ ty.gives op }
{
    match op {
        BinaryOp::Or => Sort::Bool,
        BinaryOp::And => Sort::Bool,
        BinaryOp::Eq => Sort::Bool,
        BinaryOp::Ne => Sort::Bool,
        BinaryOp::Lt => Sort::Bool,
        BinaryOp::Le => Sort::Bool,
        BinaryOp::Gt => Sort::Bool,
        BinaryOp::Ge => Sort::Bool,
        _ => Sort::Int,
    }
}

/// A type, where the one part has one and its rule does not fail.
pub(crate) fn of_one(a: Option<Sort>, fails: bool, sort: Sort) -> Option<Sort>
    ensures { result ≡ ty.of_one a fails sort }
{
    match a {
        None => None,
        Some(_) => if fails { None } else { Some(sort) },
    }
}

/// The same of two parts.
pub(crate) fn of_two(a: Option<Sort>, b: Option<Sort>, fails: bool, sort: Sort) -> Option<Sort>
    ensures { result ≡ ty.of_two a b fails sort }
{
    match a {
        None => None,
        Some(_) => of_one(b, fails, sort),
    }
}

pub(crate) fn in_init(part: Part) -> bool
    ensures { result ≡ ty.in_init part }
{
    match part {
        Part::Init => true,
        Part::End => false,
        Part::Next => false,
    }
}

/// The type of what begins with `cur`: none in init.
pub(crate) fn of_cur(part: Part, sort: Option<Sort>) -> Option<Sort>
    ensures { result ≡ ty.of_cur part sort }
{
    match part {
        Part::Init => None,
        Part::End => sort,
        Part::Next => sort,
    }
}
