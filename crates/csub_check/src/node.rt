//! What each kind of expression is, and what it breaks, by what is found of its parts.
ghost use Rattle.std.specs.Prelude.{◌≡◌, ◌&&◌, None, map, true};
ghost use Rattle.csub_types.specs.declared.kind.IntKind.TheVariants.{Int};
ghost use Rattle.csub_scopes.specs.Meanings.{scope_of};
ghost use Rattle.csub_tree.specs.Expressions.{expr_tree, exprs_of};
ghost use Rattle.csub_rules.specs.ExprFaults.{is_unknown, lacks_array, lacks_member, lacks_number, lacks_place};
ghost use Rattle.csub_rules.specs.ExprSorts.{assign_sort, binary_sort, choice_sort, given_by, index_sort, logical_sort, named_kind, number_literal_kind, sort_of_name, step_sort, unary_sort};
ghost use Rattle.csub_rules.specs.Faults.{fault_if, ◌or_earlier◌};
ghost use Rattle.csub_rules.specs.Sorts.{is_number, member_of, no_sort, a_value, sort_if, value_if};
ghost use Rattle.csub_check.specs.Arguments.{formats, own_fault};
ghost use Rattle.csub_rules.specs.Views.{the_callee};
ghost use Rattle.csub_check.specs.Seen.{the_sort, the_standing};

use crate::arguments::{formats, own_fault};
use crate::callee::{given_by, named};
use crate::checked::{Checked, array_fault, index_fault, member_fault, number_fault, place_fault};
use crate::sort::{
    Sort, element_of, is_number, is_number_place, member_of, sort_if, the_kind, value_if,
};
use crate::standing::Standing;
use csub_rules::{Callee, Fault, earlier, fault_if, named_kind, number_literal_kind};
use csub_scopes::Scope;
use csub_text::{BinOp, Span, UnaryOp};
use csub_tree::{Expr, Name, TypeName};
use csub_types::{IntKind, binary_kind, common, operation_kind, promote, unary_kind};

/// What is found of the arguments of a call.
#[derive(Clone, Copy)]
pub(crate) struct Arguments {
    /// They suit what is wanted, as far as sorts go.
    pub suits: bool,
    /// There are more or fewer than parameters, or one that has a sort isn't taken.
    pub misfits: bool,
    /// The first rule that one of them breaks.
    pub fault: Option<Fault>,
}

/// A number as it is written (C11 6.4.4.1).
pub(crate) fn number<'t>(number: u32, suffix: bool, span: Span) -> Checked<'t>
    ensures sort { the_sort result.sort ≡ a_value (number_literal_kind number suffix) }
    ensures fault { result.fault ≡ None }
    ensures span { result.span ≡ span }
{
    Checked {
        sort: Sort::Value(number_literal_kind(number, suffix)),
        fault: None,
        span,
    }
}

/// A character constant (C11 6.4.4.4p10).
pub(crate) fn character<'t>(span: Span) -> Checked<'t>
    ensures sort { the_sort result.sort ≡ a_value Int }
    ensures fault { result.fault ≡ None }
    ensures span { result.span ≡ span }
{
    Checked {
        sort: Sort::Value(IntKind::Int),
        fault: None,
        span,
    }
}

/// M20 of a string: one that stands first in a call of `printf` isn't looked at.
pub(crate) fn string<'t>(span: Span) -> Checked<'t>
    ensures sort { the_sort result.sort ≡ no_sort }
    ensures fault { result.fault ≡ fault_if true 20 span }
    ensures span { result.span ≡ span }
{
    Checked {
        sort: Sort::Unknown,
        fault: fault_if(true, 20, span),
        span,
    }
}

/// A name (C11 6.5.1p2), with M1.
pub(crate) fn name<'t>(scope: &'t Scope, x: &Name, span: Span) -> Checked<'t>
    ensures sort { the_sort result.sort ≡ sort_of_name (scope_of scope.now) x.now.text }
    ensures fault { result.fault ≡ fault_if (is_unknown (scope_of scope.now) x.now.text) 1 x.now.span }
    ensures span { result.span ≡ span }
{
    let named = named(scope, x.text.bytes());
    Checked {
        sort: named.sort,
        fault: fault_if(!named.is_value, 1, x.span),
        span,
    }
}

/// An expression in parentheses (C11 6.5.1p5).
pub(crate) fn paren<'t>(inner: Checked<'t>, span: Span) -> Checked<'t>
    ensures sort { the_sort result.sort ≡ the_sort inner.entry.sort }
    ensures fault { result.fault ≡ inner.entry.fault }
    ensures span { result.span ≡ span }
{
    Checked {
        sort: inner.sort,
        fault: inner.fault,
        span,
    }
}

/// The fault of an operand of which a number is asked for.
fn operand_fault(a: Checked) -> Option<Fault>
    ensures { result ≡ a.entry.fault or_earlier fault_if (lacks_number (the_sort a.entry.sort)) 7 a.entry.span }
{
    earlier(a.fault, number_fault(a))
}

/// The fault of two operands of which numbers are asked for.
fn operands_fault(a: Checked, b: Checked) -> Option<Fault>
    ensures { result ≡ a.entry.fault or_earlier b.entry.fault or_earlier fault_if (lacks_number (the_sort a.entry.sort)) 7 a.entry.span or_earlier fault_if (lacks_number (the_sort b.entry.sort)) 7 b.entry.span }
{
    let parts = earlier(a.fault, b.fault);
    earlier(earlier(parts, number_fault(a)), number_fault(b))
}

/// `+`, `-`, `!` or `~` and an operand (C11 6.5.3.3).
pub(crate) fn unary<'t>(op: UnaryOp, a: Checked, span: Span) -> Checked<'t>
    ensures sort { the_sort result.sort ≡ unary_sort op (the_sort a.entry.sort) }
    ensures fault { result.fault ≡ a.entry.fault or_earlier fault_if (lacks_number (the_sort a.entry.sort)) 7 a.entry.span }
    ensures span { result.span ≡ span }
{
    let kind = unary_kind(op, promote(the_kind(a.sort)));
    Checked {
        sort: value_if(is_number(a.sort), kind),
        fault: operand_fault(a),
        span,
    }
}

/// A cast (C11 6.5.4).
pub(crate) fn cast<'t>(name: &TypeName, a: Checked, span: Span) -> Checked<'t>
    ensures sort { the_sort result.sort ≡ value_if (is_number (the_sort a.entry.sort)) (named_kind name.now) }
    ensures fault { result.fault ≡ a.entry.fault or_earlier fault_if (lacks_number (the_sort a.entry.sort)) 7 a.entry.span }
    ensures span { result.span ≡ span }
{
    Checked {
        sort: value_if(is_number(a.sort), named_kind(name)),
        fault: operand_fault(a),
        span,
    }
}

/// `++` or `--` and its place (C11 6.5.2.4 and 6.5.3.1).
pub(crate) fn step<'t>(a: Checked, span: Span) -> Checked<'t>
    ensures sort { the_sort result.sort ≡ step_sort (the_sort a.entry.sort) }
    ensures fault { result.fault ≡ a.entry.fault or_earlier fault_if (lacks_number (the_sort a.entry.sort)) 7 a.entry.span or_earlier fault_if (lacks_place (the_sort a.entry.sort)) 8 a.entry.span }
    ensures span { result.span ≡ span }
{
    Checked {
        sort: value_if(is_number_place(a.sort), the_kind(a.sort)),
        fault: earlier(operand_fault(a), place_fault(a)),
        span,
    }
}

/// Two operands of an operator from `*` to `|` (C11 6.5.5 to 6.5.12).
pub(crate) fn binary<'t>(op: BinOp, a: Checked, b: Checked, span: Span) -> Checked<'t>
    ensures sort { the_sort result.sort ≡ binary_sort op (the_sort a.entry.sort) (the_sort b.entry.sort) }
    ensures fault { result.fault ≡ a.entry.fault or_earlier b.entry.fault or_earlier fault_if (lacks_number (the_sort a.entry.sort)) 7 a.entry.span or_earlier fault_if (lacks_number (the_sort b.entry.sort)) 7 b.entry.span }
    ensures span { result.span ≡ span }
{
    let kind = operation_kind(op, the_kind(a.sort), the_kind(b.sort));
    let numbers = is_number(a.sort) && is_number(b.sort);
    Checked {
        sort: value_if(numbers, binary_kind(op, kind)),
        fault: operands_fault(a, b),
        span,
    }
}

/// `&&` or `||` and its operands (C11 6.5.13 and 6.5.14).
pub(crate) fn logical<'t>(a: Checked, b: Checked, span: Span) -> Checked<'t>
    ensures sort { the_sort result.sort ≡ logical_sort (the_sort a.entry.sort) (the_sort b.entry.sort) }
    ensures fault { result.fault ≡ a.entry.fault or_earlier b.entry.fault or_earlier fault_if (lacks_number (the_sort a.entry.sort)) 7 a.entry.span or_earlier fault_if (lacks_number (the_sort b.entry.sort)) 7 b.entry.span }
    ensures span { result.span ≡ span }
{
    let numbers = is_number(a.sort) && is_number(b.sort);
    Checked {
        sort: value_if(numbers, IntKind::Int),
        fault: operands_fault(a, b),
        span,
    }
}

/// `c ? a : b` (C11 6.5.15).
pub(crate) fn choice<'t>(c: Checked, a: Checked, b: Checked, span: Span) -> Checked<'t>
    ensures sort { the_sort result.sort ≡ choice_sort (the_sort c.entry.sort) (the_sort a.entry.sort) (the_sort b.entry.sort) }
    ensures fault { result.fault ≡ c.entry.fault or_earlier a.entry.fault or_earlier b.entry.fault or_earlier fault_if (lacks_number (the_sort c.entry.sort)) 7 c.entry.span or_earlier fault_if (lacks_number (the_sort a.entry.sort)) 7 a.entry.span or_earlier fault_if (lacks_number (the_sort b.entry.sort)) 7 b.entry.span }
    ensures span { result.span ≡ span }
{
    let kind = common(the_kind(a.sort), the_kind(b.sort));
    let numbers = is_number(c.sort) && (is_number(a.sort) && is_number(b.sort));
    let parts = earlier(earlier(c.fault, a.fault), b.fault);
    let tests = earlier(earlier(parts, number_fault(c)), number_fault(a));
    Checked {
        sort: value_if(numbers, kind),
        fault: earlier(tests, number_fault(b)),
        span,
    }
}

/// An assignment (C11 6.5.16).
pub(crate) fn assign<'t>(a: Checked, b: Checked, span: Span) -> Checked<'t>
    ensures sort { the_sort result.sort ≡ assign_sort (the_sort a.entry.sort) (the_sort b.entry.sort) }
    ensures fault { result.fault ≡ a.entry.fault or_earlier b.entry.fault or_earlier fault_if (lacks_number (the_sort a.entry.sort)) 7 a.entry.span or_earlier fault_if (lacks_place (the_sort a.entry.sort)) 8 a.entry.span or_earlier fault_if (lacks_number (the_sort b.entry.sort)) 7 b.entry.span }
    ensures span { result.span ≡ span }
{
    let serves = is_number_place(a.sort) && is_number(b.sort);
    let target = earlier(earlier(a.fault, b.fault), number_fault(a));
    Checked {
        sort: value_if(serves, the_kind(a.sort)),
        fault: earlier(earlier(target, place_fault(a)), number_fault(b)),
        span,
    }
}

/// A call (C11 6.5.2.2), by what is found of its arguments.
pub(crate) fn call<'t>(
    standing: Standing,
    at: Span,
    callee: Callee<'t>,
    args: &[Expr],
    found: Arguments,
    span: Span,
) -> Checked<'t>
    ensures sort { the_sort result.sort ≡ sort_if (formats (the_callee callee.entry) (exprs_of (map expr_tree args.now)) && found.suits) (given_by (the_callee callee.entry)) }
    ensures fault { result.fault ≡ own_fault (the_standing standing) at (the_callee callee.entry) (exprs_of (map expr_tree args.now)) found.misfits or_earlier found.fault }
    ensures span { result.span ≡ span }
{
    let suits = formats(callee, args) && found.suits;
    let own = own_fault(standing, at, callee, args, found.misfits);
    Checked {
        sort: sort_if(suits, given_by(callee)),
        fault: earlier(own, found.fault),
        span,
    }
}

/// `a[i]` (C11 6.5.2.1).
pub(crate) fn index<'t>(a: Checked<'t>, i: Checked, span: Span) -> Checked<'t>
    ensures sort { the_sort result.sort ≡ index_sort (the_sort a.entry.sort) (the_sort i.entry.sort) }
    ensures fault { result.fault ≡ a.entry.fault or_earlier i.entry.fault or_earlier fault_if (lacks_array (the_sort a.entry.sort)) 6 span or_earlier fault_if (lacks_number (the_sort i.entry.sort)) 6 span }
    ensures span { result.span ≡ span }
{
    let parts = earlier(a.fault, i.fault);
    let base = earlier(parts, array_fault(a.sort, span));
    Checked {
        sort: sort_if(is_number(i.sort), element_of(a.sort)),
        fault: earlier(base, index_fault(i.sort, span)),
        span,
    }
}

/// `a.m` (C11 6.5.2.3).
pub(crate) fn member<'t>(a: Checked<'t>, m: &Name, span: Span) -> Checked<'t>
    ensures sort { the_sort result.sort ≡ member_of m.now.text (the_sort a.entry.sort) }
    ensures fault { result.fault ≡ a.entry.fault or_earlier fault_if (lacks_member m.now.text (the_sort a.entry.sort)) 5 m.now.span }
    ensures span { result.span ≡ span }
{
    Checked {
        sort: member_of(a.sort, m.text.bytes()),
        fault: earlier(a.fault, member_fault(a.sort, m)),
        span,
    }
}
