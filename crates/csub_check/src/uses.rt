//! Expressions where they stand by themselves, and enum constants.
ghost use Rattle.std.specs.Prelude.{◌≡◌, IfSome, option_map};
ghost use Rattle.csub_types.specs.Kinds.{IsOf};
ghost use Rattle.csub_types.specs.declared.kind.IntKind.TheVariants.{Int};
ghost use Rattle.csub_scopes.specs.Meanings.{scope_of};
ghost use Rattle.csub_tree.specs.Expressions.{expr_tree};
ghost use Rattle.csub_rules.specs.Constants.{constant, enum_value, in_int};
ghost use Rattle.csub_rules.specs.Uses.{as_constant, enum_fault, has_effect, lacks_constant, serves, standing_of, use_fault};
ghost use Rattle.csub_check.specs.Seen.{the_sort, the_standing, the_use};

use crate::constants::constant;
use crate::expression::check;
use crate::sort::{Sort, is_number, lacks};
use crate::standing::Standing;
use csub_rules::{Fault, earlier, fault_if};
use csub_scopes::Scope;
use csub_text::Span;
use csub_tree::Expr;

/// What an expression that stands by itself is used for.
#[derive(Clone, Copy, Debug, PartialEq, Eq)]
pub enum Use {
    /// It is a whole expression statement (C11 6.8.3).
    Statement,
    /// It is the first or the third part of a `for` (C11 6.8.5.3).
    Part,
    /// A number is asked for.
    Number,
    /// A constant is asked for.
    Constant,
}

/// How an expression stands that is used so.
fn standing_of(usage: Use) -> Standing
    ensures { the_standing result ≡ standing_of (the_use usage) }
{
    match usage {
        Use::Statement => Standing::Whole,
        Use::Part => Standing::Operand,
        Use::Number => Standing::Operand,
        Use::Constant => Standing::Operand,
    }
}

/// Whether an expression is a number, a call without a value, or `exit`.
fn has_effect(sort: Sort) -> bool
    ensures { result ≡ has_effect (the_sort sort.entry) }
{
    match sort {
        Sort::Place(_) => is_number(sort),
        Sort::Value(_) => true,
        Sort::Void => true,
        Sort::Unknown => true,
    }
}

/// Whether an expression serves for a use.
fn serves(usage: Use, sort: Sort) -> bool
    ensures { result ≡ serves (the_use usage) (the_sort sort.entry) }
{
    match usage {
        Use::Statement => has_effect(sort),
        Use::Part => has_effect(sort),
        Use::Number => is_number(sort),
        Use::Constant => is_number(sort),
    }
}

/// Whether a constant is asked for and the expression is none.
fn lacks_constant(scope: &Scope, usage: Use, e: &Expr) -> bool
    ensures { result ≡ lacks_constant (scope_of scope.now) (the_use usage) (expr_tree e.now) }
{
    match usage {
        Use::Statement => false,
        Use::Part => false,
        Use::Number => false,
        Use::Constant => constant(scope, e).is_none(),
    }
}

/// The first rule that an expression breaks which stands by itself: one of [`check`], M7 where it doesn't serve, or M9
/// where it is no constant (C11 6.6p3 and p4). It takes no memory.
pub fn check_use(scope: &Scope, usage: Use, e: &Expr) -> Option<Fault>
    ensures { result ≡ use_fault (scope_of scope.now) (the_use usage) (expr_tree e.now) }
{
    let checked = check(scope, standing_of(usage), e);
    let unfit = lacks(checked.sort, serves(usage, checked.sort));
    let own = earlier(checked.fault, fault_if(unfit, 7, checked.span));
    let broken = lacks_constant(scope, usage, e);
    earlier(own, fault_if(broken, 9, checked.span))
}

/// The value of an expression of which a constant is asked for, and the first rule that it breaks there.
pub fn check_constant(scope: &Scope, e: &Expr) -> (Option<i64>, Option<Fault>)
    ensures value { result.0 ≡ constant (scope_of scope.now) (expr_tree e.now) }
    ensures fault { result.1 ≡ use_fault (scope_of scope.now) as_constant (expr_tree e.now) }
{
    (constant(scope, e), check_use(scope, Use::Constant, e))
}

/// The value, where `int` has it.
fn in_int(value: i64) -> Option<i64>
    ensures value { result ≡ in_int value }
    ensures of_int { IfSome result (IsOf Int) }
{
    if -2_147_483_648 <= value && value <= 2_147_483_647 {
        Some(value)
    } else {
        None
    }
}

/// The value of an enum constant, where `int` has it (C11 6.7.2.2p2): that of its expression, or `next`, which is one more
/// than the one before it (p3).
pub fn enum_value(scope: &Scope, next: i64, value: &Option<Expr>) -> Option<i64>
    ensures value { result ≡ enum_value (scope_of scope.now) next (option_map expr_tree value.now) }
    ensures of_int { IfSome result (IsOf Int) }
{
    match value {
        None => in_int(next),
        Some(e) => in_int(constant(scope, e)?),
    }
}

/// The first rule that an enum constant breaks, whose name stands at a place: one of its expression, or M9 where `int`
/// doesn't have its value.
pub fn check_enum_constant(
    scope: &Scope,
    next: i64,
    at: Span,
    value: &Option<Expr>,
) -> Option<Fault>
    ensures { result ≡ enum_fault (scope_of scope.now) next at (option_map expr_tree value.now) }
{
    let broken = enum_value(scope, next, value).is_none();
    match value {
        None => fault_if(broken, 9, at),
        Some(e) => earlier(
            check_use(scope, Use::Number, e),
            fault_if(broken, 9, e.span),
        ),
    }
}
