//! The first pass over an expression.
ghost use Rattle.std.specs.Prelude.{◌≡◌, map};
ghost use Rattle.csub_scopes.specs.Meanings.{scope_of};
ghost use Rattle.csub_tree.specs.Expressions.{expr_tree, exprs_of, span_of};
ghost use Rattle.csub_rules.specs.ExprFaults.{fault};
ghost use Rattle.csub_rules.specs.ExprSorts.{sort_of, sorts_of};
ghost use Rattle.csub_check.specs.Arguments.{all_fault, all_suit, any_misfit};
ghost use Rattle.csub_check.specs.Seen.{the_sort, the_standing, the_wanted};

use crate::arguments::{
    Wanted, after, end_misfits, end_suits, next_fault, next_misfits, next_suits, wanted_of,
};
use crate::checked::{Checked, number_fault};
use crate::node::{
    Arguments, assign, binary, call, cast, character, choice, index, logical, member, name, number,
    paren, step, string, unary,
};
use crate::standing::{Standing, below};
use csub_rules::{callee_of, earlier};
use csub_scopes::Scope;
use csub_tree::{Expr, ExprKind};

/// What an expression is, and the first rule that it breaks, in the order of the source: M1, M5 to M8, M12 to M14 or M20
/// (C11 6.5). It takes no memory and fails for nothing.
#[cycle(check)]
pub fn check<'t>(scope: &'t Scope, standing: Standing, e: &Expr) -> Checked<'t>
    ensures sort { the_sort result.sort ≡ sort_of (scope_of scope.now) (expr_tree e.now) }
    ensures fault { result.fault ≡ fault (scope_of scope.now) (the_standing standing) (expr_tree e.now) }
    ensures span { result.span ≡ span_of (expr_tree e.now) }
{
    let (part, span) = (below(standing), e.span);
    match &e.kind {
        ExprKind::Number(n, suffix) => number(*n, *suffix, span),
        ExprKind::Char(_) => character(span),
        ExprKind::Text(_) => string(span),
        ExprKind::Name(x) => name(scope, x, span),
        ExprKind::Paren(inner) => paren(check(scope, standing, inner), span),
        ExprKind::Unary(op, a) => unary(*op, check(scope, part, a), span),
        ExprKind::Cast(to, a) => cast(to, check(scope, part, a), span),
        ExprKind::Step(_, a) => step(check(scope, part, a), span),
        ExprKind::Binary(op, a, b) => {
            binary(*op, check(scope, part, a), check(scope, part, b), span)
        }
        ExprKind::And(a, b) | ExprKind::Or(a, b) => {
            logical(
                check(scope, part, a),
                check(scope, Standing::Later, b),
                span,
            )
        }
        ExprKind::Choose(c, a, b) => {
            let first = check(scope, Standing::Later, a);
            let second = check(scope, Standing::Later, b);
            choice(check(scope, part, c), first, second, span)
        }
        ExprKind::Assign(_, a, b) => assign(check(scope, part, a), check(scope, part, b), span),
        ExprKind::Call(f, args) => {
            let callee = callee_of(scope, f.text.bytes());
            let found = check_args(scope, part, args.as_slice(), wanted_of(callee));
            call(standing, f.span, callee, args.as_slice(), found, span)
        }
        ExprKind::Index(a, i) => index(check(scope, part, a), check(scope, part, i), span),
        ExprKind::Member(a, m) => member(check(scope, part, a), m, span),
    }
}

/// The arguments of a call, of which this is wanted.
#[cycle(check)]
fn check_args(scope: &Scope, standing: Standing, args: &[Expr], wanted: Wanted) -> Arguments
    ensures suits { result.suits ≡ all_suit (the_wanted wanted.entry) (sorts_of (scope_of scope.now) (exprs_of (map expr_tree args.now))) }
    ensures misfits { result.misfits ≡ any_misfit (the_wanted wanted.entry) (sorts_of (scope_of scope.now) (exprs_of (map expr_tree args.now))) }
    ensures fault { result.fault ≡ all_fault (scope_of scope.now) (the_standing standing) (the_wanted wanted.entry) (exprs_of (map expr_tree args.now)) }
{
    let mut rest = wanted;
    let mut suits = true;
    let mut misfits = false;
    let mut least = None;
    for arg in args {
        let checked = check(scope, standing, arg);
        suits &= next_suits(rest, checked.sort);
        misfits |= next_misfits(rest, checked.sort);
        let fault = next_fault(rest, arg, checked.fault, number_fault(checked));
        least = earlier(least, fault);
        rest = after(rest);
    }
    Arguments {
        suits: suits && end_suits(rest),
        misfits: misfits || end_misfits(rest),
        fault: least,
    }
}
