//! The arguments of calls, as they fit what is called.
ghost use Rattle.std.specs.Prelude.{◌≡◌, ◌<◌, ◌∷◌, false, IsTrue, drop, length, map};
ghost use Rattle.csub_tree.specs.Expressions.{Call, expr_tree, exprs_of};
ghost use Rattle.csub_objects.specs.Meaning.{type_tree};
ghost use Rattle.csub_scopes.specs.Meanings.{scope_of};
ghost use Rattle.csub_rules.specs.Callees.{callee_of, printf_function, putchar_function, take_all, user_function};
ghost use Rattle.csub_rules.specs.ExprSorts.{sorts_of};
ghost use Rattle.csub_rules.specs.Fine.{FineKind, FineNumbers};
ghost use Rattle.csub_lower.specs.Calls.{FineEach};

use csub_objects::CType;
use csub_scopes::{Scope, Signature};
use csub_tree::{Expr, Name};

/// The arguments of a call that breaks no rule.
pub(crate) fn call_args<'e>(scope: &Scope, f: &Name, args: &'e Vec<Expr>) -> &'e [Expr]
    requires { FineKind (scope_of scope.now) false (Call f.now (exprs_of (map expr_tree args.now.items))) }
    ensures same { result.now ≡ args.now.items }
    ensures fine { FineKind (scope_of scope.now) false (Call f.now (exprs_of (map expr_tree result.now))) }
{
    args.as_slice()
}

/// The arguments of a call of one of the source's functions, with the types of its parameters, which they fit.
pub(crate) fn fitting_args<'t, 'e>(
    scope: &Scope,
    f: &Name,
    args: &'e [Expr],
    signature: &'t Signature,
) -> (&'e [Expr], &'t [CType])
    requires fine { FineKind (scope_of scope.now) false (Call f.now (exprs_of (map expr_tree args.now))) }
    requires callee { callee_of (scope_of scope.now) f.now.text ≡ user_function (map type_tree signature.now.params.items) signature.now.result }
    ensures args { result.0.now ≡ args.now }
    ensures types { result.1.now ≡ signature.now.params.items }
    ensures fine { FineEach (scope_of scope.now) (exprs_of (map expr_tree result.0.now)) }
    ensures taken { IsTrue (take_all (map type_tree result.1.now) (sorts_of (scope_of scope.now) (exprs_of (map expr_tree result.0.now)))) }
{
    (args, signature.params.as_slice())
}

/// The argument of a `putchar`, which is a number.
pub(crate) fn output_arg<'e>(scope: &Scope, f: &Name, args: &'e [Expr]) -> &'e [Expr]
    requires fine { FineKind (scope_of scope.now) false (Call f.now (exprs_of (map expr_tree args.now))) }
    requires callee { callee_of (scope_of scope.now) f.now.text ≡ putchar_function }
    ensures same { result.now ≡ args.now }
    ensures numbers { FineNumbers (scope_of scope.now) (exprs_of (map expr_tree result.now)) }
    ensures one { length result.now ≡ 1 }
{
    args
}

/// The arguments of a `printf` behind its format, which are numbers.
pub(crate) fn printed_args<'e>(scope: &Scope, f: &Name, args: &'e [Expr]) -> &'e [Expr]
    requires fine { FineKind (scope_of scope.now) false (Call f.now (exprs_of (map expr_tree args.now))) }
    requires callee { callee_of (scope_of scope.now) f.now.text ≡ printf_function }
    ensures behind { result.now ≡ drop 1 args.now }
    ensures numbers { FineNumbers (scope_of scope.now) (exprs_of (map expr_tree result.now)) }
{
    match args.split_first() {
        None => unreachable!(),
        Some((_, rest)) => rest,
    }
}

/// The first of some types, and those behind it.
pub(crate) fn next_type<'t>(types: &'t [CType]) -> (&'t CType, &'t [CType])
    requires { 0 < length types.now }
    ensures { types.now ≡ result.0.now ∷ result.1.now }
{
    match types.split_first() {
        None => unreachable!(),
        Some((first, rest)) => (first, rest),
    }
}
