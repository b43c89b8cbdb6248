//! Calls (C11 6.5.2.2).
ghost use Rattle.std.specs.Prelude.{◌≡◌, ◌+◌, ◌++◌, ◌∷◌, [], false, IfOk, OnOk, length, map, option_map};
ghost use Rattle.csub_tree.specs.Expressions.{Call, expr_tree, exprs_of};
ghost use Rattle.csub_objects.specs.Meaning.{member_tree};
ghost use Rattle.csub_scopes.specs.Meanings.{scope_of};
ghost use Rattle.csub_semantics.specs.Trees.{arg_tree};
ghost use Rattle.csub_semantics.specs.Labels.{calls, call_tree};
ghost use Rattle.csub_semantics.specs.Syntax.{call_at};
ghost use Rattle.csub_validity.specs.Valid.{temp_of};
ghost use Rattle.csub_rules.specs.Callees.{result_sort};
ghost use Rattle.csub_rules.specs.Views.{the_callee};
ghost use Rattle.csub_resolution.specs.Lines.{exit_argument, exits_with, is_call, is_own};
ghost use Rattle.csub_resolution.specs.Values.{no_place, params_in, result_value};
ghost use Rattle.csub_lower.specs.Made.{made_place, made_sort, made_value};

use crate::boxes::boxed_value;
use crate::definitions::Definitions;
use crate::made::Made;
use csub_objects::{Member, copy_type};
use csub_rules::{Callee, callee_of};
use csub_scopes::Scope;
use csub_semantics::{CallLabel, RArg, RCall, RExpr};
use csub_tree::{Expr, ExprKind, Name};
use csub_types::IntKind;
use std::alloc::{AllocError, Global};

/// Whether what is called is one of the source's functions.
fn is_own(callee: Callee) -> bool
    ensures { result ≡ is_own (the_callee callee.entry) }
{
    match callee {
        Callee::User(_) => true,
        Callee::Unknown => false,
        Callee::Getchar | Callee::Putchar | Callee::Printf | Callee::Exit => false,
    }
}

/// Whether an expression is a call of one of the source's functions, in parentheses or not. Such a call has no point of
/// its own beside it.
pub fn is_own_call(scope: &Scope, e: &Expr) -> bool
    ensures { result ≡ is_call (scope_of scope.now) (expr_tree e.now) }
{
    match &e.kind {
        ExprKind::Paren(inner) => is_own_call(scope, inner),
        ExprKind::Call(f, _) => is_own(callee_of(scope, f.text.bytes())),
        _ => false,
    }
}

/// The first argument of a call, where `exit` is called.
fn exit_argument<'e>(callee: Callee, args: &'e [Expr]) -> Option<&'e Expr>
    ensures { option_map (λ status. expr_tree status.now) result ≡ exit_argument (the_callee callee.entry) (exprs_of (map expr_tree args.now)) }
{
    match callee {
        Callee::Exit => args.first(),
        Callee::Unknown | Callee::User(_) => None,
        Callee::Getchar | Callee::Putchar | Callee::Printf => None,
    }
}

/// The argument of `exit`, where an expression is a call of it, in parentheses or not (C11 7.22.4.4).
pub fn exits_with<'e>(scope: &Scope, e: &'e Expr) -> Option<&'e Expr>
    ensures { option_map (λ status. expr_tree status.now) result ≡ exits_with (scope_of scope.now) (expr_tree e.now) }
{
    match &e.kind {
        ExprKind::Paren(inner) => exits_with(scope, inner),
        ExprKind::Call(f, args) => {
            exit_argument(callee_of(scope, f.text.bytes()), args.as_slice())
        }
        _ => None,
    }
}

/// The same members. An `Err` is want of memory.
fn copy_members(alloc: Global, members: &[Member]) -> Result<Vec<Member>, AllocError>
    ensures { IfOk result (λ made. map member_tree made.items ≡ map member_tree members.now) }
{
    let mut made = Vec::new(alloc);
    for member in members {
        let name = member.name.copy()?;
        let ctype = copy_type(&member.ctype)?;
        made.push(Member { name, ctype })?;
    }
    Ok(made)
}

/// The temporary of the call of a number in its part, where the call gives something.
fn temp_of(gives: Option<IntKind>, number: u32) -> Option<u32>
    ensures { result ≡ temp_of gives number }
{
    gives.map(|_| number)
}

/// A call of one of the source's functions, which gives a number of a kind or nothing, as the number-th of its part. An
/// `Err` is want of memory.
fn call_label(
    alloc: Global,
    definitions: &Definitions,
    f: &Name,
    args: Vec<RArg>,
    gives: Option<IntKind>,
    number: u32,
) -> Result<CallLabel, AllocError>
    ensures { IfOk result (λ c. call_tree c ≡ record { callee = f.now.text; params = params_in definitions.now f.now.text; result = gives; args = map arg_tree args.items; temp = temp_of gives number }) }
{
    let callee = f.text.copy()?;
    let params = copy_members(alloc, definitions.params(f.text.bytes()))?;
    Ok(CallLabel {
        callee,
        params,
        result: gives,
        args,
        temp: temp_of(gives, number),
    })
}

/// What is left of a call that was made as the number-th of its part: what its temporary holds, or nothing.
fn result_node<'t>(
    alloc: Global,
    gives: Option<IntKind>,
    number: u32,
) -> Result<Made<'t>, AllocError>
    ensures sort { IfOk result (λ m. made_sort m ≡ result_sort gives) }
    ensures place { IfOk result (λ m. made_place m ≡ no_place) }
    ensures value { IfOk result (λ m. made_value m ≡ result_value gives number) }
{
    match gives {
        None => Ok(Made::Void),
        Some(kind) => {
            let value = boxed_value(alloc, RExpr::Temp(number, kind))?;
            Ok(Made::Value(value, kind))
        }
    }
}

/// Appends a call of one of the source's functions, and gives what is left of it. An `Err` is want of memory, or a part
/// with more than 4,294,967,295 calls.
pub(crate) fn make_call<'t>(
    alloc: Global,
    definitions: &Definitions,
    f: &Name,
    args: Vec<RArg>,
    gives: Option<IntKind>,
    made: &mut Vec<RCall>,
) -> Result<Made<'t>, AllocError>
    ensures sort { IfOk result (λ m. made_sort m ≡ result_sort gives) }
    ensures place { IfOk result (λ m. made_place m ≡ no_place) }
    ensures value { IfOk result (λ m. made_value m ≡ result_value gives (length made.old.items + 1)) }
    ensures calls { OnOk result (map call_at made.new.items ≡ map call_at made.old.items
        ++ record { label = calls (record { callee = f.now.text; params = params_in definitions.now f.now.text; result = gives; args = map arg_tree args.items; temp = temp_of gives (length made.old.items + 1) }); span = f.now.span } ∷ []) }
    ensures count { OnOk result (length made.new.items ≡ length made.old.items + 1) }
{
    if made.len() >= 4_294_967_295 {
        return Err(AllocError);
    }
    let number = made.len() as u32 + 1;
    let label = call_label(alloc, definitions, f, args, gives, number)?;
    made.push(RCall {
        label,
        span: f.span,
    })?;
    result_node(alloc, gives, number)
}
