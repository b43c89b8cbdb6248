//! Whether `#start` and `main` are there as they have to be.
ghost use Rattle.std.specs.Prelude.{◌≡◌, ◌↔◌, [], ◌∷◌, Some, None, IsTrue, map};
ghost use Rattle.csub_types.specs.declared.kind.IntKind.TheVariants.{Int};
ghost use Rattle.csub_semantics.specs.Labels.{calls, call_tree, label_tree};
ghost use Rattle.csub_semantics.specs.Syntax.{part_tree, stmt_tree, stmts_of, function_tree};
ghost use Rattle.csub_semantics.specs.Flows.{start_name, function_in};
ghost use Rattle.csub_objects.specs.Types.{main_name};
ghost use Rattle.csub_validity.specs.Valid.{BeginsWithStart, IsStart, IsStartBody, IsStartPart, IsMain, start_call};

use crate::calls::{find_function, is_named};
use csub_semantics::{CallLabel, Function, Label, RPart, RStmt};
use csub_types::IntKind;

/// Whether `main` is defined as an `int` function without parameters (C11 5.1.2.2.1).
pub(crate) fn has_main(functions: &[Function]) -> bool
    ensures { IsTrue result ↔ IsMain (function_in (map function_tree functions.now) main_name) }
{
    match find_function(functions, b"main") {
        None => false,
        Some(main) => main.params.is_empty() && main.result == Some(IntKind::Int),
    }
}

/// Whether the first function is `#start`.
pub(crate) fn has_start(functions: &[Function]) -> bool
    ensures { IsTrue result ↔ BeginsWithStart (map function_tree functions.now) }
{
    match functions {
        [] => false,
        [first, ..] => is_start(first),
    }
}

/// Whether a function is `#start`, which does nothing but call `main`.
fn is_start(function: &Function) -> bool
    ensures { IsTrue result ↔ IsStart (function_tree function.now) }
{
    has_start_head(function) && has_start_frame(function) && is_start_body(&function.body)
}

fn has_start_head(function: &Function) -> bool
    ensures { IsTrue result ↔ ((function.now.name ≡ start_name) × (((function_tree function.now).params ≡ []) × (function.now.result ≡ None))) }
{
    is_named(function, b"#start") && function.params.is_empty() && function.result.is_none()
}

fn has_start_frame(function: &Function) -> bool
    ensures { IsTrue result ↔ (((function_tree function.now).locals ≡ []) × (function.now.temps ≡ 1)) }
{
    function.locals.is_empty() && function.temps == 1
}

fn is_start_body(body: &[RStmt]) -> bool
    ensures { IsTrue result ↔ IsStartBody (stmts_of (map stmt_tree body.now)) }
{
    match body {
        [stmt] => match stmt {
            RStmt::Parts(parts) => are_start_parts(parts),
            _ => false,
        },
        _ => false,
    }
}

fn are_start_parts(parts: &[RPart]) -> bool
    ensures { IsTrue result ↔ IsStartPart (map part_tree parts.now) }
{
    match parts {
        [part] => is_start_part(part),
        _ => false,
    }
}

/// Whether the only stage of a part is the call of `main`.
fn is_start_part(part: &RPart) -> bool
    ensures { IsTrue result ↔ IsStartPart (part_tree part.now ∷ []) }
{
    match &part.main {
        None => match part.calls.as_slice() {
            [call] => is_start_call(&call.label),
            _ => false,
        },
        Some(label) => part.calls.is_empty() && is_start_label(label),
    }
}

fn is_start_label(label: &Label) -> bool
    ensures { IsTrue result ↔ (label_tree label.now ≡ start_call) }
{
    match label {
        Label::Call(call) => is_start_call(call),
        _ => false,
    }
}

/// Whether a call is that of `main`, whose result goes into the temporary 1.
fn is_start_call(call: &CallLabel) -> bool
    ensures { IsTrue result ↔ (calls (call_tree call.now) ≡ start_call) }
{
    call.callee.bytes() == b"main".as_slice() && takes_nothing(call) && gives_status(call)
}

/// Whether a call has no argument, and its callee no parameter.
fn takes_nothing(call: &CallLabel) -> bool
    ensures { IsTrue result ↔ (((call_tree call.now).args ≡ []) × ((call_tree call.now).params ≡ [])) }
{
    call.args.is_empty() && call.params.is_empty()
}

fn gives_status(call: &CallLabel) -> bool
    ensures { IsTrue result ↔ ((call.now.result ≡ Some Int) × (call.now.temp ≡ Some 1)) }
{
    call.result == Some(IntKind::Int) && call.temp == Some(1)
}
