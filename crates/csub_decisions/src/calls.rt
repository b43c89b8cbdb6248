//! Whether calls fit the functions that they call.
ghost use Rattle.std.specs.Prelude.{◌≡◌, ◌↔◌, ◌<◌, ◌≤◌, map, IsTrue, IfSome, bytes_eq};
ghost use Rattle.std.specs.Option.{option_map};
ghost use Rattle.csub_objects.specs.Meaning.{type_tree, member_tree};
ghost use Rattle.csub_semantics.specs.Trees.{arg_tree};
ghost use Rattle.csub_semantics.specs.Labels.{call_tree};
ghost use Rattle.csub_semantics.specs.Syntax.{part_tree, function_tree};
ghost use Rattle.csub_semantics.specs.Flows.{function_in};
ghost use Rattle.csub_validity.specs.Valid.{scope_of, IsDefinedAs, IsArg, AreArgs, IsCall, RefersTo, temp_of};
ghost use Rattle.csub_decisions.specs.Checks.{tree_of, scope_at, AreCalls};

use crate::expressions::{is_expr, is_place};
use crate::site::{Definitions, Site};
use csub_objects::{element_type, is_number, same_members, same_type};
use csub_semantics::{CType, CallLabel, Function, Member, RArg, RPart};
use csub_validity::places::place_type;

/// Whether each of the calls of a function's part, numbered from 1, fits its callee in the program, as [`is_call`] says
/// it of one.
pub fn are_calls(program: Definitions<'_>, function: &Function, part: &RPart) -> bool
    ensures { IsTrue result ↔ AreCalls (tree_of program.entry) (scope_of (tree_of program.entry) (function_tree function.now) (part_tree part.now)) function.now.temps part.now.calls.items }
{
    let calls = part.calls.as_slice();
    for i in 0..calls.len() {
        let number = i + 1;
        let site = Site {
            program,
            function,
            part,
            number,
        };
        if !is_call(site, &calls[i].label) {
            return false;
        }
    }
    true
}

/// Whether a call fits its callee, and the temporaries of its function's parts: the callee is in the program, with
/// the parameters and the result type of the call's label; the arguments are as many as the parameters, each a valid
/// expression (C11 6.5.2.2p2); and the call has a temporary, that of its stage's number, exactly where its callee has a
/// result type.
pub fn is_call(site: Site<'_>, call: &CallLabel) -> bool
    ensures { IsTrue result ↔ IsCall (tree_of site.entry.program) (scope_at site.entry) site.entry.function.now.temps site.entry.number (call_tree call.now) }
{
    is_defined(site.program.functions, call)
        && are_args(site, &call.params, &call.args)
        && has_temp(site.function.temps, site.number, call)
}

/// Whether arguments fit parameters: as many, and each fits.
fn are_args(site: Site<'_>, params: &[Member], args: &[RArg]) -> bool
    ensures { IsTrue result ↔ AreArgs (scope_at site.entry) site.entry.number (map member_tree params.now) (map arg_tree args.now) }
{
    if params.len() != args.len() {
        return false;
    }
    for i in 0..params.len() {
        if !is_arg(site, &params[i], &args[i]) {
            return false;
        }
    }
    true
}

/// Whether an argument fits its parameter: a valid expression a number, and a valid place of an array a parameter that
/// refers to elements of its type.
fn is_arg(site: Site<'_>, param: &Member, arg: &RArg) -> bool
    ensures { IsTrue result ↔ IsArg (scope_at site.entry) site.entry.number (member_tree param.now) (arg_tree arg.now) }
{
    match arg {
        RArg::Value(value) => is_number(&param.ctype) && is_expr(site, value),
        RArg::Array(place) => {
            refers_to(&param.ctype, place_type(place)) && is_place(site, place)
        }
    }
}

/// Whether a parameter is one that may refer to a place of a type.
fn refers_to(param: &CType, place: Option<&CType>) -> bool
    ensures { IsTrue result ↔ RefersTo (type_tree param.now) (option_map (λ t. type_tree t.now) place.entry) }
{
    let CType::Loose(asked) = param else {
        return false;
    };
    match place {
        Some(array) => match element_type(array) {
            Some(given) => same_type(given, asked.ctype()),
            None => false,
        },
        None => false,
    }
}

/// Whether the callee is defined with the parameters and the result type that the call's label has.
fn is_defined(functions: &[Function], call: &CallLabel) -> bool
    ensures { IsTrue result ↔ IsDefinedAs (function_in (map function_tree functions.now) (call_tree call.now).callee) (call_tree call.now) }
{
    match find_function(functions, call.callee.bytes()) {
        None => false,
        Some(callee) => {
            same_members(&callee.params, &call.params) && callee.result == call.result
        }
    }
}

/// Whether the `number`-th call of a part has the temporary of its number, one of its function's, exactly where its
/// callee has a result type.
fn has_temp(temps: u32, number: usize, call: &CallLabel) -> bool
    ensures { IsTrue result ↔ ((call.now.temp ≡ temp_of call.now.result number) × IfSome call.now.temp (λ t. t ≤ temps)) }
{
    match (call.result, call.temp) {
        (None, None) => true,
        (Some(_), Some(temp)) => temp as usize == number && temp <= temps,
        _ => false,
    }
}

/// The function of a name, and `None` where there is none. It is looked for from the front, so this takes at most as
/// many comparisons of names as there are functions, which are at most 501.
pub fn find_function<'a>(functions: &'a [Function], name: &[u8]) -> Option<&'a Function>
    ensures { option_map (λ f. function_tree f.now) result ≡ function_in (map function_tree functions.now) name.now }
{
    for function in functions {
        if is_named(function, name) {
            return Some(function);
        }
    }
    None
}

/// Whether a function has a name.
pub fn is_named(function: &Function, name: &[u8]) -> bool
    ensures test { result ≡ bytes_eq function.now.name name.now }
    ensures same { IsTrue result ↔ (function.now.name ≡ name.now) }
{
    function.name.bytes() == name
}
