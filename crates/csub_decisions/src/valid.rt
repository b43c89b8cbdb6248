//! The decision procedure for the validity of programs.
//!
//! Each rule of `specs/Valid` of `csub_validity` has a function of its own, and what a rule joins is joined by `&&`. The
//! limits are looked at first, so that the rest is done for programs of bounded size alone.
ghost use Rattle.std.specs.Prelude.{◌≢◌, ◌↔◌, ◌≤◌, All, AllPairs, IsTrue, length, map};
ghost use Rattle.std.specs.List.{AllWithin};
ghost use Rattle.csub_semantics.specs.declared.function.Function.{Function};
ghost use Rattle.csub_semantics.specs.Syntax.{function_tree};
ghost use Rattle.csub_validity.specs.Valid.{IsValid, most_parameters, most_entries, stmt_count};
ghost use Rattle.csub_decisions.specs.Checks.{tree_of};
ghost use Rattle.csub_decisions.specs.ProgramChecks.{IsWithinLimits, HasEnds, AreNamed, HasFunctions, IsFramed, AreDefined, IsFunction, HasLabels, HasObjects, HasTypes, IsSmall};

mod cases;
mod counts;
mod globals;
mod labels;
mod objects;
mod start;
mod statements;
mod targets;

use crate::calls::is_named;
use crate::names::names_are_own;
use crate::objects::objects_differ;
use crate::site::Definitions;
use crate::tags::tags_agree;
use crate::valid::counts::{has_few_edges, has_few_points};
use crate::valid::globals::are_globals;
use crate::valid::labels::labels_differ;
use crate::valid::objects::{are_declared, has_few_cells};
use crate::valid::start::{has_main, has_start};
use crate::valid::statements::{are_stmts, has_few_stmts};
use crate::valid::targets::NO_LOOP;
use csub_semantics::Function;

/// The most functions beside `#start`.
const MOST_FUNCTIONS: usize = 500;

/// The most parameters of a function.
const MOST_PARAMETERS: usize = 16;

/// Whether the functions and the globals are a valid program. Beside a few passes over the program this takes a
/// comparison of names for each two functions, for each two globals, for each two objects of a function, for each call
/// and function, and for each use of an object and object that may be meant. It passes over a function for each of its
/// labels and each of its `goto`s, and takes a comparison for each two lines of a `switch`. At last it compares each two
/// structs in the types of objects.
pub(crate) fn is_valid(program: Definitions<'_>) -> bool
    ensures { IsTrue result ↔ IsValid (tree_of program.entry) }
{
    names_are_own(program);
    are_defined(program) && tags_agree(program)
}

/// Whether the functions and the globals are what those of a valid program are, apart from the tags of structs.
fn are_defined(program: Definitions<'_>) -> bool
    ensures { IsTrue result ↔ AreDefined (tree_of program.entry) }
{
    is_framed(program) && are_functions(program)
}

/// Whether the functions are within the limits, and are `#start`, `main` and others of different names, and whether the
/// globals are valid.
fn is_framed(program: Definitions<'_>) -> bool
    ensures { IsTrue result ↔ IsFramed (tree_of program.entry) }
{
    has_functions(program.functions) && are_globals(program.globals)
}

fn has_functions(functions: &[Function]) -> bool
    ensures { IsTrue result ↔ HasFunctions (map function_tree functions.now) }
{
    is_within_limits(functions) && are_named(functions)
}

fn are_named(functions: &[Function]) -> bool
    ensures { IsTrue result ↔ AreNamed (map function_tree functions.now) }
{
    has_ends(functions) && names_differ(functions)
}

fn has_ends(functions: &[Function]) -> bool
    ensures { IsTrue result ↔ HasEnds (map function_tree functions.now) }
{
    has_start(functions) && has_main(functions)
}

/// Whether there are at most 500 functions beside `#start`, 10,000 points and 10,000 edges.
fn is_within_limits(functions: &[Function]) -> bool
    ensures { IsTrue result ↔ IsWithinLimits (map function_tree functions.now) }
{
    functions.len() <= MOST_FUNCTIONS + 1 && has_few_points(functions) && has_few_edges(functions)
}

/// Whether no two functions have one name.
fn names_differ(functions: &[Function]) -> bool
    ensures { IsTrue result ↔ AllPairs (λ (f g : Function). f.name ≢ g.name) functions.now }
{
    for i in 0..functions.len() {
        if !is_new(functions, i, functions[i].name.bytes()) {
            return false;
        }
    }
    true
}

/// Whether none of the first `count` functions has a name.
fn is_new(functions: &[Function], count: usize, name: &[u8]) -> bool
    requires { count ≤ length functions.now }
    ensures { IsTrue result ↔ AllWithin (λ (f : Function). f.name ≢ name.now) functions.now 0 count }
{
    for i in 0..count {
        if is_named(&functions[i], name) {
            return false;
        }
    }
    true
}

/// Whether each function is valid in the program.
fn are_functions(program: Definitions<'_>) -> bool
    ensures { IsTrue result ↔ All (λ f. IsFunction (tree_of program.entry) (function_tree f)) program.entry.functions.now }
{
    for function in program.functions {
        if !is_function(program, function) {
            return false;
        }
    }
    true
}

/// Whether a function of the program has few objects that differ, labels that differ, and valid statements.
fn is_function(program: Definitions<'_>, function: &Function) -> bool
    ensures { IsTrue result ↔ IsFunction (tree_of program.entry) (function_tree function.now) }
{
    has_labels(function) && are_stmts(program, function, NO_LOOP, &function.body)
}

fn has_labels(function: &Function) -> bool
    ensures { IsTrue result ↔ HasLabels (function_tree function.now) }
{
    has_objects(function) && labels_differ(function)
}

fn has_objects(function: &Function) -> bool
    ensures { IsTrue result ↔ HasObjects (function_tree function.now) }
{
    has_types(function) && objects_differ(function)
}

fn has_types(function: &Function) -> bool
    ensures { IsTrue result ↔ HasTypes (function_tree function.now) }
{
    is_small(function) && are_declared(function)
}

/// Whether a frame of the function has at most 4,096 cells, and the function few parameters and lines.
fn is_small(function: &Function) -> bool
    ensures { IsTrue result ↔ IsSmall (function_tree function.now) }
{
    has_few_cells(function) && is_short(function)
}

/// Whether a function has at most 16 parameters, and at most 1,048,576 lines of its own.
fn is_short(function: &Function) -> bool
    ensures { IsTrue result ↔ ((length (function_tree function.now).params ≤ most_parameters) × (stmt_count (function_tree function.now).body ≤ most_entries)) }
{
    function.params.len() <= MOST_PARAMETERS && has_few_stmts(&function.body)
}
