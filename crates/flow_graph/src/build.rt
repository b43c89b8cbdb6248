//! The points of a program, and its objects of file scope.
ghost use Rattle.std.specs.Prelude.{◌≡◌, ◌<◌, ◌+◌, ◌^◌, ◌++◌, IfOk, [], ◌∷◌, length, map, reverse};
ghost use Rattle.csub_semantics.specs.Types.{global_tree};
ghost use Rattle.csub_semantics.specs.Labels.{enters, exits};
ghost use Rattle.csub_semantics.specs.Points.{entry, exit, next};
ghost use Rattle.csub_semantics.specs.Successors.{way};
ghost use Rattle.csub_semantics.specs.Flows.{end_rule as end_rule'};
ghost use Rattle.csub_semantics.specs.Syntax.{function_tree};
ghost use Rattle.flow_graph.specs.Numbers.{numbered_node, numbered_point, numbered_function, of_function, count_function, count_program, exit_number, by_exit, jump_of, enter_list, list_numbered, function_numbered, program_numbered, functions_numbered};

use crate::count::count_all;
use crate::emit::{Around, emit_list};
use crate::jumps::jumps_of;
use crate::node::{GraphFunction, GraphNode, GraphPoint, one_way, push_node};
use crate::onward::all_to;
use csub_semantics::{
    EndRule, Function, GlobalVar, IntKind, Label, Point, Span, Text, copy_global,
};
use std::alloc::{AllocError, Global};

/// The functions and the points of a program, each by its number.
#[derive(Drop)]
pub struct Listed {
    /// The functions.
    pub functions: Vec<GraphFunction>,
    /// The points.
    pub points: Vec<GraphPoint>,
}

/// What the end of a function asks for.
fn end_rule(name: &Text, result_kind: Option<IntKind>) -> EndRule
    ensures { result ≡ end_rule' name.now result_kind }
{
    if name.bytes() == b"#start".as_slice() {
        EndRule::Start
    } else if name.bytes() == b"main".as_slice() {
        EndRule::Main
    } else {
        match result_kind {
            None => EndRule::Nothing,
            Some(_) => EndRule::Value,
        }
    }
}

/// The exit of a function, which leads nowhere.
fn exit_alone(alloc: Global, function: &Function) -> Result<Vec<GraphNode>, AllocError>
    ensures { IfOk result (λ made. map numbered_node made.items ≡ record { point = exit; label = exits (end_rule' function.now.name function.now.result); span = function.now.span; ways = [] } ∷ []) }
{
    let mut nodes = Vec::new(alloc);
    let label = Label::Exit(end_rule(&function.name, function.result));
    push_node(
        &mut nodes,
        Point::Exit,
        label,
        function.span,
        Vec::new(alloc),
    )?;
    Ok(nodes)
}

/// Appends the entry of a function, which leads to the point with the number `enter`.
fn push_entry(
    alloc: Global,
    span: Span,
    enter: u32,
    nodes: &mut Vec<GraphNode>,
) -> Result<(), AllocError>
    ensures { IfOk result (λ _. map numbered_node nodes.new.items ≡ map numbered_node nodes.old.items ++ record { point = entry; label = enters; span = span; ways = way next enter ∷ [] } ∷ []) }
{
    let ways = one_way(alloc, enter)?;
    push_node(nodes, Point::Entry, Label::Entry, span, ways)
}

/// Appends the points of the body of a function, last first, its entry having the number `start` and its exit `exit`;
/// the point at which the body begins.
fn push_body(
    alloc: Global,
    function: &Function,
    start: u32,
    exit: u32,
    nodes: &mut Vec<GraphNode>,
) -> Result<u32, AllocError>
    requires { exit ≡ exit_number (function_tree function.now) start }
    ensures enter { IfOk result (λ enter. enter ≡ enter_list (function_tree function.now).body (start + 1) (by_exit (function_tree function.now) start)) }
    ensures nodes { IfOk result (λ _. map numbered_node nodes.new.items ≡ map numbered_node nodes.old.items ++ reverse (list_numbered (function_tree function.now).body 0 (start + 1) [] (jump_of (function_tree function.now) start) (by_exit (function_tree function.now) start))) }
{
    let body = function.body.as_slice();
    let jumps = jumps_of(alloc, body, exit)?;
    let around = Around {
        jumps: &jumps,
        onward: all_to(exit),
    };
    let path: &[u32] = &[];
    let begin = emit_list(alloc, body, path, exit, around, nodes)?;
    Ok(begin.enter)
}

/// The points of a function, its entry having the number `start`.
fn list_function(
    alloc: Global,
    function: &Function,
    start: u32,
) -> Result<Vec<GraphNode>, AllocError>
    requires { start + count_function (function_tree function.now) < 2 ^ 30 }
    ensures { IfOk result (λ made. map numbered_node made.items ≡ function_numbered (function_tree function.now) start) }
{
    let exit = start + 1 + count_all(function.body.as_slice());
    let mut nodes = exit_alone(alloc, function)?;
    let enter = push_body(alloc, function, start, exit, &mut nodes)?;
    push_entry(alloc, function.span, enter, &mut nodes)?;
    nodes.reverse();
    Ok(nodes)
}

/// Appends the points of the function with a number.
fn append(
    points: &mut Vec<GraphPoint>,
    function: u32,
    nodes: Vec<GraphNode>,
) -> Result<(), AllocError>
    ensures { IfOk result (λ _. map numbered_point points.new.items ≡ map numbered_point points.old.items ++ map (of_function function) (map numbered_node nodes.items)) }
{
    for node in nodes {
        points.push(GraphPoint { function, node })?;
    }
    Ok(())
}

/// The functions and the points of a program, function by function.
pub fn list_points(alloc: Global, functions: &[Function]) -> Result<Listed, AllocError>
    requires few_functions { length functions.now < 2 ^ 30 }
    requires few_points { count_program (map function_tree functions.now) < 2 ^ 30 }
    ensures functions { IfOk result (λ made. map numbered_function made.functions.items ≡ functions_numbered (map function_tree functions.now) 0) }
    ensures points { IfOk result (λ made. map numbered_point made.points.items ≡ program_numbered (map function_tree functions.now) 0 0) }
{
    let mut listed = Vec::new(alloc);
    let mut points = Vec::new(alloc);
    for i in 0..functions.len() {
        let function = &functions[i];
        let start = points.len() as u32;
        let nodes = list_function(alloc, function, start)?;
        let exit = start + (nodes.len() as u32 - 1);
        append(&mut points, i as u32, nodes)?;
        let name = function.name.copy()?;
        listed.push(GraphFunction { name, start, exit })?;
    }
    Ok(Listed {
        functions: listed,
        points,
    })
}

/// Equal objects of file scope, in the same order.
pub fn copy_globals(alloc: Global, globals: &[GlobalVar]) -> Result<Vec<GlobalVar>, AllocError>
    ensures { IfOk result (λ made. map global_tree made.items ≡ map global_tree globals.now) }
{
    let mut made = Vec::new(alloc);
    for global in globals {
        made.push(copy_global(alloc, global)?)?;
    }
    Ok(made)
}
