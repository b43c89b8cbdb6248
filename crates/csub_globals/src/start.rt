//! `#start`, which calls `main`.
ghost use Rattle.std.specs.Prelude.{◌≡◌, ◌∷◌, [], IfOk, bytes_eq, find, map, option_map};
ghost use Rattle.csub_objects.specs.Types.{main_name};
ghost use Rattle.csub_semantics.specs.Syntax.{function_tree, no_stmt, more_stmts, part_tree, parts, stmt_tree, stmts_of};
ghost use Rattle.csub_validity.specs.Valid.{start_call};
ghost use Rattle.csub_resolution.specs.Programs.{span_of_main, start};

use csub_nodes::node::{parts_node, push_line};
use csub_semantics::{CallLabel, Function, RCall, RPart, RStmt};
use csub_text::{Span, Text};
use csub_types::IntKind;
use std::alloc::{AllocError, Global};

/// Whether a function is `main`.
fn is_main(f: &Function) -> bool
    ensures { result ≡ bytes_eq f.now.name main_name }
{
    f.name.bytes() == b"main".as_slice()
}

/// The first function that is `main`.
fn main_of(functions: &[Function]) -> Option<&Function>
    ensures { option_map (λ f. f.now) result ≡ find (λ f. bytes_eq f.name main_name) functions.now }
{
    functions.iter().find(|f| is_main(f))
}

/// Where the name of `main` stands in its definition; before the first byte where there is none.
fn span_of_main(functions: &[Function]) -> Span
    ensures { result ≡ span_of_main (map function_tree functions.now) }
{
    match main_of(functions) {
        None => Span { start: 0, end: 0 },
        Some(main) => main.span,
    }
}

/// The call of `main` into the temporary 1, named by a place.
fn start_part(alloc: Global, at: Span) -> Result<Box<RPart>, AllocError>
    ensures { IfOk result (λ made. part_tree made.value ≡ record { label = start_call; span = at; part = at } ∷ []) }
{
    let label = CallLabel {
        callee: Text::new(alloc, b"main")?,
        params: Vec::new(alloc),
        result: Some(IntKind::Int),
        args: Vec::new(alloc),
        temp: Some(1),
    };
    let mut calls = Vec::new(alloc);
    calls.push(RCall { label, span: at })?;
    Ok(Box::new(
        alloc,
        RPart {
            calls,
            main: None,
            span: at,
        },
    )?)
}

/// The parts of the one line of `#start`.
fn start_row(alloc: Global, at: Span) -> Result<Vec<RPart>, AllocError>
    ensures { IfOk result (λ made. map part_tree made.items ≡ (record { label = start_call; span = at; part = at } ∷ []) ∷ []) }
{
    let part = start_part(alloc, at)?;
    let mut row = Vec::new(alloc);
    row.push(Box::into_inner(part))?;
    Ok(row)
}

/// The one line of `#start`.
fn start_line(alloc: Global, at: Span) -> Result<Box<RStmt>, AllocError>
    ensures { IfOk result (λ made. stmt_tree made.value ≡ parts ((record { label = start_call; span = at; part = at } ∷ []) ∷ [])) }
{
    parts_node(alloc, start_row(alloc, at)?)
}

/// The body of `#start`.
fn start_body(alloc: Global, at: Span) -> Result<Vec<RStmt>, AllocError>
    ensures { IfOk result (λ made. stmts_of (map stmt_tree made.items) ≡ more_stmts (parts ((record { label = start_call; span = at; part = at } ∷ []) ∷ [])) no_stmt) }
{
    let line = start_line(alloc, at)?;
    let mut body = Vec::new(alloc);
    push_line(&mut body, line)?;
    Ok(body)
}

/// `#start`, named by a place.
fn start(alloc: Global, at: Span) -> Result<Function, AllocError>
    ensures { IfOk result (λ made. function_tree made ≡ start at) }
{
    let body = start_body(alloc, at)?;
    Ok(Function {
        name: Text::new(alloc, b"#start")?,
        params: Vec::new(alloc),
        result: None,
        body,
        span: at,
        locals: Vec::new(alloc),
        temps: 1,
    })
}

/// Puts `#start` before functions.
pub fn with_start(alloc: Global, functions: Vec<Function>) -> Result<Vec<Function>, AllocError>
    ensures { IfOk result (λ made. map function_tree made.items ≡ start (span_of_main (map function_tree functions.items)) ∷ map function_tree functions.items) }
{
    let first = start(alloc, span_of_main(functions.as_slice()))?;
    let mut made = functions;
    made.insert(0, first)?;
    Ok(made)
}
