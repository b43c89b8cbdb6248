//! The limits in their order.
ghost use Rattle.std.specs.Prelude.{◌≡◌, ◌+◌, [], ◌∷◌, IfOk, length, map, option_map, sum_by};
ghost use Rattle.std.specs.Option.{option_or};
ghost use Rattle.csub_objects.specs.Meaning.{type_tree};
ghost use Rattle.csub_objects.specs.Types.{cells};
ghost use Rattle.csub_semantics.specs.Syntax.{FunctionTree, function_tree};
ghost use Rattle.csub_tree.specs.Units.{item_tree};
ghost use Rattle.csub_validity.specs.Valid.{frame_cells, most_cells, most_global_cells, most_parameters, most_values};
ghost use Rattle.csub_limits.specs.Counts.{local_cells, param_cells};
ghost use Rattle.csub_limits.specs.Limits.{first_limit, passed};
ghost use Rattle.csub_limits.specs.Prints.{items_prints};
ghost use Rattle.csub_limits.specs.Views.{the_passed};

use crate::counts::{edge_count, point_count};
use crate::prints::wide_in_items;
use csub_objects::{CType, cells};
use csub_semantics::{Function, LocalVar, Member};
use csub_tree::Item;
use std::alloc::AllocError;

/// The most functions, `#start` not counted.
const MOST_FUNCTIONS: u64 = 500;

/// The most points.
const MOST_POINTS: u64 = 10_000;

/// The most edges.
const MOST_EDGES: u64 = 10_000;

/// The most cells of a frame.
const MOST_CELLS: u64 = 4096;

/// The most cells of the objects of file scope.
const MOST_GLOBAL_CELLS: u64 = 65_536;

/// The most parameters of a function.
const MOST_PARAMETERS: u64 = 16;

/// The most cells of an object that [`cells`] tells; of one with more it tells 65,537.
const MOST_TOLD: u64 = 65_536;

/// A limit that is passed.
#[derive(Clone, Copy, Debug, PartialEq, Eq)]
pub struct Passed {
    /// Its number.
    pub number: u8,
    /// The count that passes it.
    pub count: u64,
}

/// Which limit the functions of a program, `#start` first, and the items of its source pass first, where its objects of file
/// scope have so many cells. An `Err` is a count that is too large to be told: an object with more than 65,536 cells, or more
/// points or edges than memory could hold.
pub fn first_limit(
    functions: &[Function],
    global_cells: u64,
    items: &[Item],
) -> Result<Option<Passed>, AllocError>
    ensures { IfOk result (λ found. option_map the_passed found ≡ first_limit (map function_tree functions.now) global_cells (map item_tree items.now)) }
{
    if let Some(passed) = above(1, MOST_FUNCTIONS, functions.len().saturating_sub(1) as u64) {
        return Ok(Some(passed));
    }
    let points = point_count(functions).ok_or(AllocError)?;
    if let Some(passed) = above(2, MOST_POINTS, points as u64) {
        return Ok(Some(passed));
    }
    let edges = edge_count(functions).ok_or(AllocError)?;
    if let Some(passed) = above(3, MOST_EDGES, edges as u64) {
        return Ok(Some(passed));
    }
    if let Some(passed) = passed_by_frame(functions)? {
        return Ok(Some(passed));
    }
    Ok(later_limit(functions, global_cells, items))
}

/// Which of the limits of the objects of file scope, of parameters and of `printf` is passed first.
fn later_limit(functions: &[Function], global_cells: u64, items: &[Item]) -> Option<Passed>
    ensures { option_map the_passed result ≡ option_or (passed 5 most_global_cells (global_cells ∷ [])) (option_or (passed 6 most_parameters (map (λ (f : FunctionTree). length f.params) (map function_tree functions.now))) (passed 7 most_values (items_prints (map item_tree items.now)))) }
{
    if let Some(passed) = above(5, MOST_GLOBAL_CELLS, global_cells) {
        return Some(passed);
    }
    if let Some(passed) = passed_by_params(functions) {
        return Some(passed);
    }
    let values = wide_in_items(items)?;
    Some(Passed {
        number: 7,
        count: values as u64,
    })
}

/// A limit, where a count is above it.
fn above(number: u8, most: u64, count: u64) -> Option<Passed>
    ensures { option_map the_passed result ≡ passed number most (count ∷ []) }
{
    if count > most {
        Some(Passed { number, count })
    } else {
        None
    }
}

/// The limit of frames, with the cells of the first frame that has too many. An `Err` is a count that is too large to be told.
fn passed_by_frame(functions: &[Function]) -> Result<Option<Passed>, AllocError>
    ensures { IfOk result (λ found. option_map the_passed found ≡ passed 4 most_cells (map frame_cells (map function_tree functions.now))) }
{
    for function in functions {
        if let Some(passed) = above(4, MOST_CELLS, frame_cells(function)?) {
            return Ok(Some(passed));
        }
    }
    Ok(None)
}

/// The cells of a function's frame: those of its objects, and one for each temporary. An `Err` is a count that is too large to
/// be told.
fn frame_cells(function: &Function) -> Result<u64, AllocError>
    ensures { IfOk result (λ count. count ≡ frame_cells (function_tree function.now)) }
{
    let with_params = add_params(u64::from(function.temps), &function.params)?;
    add_locals(with_params, &function.locals)
}

fn add_params(start: u64, params: &[Member]) -> Result<u64, AllocError>
    ensures { IfOk result (λ sum. sum ≡ start + sum_by param_cells params.now) }
{
    let mut sum = start;
    for param in params {
        sum = add_cells(sum, &param.ctype)?;
    }
    Ok(sum)
}

fn add_locals(start: u64, locals: &[LocalVar]) -> Result<u64, AllocError>
    ensures { IfOk result (λ sum. sum ≡ start + sum_by local_cells locals.now) }
{
    let mut sum = start;
    for local in locals {
        sum = add_cells(sum, &local.ctype)?;
    }
    Ok(sum)
}

/// A sum and the cells of an object.
fn add_cells(sum: u64, ctype: &CType) -> Result<u64, AllocError>
    ensures { IfOk result (λ more. more ≡ sum + cells (type_tree ctype.now)) }
{
    let count = cells(ctype);
    if count > MOST_TOLD {
        return Err(AllocError);
    }
    sum.checked_add(count).ok_or(AllocError)
}

/// The limit of parameters, with how many the first function has that has too many.
fn passed_by_params(functions: &[Function]) -> Option<Passed>
    ensures { option_map the_passed result ≡ passed 6 most_parameters (map (λ (f : FunctionTree). length f.params) (map function_tree functions.now)) }
{
    for function in functions {
        if let Some(passed) = above(6, MOST_PARAMETERS, function.params.len() as u64) {
            return Some(passed);
        }
    }
    None
}
