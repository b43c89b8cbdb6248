//! Whether a program stays within its limits of points and edges.
ghost use Rattle.std.specs.Prelude.{◌↔◌, ◌≤◌, map, length, IsTrue};
ghost use Rattle.csub_semantics.specs.Syntax.{function_tree};
ghost use Rattle.csub_semantics.specs.Flows.{points_of};
ghost use Rattle.csub_validity.specs.Valid.{most_points, most_edges};
ghost use Rattle.csub_limits.specs.Limits.{edges_of};

use csub_limits::{edge_count, point_count};
use csub_semantics::Function;

const MOST_POINTS: usize = 10_000;

const MOST_EDGES: usize = 10_000;

/// Whether the functions have at most 10,000 points: each has an entry and an exit, and each stage is one.
pub(crate) fn has_few_points(functions: &[Function]) -> bool
    ensures { IsTrue result ↔ (length (points_of (map function_tree functions.now)) ≤ most_points) }
{
    match point_count(functions) {
        Some(count) => count <= MOST_POINTS,
        None => false,
    }
}

/// Whether the functions have at most 10,000 edges: an entry and each stage have one, but a test has two, a `switch` one
/// for each case and one beside, and `exit` none.
pub(crate) fn has_few_edges(functions: &[Function]) -> bool
    ensures { IsTrue result ↔ (length (edges_of (map function_tree functions.now)) ≤ most_edges) }
{
    match edge_count(functions) {
        Some(count) => count <= MOST_EDGES,
        None => false,
    }
}
