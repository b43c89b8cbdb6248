//! Points with the numbers of the points to which they lead.
ghost use Rattle.std.specs.Prelude.{◌≡◌, ◌++◌, IfOk, [], ◌∷◌, map};
ghost use Rattle.csub_semantics.specs.Labels.{label_tree};
ghost use Rattle.csub_semantics.specs.Points.{point_tree, at, next};
ghost use Rattle.csub_semantics.specs.Successors.{way, test_ways as test_ways'};
ghost use Rattle.flow_graph.specs.Numbers.{numbered_way, numbered_node};

use csub_semantics::{ExitLabel, Label, Point, PointPath, Span, Text};
use std::alloc::{AllocError, Global};

/// A way out of a point.
#[derive(Drop)]
pub struct GraphWay {
    /// The exit label.
    pub exit: ExitLabel,
    /// The number of the point to which it leads.
    pub to: u32,
}

/// A point of a function with its ways out.
#[derive(Drop)]
pub struct GraphNode {
    /// The point.
    pub point: Point,
    /// What is done there.
    pub label: Label,
    /// The place in the source that is named for it.
    pub span: Span,
    /// Its ways out, in order.
    pub ways: Vec<GraphWay>,
}

/// A point of a program.
#[derive(Drop)]
pub struct GraphPoint {
    /// The number of its function.
    pub function: u32,
    /// The point there.
    pub node: GraphNode,
}

/// A function with the numbers of two of its points.
#[derive(Drop)]
pub struct GraphFunction {
    /// Its name.
    pub name: Text,
    /// The number of its entry.
    pub start: u32,
    /// The number of its exit.
    pub exit: u32,
}

/// The one way out of a point that is no test.
pub fn one_way(alloc: Global, to: u32) -> Result<Vec<GraphWay>, AllocError>
    ensures { IfOk result (λ made. map numbered_way made.items ≡ way next to ∷ []) }
{
    let mut made = Vec::new(alloc);
    made.push(GraphWay {
        exit: ExitLabel::Next,
        to,
    })?;
    Ok(made)
}

/// The ways out of a test.
pub fn test_ways(
    alloc: Global,
    when_true: u32,
    when_false: u32,
) -> Result<Vec<GraphWay>, AllocError>
    ensures { IfOk result (λ made. map numbered_way made.items ≡ test_ways' when_true when_false) }
{
    let mut made = Vec::new(alloc);
    made.push(GraphWay {
        exit: ExitLabel::True,
        to: when_true,
    })?;
    made.push(GraphWay {
        exit: ExitLabel::False,
        to: when_false,
    })?;
    Ok(made)
}

/// A place in a list as a step of a path. An `Err` is want of memory, which a list of 2^32 lines has long before.
pub fn step(index: usize) -> Result<u32, AllocError>
    ensures { IfOk result (λ step. step ≡ index) }
{
    match u32::try_from(index) {
        Ok(step) => Ok(step),
        Err(_) => Err(AllocError),
    }
}

/// The path of a statement inside the one at `path`.
pub fn inner_path(alloc: Global, path: &[u32], step: u32) -> Result<Vec<u32>, AllocError>
    ensures { IfOk result (λ made. made.items ≡ path.now ++ step ∷ []) }
{
    let mut made = path.to_vec(alloc)?;
    made.push(step)?;
    Ok(made)
}

/// A stage of a part of the statement at `path`.
pub fn point_at(alloc: Global, path: &[u32], part: u32, stage: usize) -> Result<Point, AllocError>
    ensures { IfOk result (λ made. point_tree made ≡ at path.now part stage) }
{
    let stage = step(stage)?;
    let path = path.to_vec(alloc)?;
    Ok(Point::At(PointPath { path, part, stage }))
}

/// Appends a point with its ways out. All points are appended here: each place that did it by itself would be proved with
/// the drop of a point.
pub fn push_node(
    out: &mut Vec<GraphNode>,
    point: Point,
    label: Label,
    span: Span,
    ways: Vec<GraphWay>,
) -> Result<(), AllocError>
    ensures { IfOk result (λ _. map numbered_node out.new.items ≡ map numbered_node out.old.items ++ record { point = point_tree point; label = label_tree label; span = span; ways = map numbered_way ways.items } ∷ []) }
{
    out.push(GraphNode {
        point,
        label,
        span,
        ways,
    })?;
    Ok(())
}
