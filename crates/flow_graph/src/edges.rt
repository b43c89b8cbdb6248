//! The numbers of edges.
ghost use Rattle.std.specs.Prelude.{◌≡◌, ◌<◌, ◌^◌, ◌++◌, IfOk, length, replicate, sum_by};
ghost use Rattle.flow_graph.specs.Graph.{way_count, firsts_of, sources_of};

use crate::node::GraphPoint;
use std::alloc::{AllocError, Global};

/// The numbers of the edges of points.
#[derive(Drop)]
pub struct EdgeNumbers {
    /// The number of each point's first edge: how many edges the points before it have.
    pub firsts: Vec<u32>,
    /// The number of each edge's source point.
    pub sources: Vec<u32>,
}

/// Appends a number so many times.
fn push_times(numbers: &mut Vec<u32>, number: u32, times: usize) -> Result<(), AllocError>
    ensures { IfOk result (λ _. numbers.new.items ≡ numbers.old.items ++ replicate times number) }
{
    for done in 0..times {
        numbers.push(number)?;
    }
    Ok(())
}

/// Numbers the edges of the points, by their source points and then in order.
pub fn number_edges(alloc: Global, points: &[GraphPoint]) -> Result<EdgeNumbers, AllocError>
    requires few_points { length points.now < 2 ^ 30 }
    requires few_edges { sum_by way_count points.now < 2 ^ 30 }
    ensures firsts { IfOk result (λ made. made.firsts.items ≡ firsts_of points.now 0) }
    ensures sources { IfOk result (λ made. made.sources.items ≡ sources_of points.now 0) }
{
    let mut firsts = Vec::new(alloc);
    let mut sources = Vec::new(alloc);
    for i in 0..points.len() {
        firsts.push(sources.len() as u32)?;
        push_times(&mut sources, i as u32, points[i].node.ways.len())?;
    }
    Ok(EdgeNumbers { firsts, sources })
}
