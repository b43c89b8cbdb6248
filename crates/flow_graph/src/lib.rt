//! The numbered control-flow graph of a program.
//!
//! `Graph::build` gives the graph, and its contract says that it is the program's: the points are those of
//! `csub_semantics`' `point_list` and the edges those of its `edge_list`, each by its place there. The contracts of
//! [`Graph::way_out`], [`Graph::edges_of`], [`Graph::edge_at`], [`Graph::label_at`] and the others say what that is at a
//! number, in the words of the record `flow_of` between a program and all that runs or walks it. A point's edges have
//! numbers that follow one another, so a caller takes them from the graph and keeps no list of its own.
//!
//! Proofs above cite `proofs/LawsPlaces`, where points stand, `proofs/LawsOnce`, that an edge has one number,
//! `proofs/LawsLists`, lists read by place, and `proofs/LawsThreads`: a graph may cross threads.
#![tactic(auto)]

mod begin;
mod build;
mod case_table;
mod cases;
mod count;
mod edges;
mod emit;
mod graph;
mod jumps;
mod marks;
mod names;
mod node;
mod onward;
mod search;

pub use graph::{EdgeEnds, Graph, WayOut};
