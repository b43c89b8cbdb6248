//! The walk of two graphs by steps: pairs of points of functions of one name, each with the reason why it is held.
//!
//! [`Walk`] holds the pairs. What is promised stands in the contract of [`Walk::add`], which adds one pair: everything that
//! follows from the held pairs by steps, and over calls whose callees' exits are held, is held then; each fact's own
//! reason justifies it by the facts before it, and no pair stands twice; and labels are compared at most as often as there
//! are old edges times new points, however many pairs are added. What is held stays at its place with its reason, also
//! where memory is refused. Callees aren't entered: the caller adds the pairs of their entries, as `call_walk` does, or
//! leaves them out.
//!
//! Which edges leave a point, the walk asks of the old graph (`flow_graph::Graph::edges_of`); it keeps no list of them.
//! Labels are compared by their numbers in one `edge_label::LabelBook` ([`number_labels`]), and what is called at a point is
//! found before the walk ([`list_callees`]): so neither is looked for again at each pair.
//!
//! `specs/Books` says what numbers and reasons of facts stand for, `Held` what facts hold and when they are closed, and
//! `Rest` when a walk is at rest; `LabelRows`, `Callees` and `Prepared` say what is asked of the graphs, and `Rows`, `Moments` and
//! `Bits` are for the functions inside. Proofs above cite `proofs/LawsReaching`, the rules by which pairs are reached;
//! `LawsFacts`, what held facts stand for; `LawsNumbers`, what the numbers of a graph stand for; `LawsLists`, what stands
//! in lists; and `LawsRest`, what is held by a walk at rest.
#![tactic(auto)]

mod ask;
mod both;
mod callees;
pub mod fact;
mod follow;
mod pair_set;
mod pairs;
mod rows;
mod walking;

pub use ask::Pair;
pub use both::{Both, number_labels};
pub use callees::{Callee, callee_at, list_callees};
pub use fact::{Fact, Why};
pub use walking::Walk;
