//! The limits of a source: which one it passes first, and by which count.
//!
//! What is promised: [`first_limit`] gives the first limit that is passed, in the order of their numbers, as `specs/Limits` says;
//! 1 `functions`, 2 `points`, 3 `edges`, 4 `frame`, 5 `globals`, 6 `arguments`, 7 `printf`. It takes time in proportion to the
//! source and its functions, and no memory. [`point_count`] and [`edge_count`] tell how large functions are.
#![tactic(auto)]

pub mod counts;
pub mod limits;
pub mod prints;

pub use counts::{edge_count, point_count};
pub use limits::{Passed, first_limit};
