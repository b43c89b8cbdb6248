//! A place in a source as people count: by its line and its column.
//!
//! What is promised: [`place_of`] gives exactly the place of the first byte of a span, [`LineTable::place_of`] the same place where many
//! of one source are asked for, and [`push_place`] appends exactly a place's text; `specs/Places.antt` says what places and texts are.
#![tactic(auto)]

mod place;
mod table;

pub use place::{Place, place_of, push_place};
pub use table::LineTable;
