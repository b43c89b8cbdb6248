//! Which places are those of numbers.
ghost use Rattle.std.specs.Prelude.{◌≡◌, ◌↔◌, IsTrue};
ghost use Rattle.csub_semantics.specs.Trees.{place_tree};
ghost use Rattle.csub_validity.specs.Valid.{place_kind, IsNumberPlace, IsModifiable};

use csub_objects::{is_number, number_kind};
use csub_semantics::Place;
use csub_types::IntKind;
use csub_validity::places::place_type;

/// The kind of the number in a place.
pub fn place_kind(place: &Place) -> IntKind
    ensures { result ≡ place_kind (place_tree place.now) }
{
    match place_type(place) {
        Some(ctype) => number_kind(ctype),
        None => IntKind::Int,
    }
}

/// Whether a place is that of a number, which in an object may be read (C11 6.3.2.1p2) and written (p1).
pub fn is_number_place(place: &Place) -> bool
    ensures read { IsTrue result ↔ IsNumberPlace (place_tree place.now) }
    ensures written { IsTrue result ↔ IsModifiable (place_tree place.now) }
{
    match place_type(place) {
        Some(ctype) => is_number(ctype),
        None => false,
    }
}
