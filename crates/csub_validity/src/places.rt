//! The types of places.
ghost use Rattle.std.specs.Prelude.{◌≡◌, IsTrue};
ghost use Rattle.std.specs.Option.{option_map};
ghost use Rattle.csub_objects.specs.Meaning.{type_tree};
ghost use Rattle.csub_semantics.specs.Trees.{place_tree};
ghost use Rattle.csub_validity.specs.Valid.{place_type, in_object};

use csub_objects::{element_type, member_type};
use csub_semantics::{CType, Place};

/// The type of a place, which is in an object: an array alone has elements (C11 6.5.2.1p1), and a struct alone members
/// (6.5.2.3p1). This takes one look-up by a hash for each member on the way.
pub fn place_type<'a>(place: &'a Place) -> Option<&'a CType>
    ensures ctype { option_map (λ t. type_tree t.now) result ≡ place_type (place_tree place.now) }
    ensures object { IsTrue (in_object (place_tree place.now)) }
{
    match place {
        Place::Var(_, ctype) => Some(ctype),
        Place::Index(array, _) => element_type(place_type(array)?),
        Place::Member(whole, name) => member_type(place_type(whole)?, name.bytes()),
    }
}
