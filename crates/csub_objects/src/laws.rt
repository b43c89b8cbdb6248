//! Laws of types, each the contract of a function that does nothing.
ghost use Rattle.std.specs.Prelude.{◌≡◌, ◌↔◌, IsTrue, length};
ghost use Rattle.csub_objects.specs.Parts.{ElementsLieInOrder, MembersLieAtFirstCells, PartsAreSized};
ghost use Rattle.csub_objects.specs.Types.{TypeTree, cells, kinds, type_eq};

/// A type has as many kinds as cells.
pub fn kinds_are_cells()
    ensures { (t : TypeTree) → length (kinds t) ≡ cells t }
{}

/// Equality of types is decided.
pub fn equality_is_decided()
    ensures { (a b : TypeTree) → IsTrue (type_eq a b) ↔ (a ≡ b) }
{}

/// The cells of a part of an object are cells of the object, where the definitions say: a member's from its first cell
/// on, and the elements of an array one after the other.
pub fn parts_lie_inside()
    ensures members { MembersLieAtFirstCells }
    ensures elements { ElementsLieInOrder }
{}

/// Where an object may have a type, its elements and its members may have theirs.
pub fn parts_are_sized()
    ensures { PartsAreSized }
{}
