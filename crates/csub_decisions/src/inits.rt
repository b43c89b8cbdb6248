//! Whether initialisers fit the objects that they initialise.
ghost use Rattle.std.specs.Prelude.{◌≡◌, ◌↔◌, IsTrue, map, option_map};
ghost use Rattle.csub_objects.specs.Meaning.{type_tree};
ghost use Rattle.csub_semantics.specs.Labels.{init_tree, inits_of};
ghost use Rattle.csub_validity.specs.Valid.{AreInits, IsInit, IsNumberAt, is_whole, part_of};
ghost use Rattle.csub_decisions.specs.Checks.{scope_at};

use crate::expressions::is_expr;
use crate::site::Site;
use csub_objects::{has_parts, is_number, part_type};
use csub_semantics::{CType, RInit};

/// Whether an initialiser fits an object of a type, or of none (C11 6.7.9): a number's is a valid expression, and that of
/// an array or a struct a list with an initialiser for each of its first parts.
///
/// This takes a pass over the initialiser, with what [`is_expr`] takes for each expression.
#[cycle(initialisers)]
pub fn is_init(site: Site<'_>, init: &RInit, ctype: Option<&CType>) -> bool
    ensures { IsTrue result ↔ IsInit (scope_at site.entry) site.entry.number (option_map (λ t. type_tree t.now) ctype.entry) (init_tree init.now) }
{
    match init {
        RInit::One(value) => is_number_at(ctype) && is_expr(site, value),
        RInit::List(entries) => is_whole(ctype) && are_inits(site, entries.as_slice(), ctype),
    }
}

/// Whether each entry of a list fits the part of its number.
#[cycle(initialisers)]
fn are_inits(site: Site<'_>, entries: &[RInit], ctype: Option<&CType>) -> bool
    ensures { IsTrue result ↔ AreInits (scope_at site.entry) site.entry.number (option_map (λ t. type_tree t.now) ctype.entry) 0 (inits_of (map init_tree entries.now)) }
{
    let mut i = 0;
    for entry in entries {
        if !is_init(site, entry, part_of(ctype, i)) {
            return false;
        }
        i += 1;
    }
    true
}

/// Whether an object is a number.
fn is_number_at(ctype: Option<&CType>) -> bool
    ensures { IsTrue result ↔ IsNumberAt (option_map (λ t. type_tree t.now) ctype.entry) }
{
    match ctype {
        Some(ctype) => is_number(ctype),
        None => false,
    }
}

/// Whether an object has parts.
fn is_whole(ctype: Option<&CType>) -> bool
    ensures { result ≡ is_whole (option_map (λ t. type_tree t.now) ctype.entry) }
{
    match ctype {
        Some(ctype) => has_parts(ctype),
        None => false,
    }
}

/// The type of part number i of an object, from 0.
fn part_of(ctype: Option<&CType>, i: usize) -> Option<&CType>
    ensures { option_map (λ t. type_tree t.now) result ≡ part_of (option_map (λ t. type_tree t.now) ctype.entry) i }
{
    part_type(ctype?, i)
}
