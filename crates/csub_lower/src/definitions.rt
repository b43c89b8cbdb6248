//! The functions that a source defines, by name.
ghost use Rattle.std.specs.Prelude.{◌≡◌, ◌++◌, ◌∷◌, [], Some, None, OnOk, OnErr, map, bytes_eq, if◌then◌else◌};
ghost use Rattle.std.specs.Option.{option_or};
ghost use Rattle.csub_objects.specs.Types.{Name};
ghost use Rattle.csub_objects.specs.Meaning.{member_tree};
ghost use Rattle.csub_resolution.specs.Values.{params_in};
ghost use Rattle.csub_lower.specs.Definitions.{placed};

use csub_objects::Member;
use csub_text::Text;
use indexmap::IndexMap;
use std::alloc::{AllocError, Global};
use std::marker::Model;

/// The functions that a source defines. Contracts see their list, in the order in which they came.
#[derive(Drop)]
pub struct Definitions {
    alloc: Global,
    held: Vec<Definition>,
    places: IndexMap<Vec<u8>, usize>,
}

/// A function as it is defined.
#[derive(Drop)]
struct Definition {
    name: Text,
    params: Vec<Member>,
}

impl Model for Definitions {
    ghost use Rattle.std.specs.Prelude.{List};
    ghost use Rattle.csub_resolution.specs.Values.{Defined};
    ghost use Rattle.csub_lower.specs.Definitions.{definitions_code};

    ghost Value = { List Defined };

    ghost coded = { definitions_code };

    ghost use Rattle.std.specs.Prelude.{map};
    ghost use Rattle.csub_lower.specs.Definitions.{defined_of, ArePlaces};

    ghost view = { λ d. map defined_of d.held.items };

    ghost invariant = { λ d. ArePlaces d.places (map defined_of d.held.items) };
}

impl Definitions {
    /// No function.
    pub fn new(alloc: Global) -> Definitions
        ensures { result ≡ [] }
    {
        Definitions {
            alloc,
            held: Vec::new(alloc),
            places: IndexMap::new(alloc),
        }
    }

    /// The parameters of a function as it is defined, found by a hash; those of its first definition where it has
    /// several, and none where it has none.
    pub fn params(&self, name: &[u8]) -> &[Member]
        ensures { map member_tree result.now ≡ params_in self.now name.now }
    {
        match place_of(&self.places, name) {
            Some(place) => self.held[place].params.as_slice(),
            None => &[],
        }
    }

    /// Adds a definition behind the others. An `Err` is want of memory, and nothing is added then.
    pub fn push(&mut self, name: &Text, params: Vec<Member>) -> Result<(), AllocError>
        ensures ok { OnOk result (self.new ≡ self.old ++ record { name = name.now; params = map member_tree params.items } ∷ []) }
        ensures err { OnErr result (self.new ≡ self.old) }
    {
        let key = name.bytes().to_vec(self.alloc)?;
        let name = name.copy()?;
        self.held.reserve(1)?;
        let place = self.held.len();
        note(&mut self.places, key, place)?;
        self.held.push(Definition { name, params })?;
        Ok(())
    }
}

/// The place that a map has for a name.
fn place_of(places: &IndexMap<Vec<u8>, usize>, name: &[u8]) -> Option<usize>
    ensures { result ≡ placed places.now name.now }
{
    places.get(name).copied()
}

/// Gives a name that has no place this one. An `Err` is want of memory, and no place has changed then.
fn note(
    places: &mut IndexMap<Vec<u8>, usize>,
    name: Vec<u8>,
    place: usize,
) -> Result<(), AllocError>
    ensures ok { OnOk result ((other : Name) → placed places.new other ≡ option_or (placed places.old other) (if bytes_eq name.items other then Some place else None)) }
    ensures err { OnErr result ((other : Name) → placed places.new other ≡ placed places.old other) }
{
    if place_of(places, name.as_slice()).is_some() {
        return Ok(());
    }
    places.insert(name, place)?;
    Ok(())
}
