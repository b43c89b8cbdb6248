//! For each name the place of its latest declaration, found by a hash.
ghost use Rattle.std.specs.Prelude.{◌≡◌, Some, IfOk, OnOk, OnErr, IsSome, if◌then◌else◌, bytes_eq};
ghost use Rattle.csub_objects.specs.Types.{Name};
ghost use Rattle.csub_scopes.specs.Places.{placed};

use csub_text::Text;
use indexmap::IndexMap;
use std::alloc::{AllocError, Global};

/// The place of a name.
pub(crate) fn place_of(latest: &IndexMap<Vec<u8>, Option<u32>>, name: &[u8]) -> Option<u32>
    ensures { result ≡ placed latest.now name.now }
{
    *latest.get(name)?
}

/// Gives a name a place, and answers the one that it had. An `Err` is want of memory, and no place has changed then.
pub(crate) fn put(
    latest: &mut IndexMap<Vec<u8>, Option<u32>>,
    name: Vec<u8>,
    place: u32,
) -> Result<Option<u32>, AllocError>
    ensures before { IfOk result (λ outer. outer ≡ placed latest.old name.items) }
    ensures after { OnOk result ((other : Name) → placed latest.new other ≡ (if bytes_eq name.items other then Some place else placed latest.old other)) }
    ensures err { OnErr result ((other : Name) → placed latest.new other ≡ placed latest.old other) }
{
    match latest.insert(name, Some(place))? {
        Some(before) => Ok(before),
        None => Ok(None),
    }
}

/// Gives a name the place behind `count` others, and answers a copy of it with the place that it had. An `Err` is want of
/// memory, or 4,294,967,295 others, and no place has changed then.
pub(crate) fn put_next(
    alloc: Global,
    latest: &mut IndexMap<Vec<u8>, Option<u32>>,
    name: &Text,
    count: usize,
) -> Result<(Text, Option<u32>), AllocError>
    ensures before { IfOk result (λ put. (put.0 ≡ name.now) × (put.1 ≡ placed latest.old name.now)) }
    ensures after { OnOk result ((other : Name) → placed latest.new other ≡ (if bytes_eq name.now other then Some count else placed latest.old other)) }
    ensures err { OnErr result ((other : Name) → placed latest.new other ≡ placed latest.old other) }
{
    if count >= 4_294_967_295 {
        return Err(AllocError);
    }
    let key = name.bytes().to_vec(alloc)?;
    let copied = name.copy()?;
    let outer = put(latest, key, count as u32)?;
    Ok((copied, outer))
}

/// Gives a name that has a place another one, or none.
pub(crate) fn put_back(latest: &mut IndexMap<Vec<u8>, Option<u32>>, name: &[u8], place: Option<u32>)
    requires { IsSome (placed latest.old name.now) }
    ensures { (other : Name) → placed latest.new other ≡ (if bytes_eq name.now other then place else placed latest.old other) }
{
    if let Some(held) = latest.get_mut(name) {
        *held = place;
    }
}
