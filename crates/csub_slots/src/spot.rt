//! Where places are among the slots.
ghost use Rattle.std.specs.Prelude.{◌≡◌, ◌+◌, map};
ghost use Rattle.csub_semantics.specs.Memory.{found};
ghost use Rattle.csub_semantics.specs.Evaluation.{indexed};
ghost use Rattle.csub_flat.specs.Seen.{form_seen, variable_seen, part_seen};
ghost use Rattle.csub_slots.specs.Memory.{behind, flat_stand, part_at, spots};
ghost use Rattle.csub_slots.specs.Acts.{FlatStore, referring_to};
ghost use Rattle.csub_slots.specs.Numbered.{narrowed};
ghost use Rattle.csub_slots.specs.Seen.{slot_seen, spot_seen};
ghost use Rattle.csub_slots.specs.States.{Gives};

use crate::registers::{Numbered, number_of};
use crate::slot::{Slot, slot_at};
use csub_flat::{FlatLocal, FlatPart, FlatVariable, Form};
use csub_semantics::Trap;

/// The greatest number of a slot to which another may refer.
const MOST_REFERRED: usize = 4_294_967_295;

/// A place among the slots.
#[derive(Clone, Copy, Debug, PartialEq, Eq)]
pub struct Spot {
    /// Its first slot.
    pub slot: usize,
    /// What is there.
    pub form: Form,
}

/// Where the array is to which a slot refers; a slot that refers to none is the trap `unset`.
#[inline(always)]
fn behind(form: Form, slot: Slot) -> Numbered<Spot>
    ensures { (s : FlatStore) → Gives spot_seen (found (behind (form_seen form) (slot_seen slot)) s) (narrowed result) s }
{
    match slot {
        Slot::Referring(at, length) => Ok(Spot {
            slot: at as usize,
            form: Form {
                kind: form.kind,
                length,
            },
        }),
        Slot::Empty | Slot::Holding(_) => Err(number_of(Trap::Unset)),
    }
}

/// Where a variable is, for the frame whose slots begin at a base. An array parameter is where its slot refers to, and is
/// the trap `unset` where it got no array.
#[inline(always)]
pub fn stand(slots: &[Slot], base: u32, variable: FlatVariable) -> Numbered<Spot>
    ensures { (s : FlatStore) → Gives spot_seen (found (flat_stand base (variable_seen variable) (map slot_seen slots.now)) s) (narrowed result) s }
{
    match variable {
        FlatVariable::Frame(slot, form) => Ok(Spot {
            slot: base as usize + slot as usize,
            form,
        }),
        FlatVariable::Global(slot, form) => Ok(Spot {
            slot: slot as usize,
            form,
        }),
        FlatVariable::Referring(slot, form) => {
            behind(form, slot_at(slots, base as usize + slot as usize))
        }
    }
}

/// Where a variable of the frame is, for the frame whose slots begin at a base.
#[inline(always)]
pub fn stand_local(base: u32, local: FlatLocal) -> Spot
    ensures { spot_seen result ≡ record { slot = base + local.slot; form = form_seen local.form } }
{
    Spot {
        slot: base as usize + local.slot as usize,
        form: local.form,
    }
}

/// A part that begins so many slots behind a spot.
#[inline(always)]
fn part_at(part: FlatPart, spot: Spot, before: usize) -> Spot
    ensures { spot_seen result ≡ part_at (part_seen part) (spot_seen spot) before }
{
    Spot {
        slot: spot.slot.saturating_add(before),
        form: part.form,
    }
}

/// An element of the array at a spot; an index that isn't that of an element is the trap `bounds`.
#[inline(always)]
pub fn element(part: FlatPart, spot: Spot, index: i64) -> Numbered<Spot>
    ensures { (s : FlatStore) → Gives spot_seen (indexed spots (part_seen part) (spot_seen spot) index s) (narrowed result) s }
{
    if index < 0 || i64::from(spot.form.length) <= index {
        return Err(number_of(Trap::Bounds));
    }
    Ok(part_at(part, spot, index as usize * part.slots as usize))
}

/// A member of the struct at a spot.
#[inline(always)]
pub fn member(part: FlatPart, spot: Spot) -> Spot
    ensures { spot_seen result ≡ spots.member (part_seen part) (spot_seen spot) }
{
    part_at(part, spot, part.slots as usize)
}

/// A reference to the array at a spot.
pub fn refer_to(spot: Spot) -> Slot
    ensures { slot_seen result ≡ referring_to (spot_seen spot) }
{
    Slot::Referring(spot.slot.min(MOST_REFERRED) as u32, spot.form.length)
}
