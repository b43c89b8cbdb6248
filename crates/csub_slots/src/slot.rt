//! Slots.
ghost use Rattle.std.specs.Prelude.{◌≡◌, map, slice_index_or, slice_set};
ghost use Rattle.csub_slots.specs.Layout as layout;
ghost use Rattle.csub_slots.specs.Seen.{slot_seen};

/// A slot.
#[derive(Clone, Copy, Debug, PartialEq, Eq)]
pub enum Slot {
    /// Nothing was written.
    Empty,
    /// A number.
    Holding(i64),
    /// Where an array begins, and how many elements it has.
    Referring(u32, u32),
}

// A number and a reference take as much room.
const _: () = prove!(size_of::<Slot>() == 16);

/// The slot at a place; behind the last one nothing.
#[inline(always)]
pub fn slot_at(slots: &[Slot], at: usize) -> Slot
    ensures { slot_seen result ≡ slice_index_or (map slot_seen slots.now) at layout.empty }
{
    if at < slots.len() {
        slots[at]
    } else {
        Slot::Empty
    }
}

/// A slot gets a content; behind the last one nothing happens.
#[inline(always)]
pub fn set_slot(slots: &mut [Slot], at: usize, slot: Slot)
    ensures { map slot_seen slots.new ≡ slice_set (map slot_seen slots.old) at (slot_seen slot) }
{
    if at < slots.len() {
        slots[at] = slot;
    }
}
