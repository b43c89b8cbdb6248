//! The store at the beginning of a run, for which all memory is taken here.
ghost use Rattle.std.specs.Prelude.{◌≡◌, ◌≤◌, ◌+◌, ◌++◌, [], length, map, replicate, IfOk, vec_len, vec_capacity};
ghost use Rattle.csub_semantics.specs.Types.{global_tree};
ghost use Rattle.csub_slots.specs.Layout as layout;
ghost use Rattle.csub_slots.specs.Begins.{opening_slots};
ghost use Rattle.csub_slots.specs.Seen.{slot_seen};
ghost use Rattle.csub_slots.specs.States.{state_of};

use crate::act::grow;
use crate::slot::Slot;
use crate::store::Store;
use csub_flat::Sizes;
use csub_semantics::GlobalVar;
use std::alloc::{AllocError, Global};

/// How many bytes a run may write.
const MOST_OUTPUT: usize = 16_384;

/// How many frames a run may have.
const MOST_FRAMES: usize = 256;

/// How many arguments a call may have.
const MOST_ARGUMENTS: usize = 16;

/// Slots that hold these numbers, for which there is room.
fn push_numbers(slots: &mut Vec<Slot>, numbers: &[i64])
    requires { vec_len slots.old + length numbers.now ≤ vec_capacity slots.old }
    ensures items { map slot_seen slots.new.items ≡ map slot_seen slots.old.items ++ map layout.holding numbers.now }
    ensures len { vec_len slots.new ≡ vec_len slots.old + length numbers.now }
    ensures capacity { vec_capacity slots.old ≤ vec_capacity slots.new }
{
    for number in numbers {
        slots.push(Slot::Holding(*number)).unwrap();
    }
}

/// The slots of globals with their initial contents, for which there is room (C11 6.7.9p10).
fn open_globals(slots: &mut Vec<Slot>, globals: &[GlobalVar])
    requires { vec_len slots.old + length (opening_slots (map global_tree globals.now)) ≤ vec_capacity slots.old }
    ensures items { map slot_seen slots.new.items ≡ map slot_seen slots.old.items ++ opening_slots (map global_tree globals.now) }
    ensures len { vec_len slots.new ≡ vec_len slots.old + length (opening_slots (map global_tree globals.now)) }
    ensures capacity { vec_capacity slots.old ≤ vec_capacity slots.new }
{
    for global in globals {
        push_numbers(slots, &global.initial);
    }
}

/// A store with this input, with the initial contents of these globals and so many slots of a first frame, and with room
/// for all that a run may hold. An `Err` is want of memory.
pub fn make_store(
    alloc: Global,
    sizes: Sizes,
    globals: &[GlobalVar],
    first: u32,
    input: &[u8],
) -> Result<Store, AllocError>
    requires few { sizes.globals ≤ 65536 }
    requires small { sizes.most ≤ 4096 }
    requires globals { length (opening_slots (map global_tree globals.now)) ≤ sizes.globals }
    requires first { first ≤ sizes.most }
    ensures state { IfOk result (λ store. state_of store ≡ record { input = input.now; output = []; cells = opening_slots (map global_tree globals.now) ++ replicate first layout.empty }) }
    ensures input { IfOk result (λ store. store.input.items ≡ input.now) }
    ensures sizes { IfOk result (λ store. store.sizes ≡ sizes) }
{
    let copy = input.to_vec(alloc)?;
    let output = Vec::with_capacity(alloc, MOST_OUTPUT)?;
    let values = Vec::with_capacity(alloc, MOST_ARGUMENTS)?;
    let room = sizes.globals as usize + MOST_FRAMES * sizes.most as usize;
    let mut slots: Vec<Slot> = Vec::with_capacity(alloc, room)?;
    open_globals(&mut slots, globals);
    grow(&mut slots, first as usize);
    Ok(Store {
        input: copy,
        place: 0,
        output,
        slots,
        sizes,
        values,
    })
}
