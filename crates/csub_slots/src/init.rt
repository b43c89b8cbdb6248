//! The initialisers of objects, step by step. Nothing here takes memory.
ghost use Rattle.std.specs.Prelude.{◌≡◌, ◌≤◌, map, All};
ghost use Rattle.csub_flat.specs.Seen.{write_seen};
ghost use Rattle.csub_slots.specs.Acts.{flat_cleared, flat_write, flat_begins};
ghost use Rattle.csub_slots.specs.Seen.{slot_seen};
ghost use Rattle.csub_slots.specs.States.{state_of, Gives, nothing, Keeps, FewInWrite};

use crate::eval::{eval, put_at};
use crate::slot::Slot;
use crate::store::Store;
use csub_flat::FlatWrite;
use csub_semantics::Trap;
use csub_types::kind::convert;

/// 0 goes to so many slots, from one on; behind the last one nothing happens.
fn clear_slots(slots: &mut [Slot], at: usize, count: usize)
    requires at { at ≤ 8589934592 }
    requires count { count ≤ 4294967296 }
    ensures { map slot_seen slots.new ≡ flat_cleared at count (map slot_seen slots.old) }
{
    let end = slots.len().min(at + count);
    if at < end {
        slots[at..end].fill(Slot::Holding(0));
    }
}

/// 0 goes to so many slots, from one on.
fn clear(store: &mut Store, at: usize, count: usize)
    requires at { at ≤ 8589934592 }
    requires count { count ≤ 4294967296 }
    ensures value { state_of store.new ≡ record (state_of store.old) { cells = flat_cleared at count (map slot_seen store.old.slots.items) } }
    ensures kept { Keeps store.old store.new }
{
    clear_slots(store.slots.as_mut_slice(), at, count);
}

/// A step of an initialiser, for the frame at a base.
fn take_step(store: &mut Store, base: u32, step: &FlatWrite) -> Result<(), Trap>
    requires { FewInWrite (write_seen step.now) }
    ensures value { Gives nothing (flat_write base (write_seen step.now) (state_of store.old)) result (state_of store.new) }
    ensures kept { Keeps store.old store.new }
{
    match step {
        FlatWrite::Value(slot, kind, expr) => {
            let value = eval(store, base, expr)?;
            put_at(store, base as usize + *slot as usize, convert(*kind, value));
        }
        FlatWrite::Zeros(slot, count) => {
            clear(store, base as usize + *slot as usize, *count as usize);
        }
    }
    Ok(())
}

/// An object of the frame at a base gets its initial contents, step by step (C11 6.7.9).
#[inline(never)]
pub fn initialise(store: &mut Store, base: u32, steps: &[FlatWrite]) -> Result<(), Trap>
    requires { All FewInWrite (map write_seen steps.now) }
    ensures value { Gives nothing (flat_begins base (map write_seen steps.now) (state_of store.old)) result (state_of store.new) }
    ensures kept { Keeps store.old store.new }
{
    for step in steps {
        take_step(store, base, step)?;
    }
    Ok(())
}
