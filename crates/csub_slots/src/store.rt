//! The state of a run: input, output and slots.
ghost use Rattle.std.specs.Prelude.{◌≤◌, ◌+◌, ◌*◌};
ghost use Rattle.std.specs.Vec.{vec_capacity};

use crate::slot::Slot;
use csub_flat::Sizes;

/// The input with a place in it, what was written, and the slots of globals and of live frames. There is room for all that
/// a run may write, and for the slots of the globals and of 256 frames of the program's greatest.
#[derive(Drop)]
pub struct Store {
    /// The whole input.
    pub input: Vec<u8>,
    /// How many bytes of the input were read.
    pub place: usize,
    /// What was written.
    pub output: Vec<u8>,
    /// The slots.
    pub slots: Vec<Slot>,
    /// How many slots the run takes.
    pub sizes: Sizes,
    /// What the arguments of a call give to its parameters, while it is made.
    pub values: Vec<Slot>,
    ghost room: { 16384 ≤ vec_capacity output },
    ghost slots_room: { sizes.globals + 256 * sizes.most ≤ vec_capacity slots },
    ghost values_room: { 16 ≤ vec_capacity values },
    ghost few: { sizes.globals ≤ 65536 },
    ghost small: { sizes.most ≤ 4096 },
}
