//! The frames of functions: the slots of their objects, each of which is found without a look at the others.
ghost use Rattle.std.specs.Prelude.{ℕ, ◌≡◌, ◌-◌, ◌≤◌, ◌&&◌, ◌++◌, List, nat_eq, map, Some, IfOk, OnOk, if◌then◌else◌, bytes_eq};
ghost use Rattle.csub_objects.specs.Types.{Name};
ghost use Rattle.csub_semantics.specs.Syntax.{LocalTree, local_tree, function_tree, program_tree};
ghost use Rattle.csub_validity.specs.Valid.{objects_of};
ghost use Rattle.csub_flat.specs.Frames.{objects_size, as_object, frame_size};
ghost use Rattle.csub_flat.specs.Objects.{slot_at, AreObjectSlots, IsFrameOf, AreFramesOf};

use crate::places::{locals_size, params_size, slots_of};
use csub_core::Program;
use csub_semantics::{Function, LocalVar, Member, Text};
use std::alloc::{AllocError, Global};
use std::collections::BTreeMap;

/// The frame of a function.
#[derive(Drop)]
pub struct Frame {
    /// The slots of its objects, by their numbers and then by their names.
    pub slots: BTreeMap<u32, BTreeMap<Text, u32>>,
    /// The slot of its first temporary, behind those of its objects.
    pub first: u32,
    /// How many slots it has.
    pub size: u32,
}

/// The slot of the object with a name and a number, if there is one. The work is a logarithm of the objects.
pub fn find_slot(
    slots: &BTreeMap<u32, BTreeMap<Text, u32>>,
    name: &Text,
    number: u32,
) -> Option<u32>
    ensures { result ≡ slot_at slots.now name.now number }
{
    slots.get(&number)?.get(name).copied()
}

/// Puts the slot of an object, in the place of that of another with its name and its number. An `Err` is want of
/// memory.
fn put_slot(
    alloc: Global,
    slots: &mut BTreeMap<u32, BTreeMap<Text, u32>>,
    name: &Text,
    number: u32,
    slot: u32,
) -> Result<(), AllocError>
    ensures { OnOk result ((a : Name) (n : ℕ) → slot_at slots.new a n ≡ (if bytes_eq name.now a && nat_eq number n then Some slot else slot_at slots.old a n)) }
{
    let name = name.copy()?;
    let named = slots.entry(number)?.or_insert(BTreeMap::new(alloc));
    named.insert(name, slot)?;
    Ok(())
}

/// Adds the slots of locals, ahead of those of later objects, which begin at `behind`; of two locals with one name and
/// one number the first counts. An `Err` is want of memory.
fn add_locals(
    alloc: Global,
    slots: &mut BTreeMap<u32, BTreeMap<Text, u32>>,
    locals: &[LocalVar],
    behind: u32,
) -> Result<(), AllocError>
    requires room { objects_size (map local_tree locals.now) ≤ behind }
    requires small { behind ≤ 4096 }
    ensures { OnOk result ((os : List LocalTree) → AreObjectSlots behind os slots.old →
        AreObjectSlots (behind - objects_size (map local_tree locals.now)) (map local_tree locals.now ++ os) slots.new) }
{
    let mut slot = behind;
    for i in (0..locals.len()).rev() {
        let local = &locals[i];
        slot -= slots_of(&local.ctype);
        put_slot(alloc, slots, &local.name, local.number, slot)?;
    }
    Ok(())
}

/// Adds the slots of parameters in the same way. An `Err` is want of memory.
fn add_params(
    alloc: Global,
    slots: &mut BTreeMap<u32, BTreeMap<Text, u32>>,
    params: &[Member],
    behind: u32,
) -> Result<(), AllocError>
    requires room { objects_size (map as_object params.now) ≤ behind }
    requires small { behind ≤ 4096 }
    ensures { OnOk result ((os : List LocalTree) → AreObjectSlots behind os slots.old →
        AreObjectSlots (behind - objects_size (map as_object params.now)) (map as_object params.now ++ os) slots.new) }
{
    let mut slot = behind;
    for i in (0..params.len()).rev() {
        let param = &params[i];
        slot -= slots_of(&param.ctype);
        put_slot(alloc, slots, &param.name, 1, slot)?;
    }
    Ok(())
}

/// How many slots the objects of a function have.
fn object_slots(function: &Function) -> u32
    requires { frame_size (function_tree function.now) ≤ 4096 }
    ensures { result ≡ objects_size (objects_of (function_tree function.now)) }
{
    params_size(&function.params) + locals_size(&function.locals)
}

/// How many slots a frame of a function has.
pub fn frame_slots(function: &Function) -> u32
    requires { frame_size (function_tree function.now) ≤ 4096 }
    ensures value { result ≡ frame_size (function_tree function.now) }
    ensures small { result ≤ 4096 }
{
    object_slots(function) + function.temps
}

/// The frame of a function. An `Err` is want of memory.
fn frame_of(alloc: Global, function: &Function) -> Result<Frame, AllocError>
    requires { frame_size (function_tree function.now) ≤ 4096 }
    ensures { IfOk result (IsFrameOf (function_tree function.now)) }
{
    let mut slots = BTreeMap::new(alloc);
    let first = object_slots(function);
    let before = params_size(&function.params);
    add_locals(alloc, &mut slots, &function.locals, first)?;
    add_params(alloc, &mut slots, &function.params, before)?;
    let size = first + function.temps;
    Ok(Frame { slots, first, size })
}

/// The frames of the functions of a program. An `Err` is want of memory. The work is that of putting the objects of
/// each function into ordered maps.
pub fn list_frames(alloc: Global, program: &Program) -> Result<Vec<Frame>, AllocError>
    ensures { IfOk result (λ frames. AreFramesOf (program_tree program.now).functions frames.items) }
{
    let functions = program.functions();
    let mut frames = Vec::new(alloc);
    for i in 0..functions.len() {
        frames.push(frame_of(alloc, &functions[i])?)?;
    }
    Ok(frames)
}
