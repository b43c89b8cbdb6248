//! What is done at points, over slots. Nothing here takes memory.
ghost use Rattle.std.specs.Prelude.{◌≡◌, ◌+◌, ◌*◌, ◌<◌, ◌≤◌, ◌++◌, [], ◌∷◌, length, map, take, All, replicate, vec_len, vec_capacity};
ghost use Rattle.csub_semantics.specs.declared.status.Status.TheVariants.{Exit};
ghost use Rattle.csub_types.specs.Kinds.{convert};
ghost use Rattle.csub_semantics.specs.Evaluation.{eval};
ghost use Rattle.csub_semantics.specs.Memory.{value, then_do, low_byte};
ghost use Rattle.csub_slots.specs.Layout as layout;
ghost use Rattle.csub_slots.specs.Memory.{flat};
ghost use Rattle.csub_slots.specs.Acts.{flat_call, flat_exit, flat_given_slot, flat_arguments, flat_entered, flat_result};
ghost use Rattle.csub_flat.specs.Seen.{variable_seen, expr_seen, given_seen, arg_seen, call_seen};
ghost use Rattle.csub_slots.specs.Seen.{slot_seen};
ghost use Rattle.csub_slots.specs.States.{state_of, Gives, same, Enters, Returns, Keeps, FewValues, FewInGiven};

pub use crate::direct::{eval_effect, eval_test};
use crate::eval::{eval_operand, eval_variable, locate, put_at, put_slot};
pub use crate::init::initialise;
use crate::slot::Slot;
use crate::spot::refer_to;
use crate::store::Store;
use csub_flat::{FlatArg, FlatCall, FlatExpr, FlatGiven, FlatVariable};
use csub_semantics::{EndRule, IntKind, Status, Trap};
use csub_types::kind::convert;

/// How many frames a run may have.
const MOST_FRAMES: u32 = 256;

/// A way out of a point at which there is no `switch`.
#[derive(Clone, Copy, Debug, PartialEq, Eq)]
pub enum PlainExit {
    /// The only way on.
    Next,
    /// The test gave another number than 0.
    True,
    /// The test gave 0.
    False,
}

/// What a return gives for the frame at a base: a value, converted to a kind (C11 6.8.6.4).
#[inline(always)]
pub fn eval_answer(
    store: &mut Store,
    base: u32,
    kind: IntKind,
    expr: &FlatExpr,
) -> Result<i64, Trap>
    requires { FewValues (expr_seen expr.now) }
    ensures value { Gives same (then_do (eval (flat base) (expr_seen expr.now) (state_of store.old)) (λ w u. value (convert kind w) u)) result (state_of store.new) }
    ensures kept { Keeps store.old store.new }
{
    let given = eval_operand(store, base, expr)?;
    Ok(convert(kind, given))
}

/// The end of the run with the low 8 bits of a value (C11 7.22.4.4).
#[inline(always)]
pub fn end_with(value: i64) -> Status
    ensures { result ≡ Exit (low_byte value) }
{
    Status::Exit(value.rem_euclid(256) as u8)
}

/// The end of a function: what it gives to its call, and its slots go. An `Err` is the end of the run: that of `#start`,
/// or a result that is missing.
#[inline(always)]
pub fn leave_function(
    store: &mut Store,
    rule: EndRule,
    first: FlatVariable,
    base: u32,
    answer: Option<i64>,
) -> Result<Option<i64>, Status>
    ensures value { Returns (flat_exit rule (variable_seen first) base answer (state_of store.old)) result (state_of store.new) }
    ensures input { store.new.input.items ≡ store.old.input.items }
    ensures sizes { store.new.sizes ≡ store.old.sizes }
{
    let given = match rule {
        EndRule::Nothing => answer,
        EndRule::Value => match answer {
            None => return Err(Status::Trap(Trap::Missing)),
            Some(value) => Some(value),
        },
        EndRule::Main => match answer {
            None => Some(0),
            Some(value) => Some(value),
        },
        EndRule::Start => match eval_variable(store, base, first) {
            Err(trap) => return Err(Status::Trap(trap)),
            Ok(value) => return Err(end_with(value)),
        },
    };
    leave(store, base);
    Ok(given)
}

/// The slots from a base on go.
#[inline(always)]
fn leave(store: &mut Store, base: u32)
    ensures value { state_of store.new ≡ record (state_of store.old) { cells = take base (map slot_seen store.old.slots.items) } }
    ensures input { store.new.input.items ≡ store.old.input.items }
    ensures sizes { store.new.sizes ≡ store.old.sizes }
{
    store.slots.truncate(base as usize);
}

/// A call, where so many frames stand: its arguments, then a frame with its parameters; where the frame's slots begin.
#[inline(always)]
pub fn enter_call(store: &mut Store, call: &FlatCall, count: u32, base: u32) -> Result<u32, Trap>
    requires few { count ≤ 256 }
    requires room { length store.old.slots.items ≤ store.old.sizes.globals + count * store.old.sizes.most }
    requires size { call.now.size ≤ store.old.sizes.most }
    requires args { length (map arg_seen call.now.args.items) ≤ 16 }
    requires values { All (λ a. FewInGiven a.given) (map arg_seen call.now.args.items) }
    ensures value { Enters (flat_call (call_seen call.now) count base (state_of store.old)) call.now.entry result (state_of store.new) }
    ensures input { store.new.input.items ≡ store.old.input.items }
    ensures sizes { store.new.sizes ≡ store.old.sizes }
{
    eval_args(store, base, &call.args)?;
    if MOST_FRAMES <= count {
        return Err(Trap::Depth);
    }
    let begin = store.slots.len() as u32;
    enter(store, call.size, &call.args, count);
    Ok(begin)
}

/// What the arguments of a call give to its parameters, from left to right, goes into the store's values.
#[inline(always)]
fn eval_args(store: &mut Store, base: u32, args: &[FlatArg]) -> Result<(), Trap>
    requires few { length (map arg_seen args.now) ≤ 16 }
    requires each { All (λ a. FewInGiven a.given) (map arg_seen args.now) }
    ensures value { Gives (λ _. map slot_seen store.new.values.items) (flat_arguments base (map arg_seen args.now) (state_of store.old)) result (state_of store.new) }
    ensures input { store.new.input.items ≡ store.old.input.items }
    ensures sizes { store.new.sizes ≡ store.old.sizes }
    ensures count { length store.new.slots.items ≡ length store.old.slots.items }
{
    store.values.clear();
    for arg in args {
        let slot = give(store, base, &arg.given)?;
        push_value(&mut store.values, slot);
    }
    Ok(())
}

/// What an argument gives to its parameter.
#[inline(always)]
fn give(store: &mut Store, base: u32, given: &FlatGiven) -> Result<Slot, Trap>
    requires { FewInGiven (given_seen given.now) }
    ensures value { Gives slot_seen (flat_given_slot base (given_seen given.now) (state_of store.old)) result (state_of store.new) }
    ensures kept { Keeps store.old store.new }
{
    match given {
        FlatGiven::Number(kind, expr) => {
            let value = eval_operand(store, base, expr)?;
            Ok(Slot::Holding(convert(*kind, value)))
        }
        FlatGiven::Array(place) => {
            let spot = locate(store, base, place)?;
            Ok(refer_to(spot))
        }
    }
}

/// One more value, for which there is room.
#[inline(always)]
fn push_value(values: &mut Vec<Slot>, value: Slot)
    requires { vec_len values.old < vec_capacity values.old }
    ensures items { map slot_seen values.new.items ≡ map slot_seen values.old.items ++ slot_seen value ∷ [] }
    ensures len { vec_len values.new ≡ vec_len values.old + 1 }
    ensures capacity { vec_capacity values.old ≤ vec_capacity values.new }
{
    values.push(value).unwrap();
}

/// A frame comes on top of so many others, with the store's values in its parameters.
#[inline(always)]
fn enter(store: &mut Store, size: u32, args: &[FlatArg], count: u32)
    requires few { count < 256 }
    requires room { length store.old.slots.items ≤ store.old.sizes.globals + count * store.old.sizes.most }
    requires size { size ≤ store.old.sizes.most }
    ensures value { state_of store.new ≡ record (state_of store.old) { cells = flat_entered (length (map slot_seen store.old.slots.items)) (map arg_seen args.now) (map slot_seen store.old.values.items) (map slot_seen store.old.slots.items ++ replicate size layout.empty) } }
    ensures input { store.new.input.items ≡ store.old.input.items }
    ensures sizes { store.new.sizes ≡ store.old.sizes }
{
    let begin = store.slots.len();
    grow(&mut store.slots, size as usize);
    fill(store, begin, args);
}

/// More slots, for which there is room, and which are empty.
#[inline(always)]
pub fn grow(slots: &mut Vec<Slot>, size: usize)
    requires { vec_len slots.old + size ≤ vec_capacity slots.old }
    ensures items { map slot_seen slots.new.items ≡ map slot_seen slots.old.items ++ replicate size layout.empty }
    ensures capacity { vec_capacity slots.old ≤ vec_capacity slots.new }
{
    let begin = slots.len();
    slots.resize(begin + size, Slot::Empty).unwrap();
}

/// Parameters get the store's values, in order.
#[inline(always)]
fn fill(store: &mut Store, base: usize, args: &[FlatArg])
    requires base { base ≤ length store.old.slots.items }
    requires small { base ≤ 4294967295 }
    ensures value { state_of store.new ≡ record (state_of store.old) { cells = flat_entered base (map arg_seen args.now) (map slot_seen store.old.values.items) (map slot_seen store.old.slots.items) } }
    ensures input { store.new.input.items ≡ store.old.input.items }
    ensures sizes { store.new.sizes ≡ store.old.sizes }
{
    for i in 0..args.len() {
        if store.values.len() <= i {
            return;
        }
        let value = store.values[i];
        put_slot(store, base + args[i].slot as usize, value);
    }
}

/// A result goes into the slot of a temporary of the frame whose slots begin at a base, where there are both.
#[inline(always)]
pub fn put_result(store: &mut Store, base: u32, temp: Option<u32>, given: Option<i64>)
    ensures value { state_of store.new ≡ flat_result base temp given (state_of store.old) }
    ensures input { store.new.input.items ≡ store.old.input.items }
    ensures sizes { store.new.sizes ≡ store.old.sizes }
{
    let Some(slot) = temp else {
        return;
    };
    let Some(value) = given else {
        return;
    };
    put_at(store, base as usize + slot as usize, value);
}
