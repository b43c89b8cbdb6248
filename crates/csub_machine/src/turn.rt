//! One turn of a run. Nothing here takes memory.
ghost use Rattle.std.specs.Prelude.{◌≡◌, ◌<◌, ◌+◌, [], ◌∷◌, ◌++◌, length, map, List};
ghost use Rattle.std.specs.Prelude.{pos, if◌then◌else◌};
ghost use Rattle.std.specs.Ordering.{int_eq};
ghost use Rattle.csub_semantics.specs.Points.{on_true, on_false};
ghost use Rattle.csub_semantics.specs.Flows.{flow_of, point_list};
ghost use Rattle.csub_semantics.specs.Runs.{Frame as StandingFrame, turn, exit_at, cross, pop};
ghost use Rattle.csub_semantics.specs.Acts.{Store as Held};
ghost use Rattle.flow_graph.specs.Graph.{IsGraphOf};
ghost use Rattle.csub_semantics.specs.Syntax.{program_tree, FunctionTree};
ghost use Rattle.csub_flat.specs.Sites.{place_of};
ghost use Rattle.csub_slots.specs.Layout.{live_size};
ghost use Rattle.csub_flat.specs.Frames.{globals_of};
ghost use Rattle.csub_slots.specs.Seen.{slot_seen, exit_seen};
ghost use Rattle.csub_slots.specs.States.{state_of};
ghost use Rattle.csub_slots.specs.Like.{Like};
ghost use Rattle.csub_flat.specs.Copies.{IsCopyAt, IsFlatOf};
ghost use Rattle.csub_flat.specs.Trees.{enters_callee, leaves_by};
ghost use Rattle.csub_flat.specs.Seen.{variable_seen, call_seen};
ghost use Rattle.csub_flat.specs.Ways.{AreWaysOut};
ghost use Rattle.csub_machine.specs.Standings.{frame_of, live_function, live_of, standing_of, AreFrames, Moves, Resumes, Crosses, CrossesOfProgram};

use crate::frames::{Frame, Frames};
use crate::ways::{way_at, way_by};
use csub_core::Program;
use csub_flat::{FlatCall, FlatLabel, FlatProgram, FlatVariable, PointWays};
use csub_semantics::{EndRule, Status};
use csub_slots::Store;
use csub_slots::act::{
    PlainExit, end_with, enter_call, eval_answer, eval_effect, eval_test, initialise,
    leave_function, put_result,
};
use flow_graph::Graph;
use std::mem;

/// What a turn leads to.
#[derive(Clone, Copy, Debug, PartialEq, Eq)]
pub enum Turn {
    /// The run goes on; a call crosses no edge, and any other turn the one with this number.
    Goes(Option<u32>),
    /// The run ends.
    Stops(Status),
    /// There is no such way out, which no valid program meets.
    Lost,
}

/// The top frame goes on along a way out, with this result.
#[inline(always)]
fn leave_by(
    program: &Program,
    ways: &PointWays,
    top: &mut Frame,
    exit: PlainExit,
    given: Option<i64>,
) -> Turn
    requires point { top.old.point < length (point_list (program_tree program.now)) }
    requires ways { AreWaysOut (program_tree program.now) top.old.point ways.now }
    ensures moves { (below : List StandingFrame) (s : Held) → let P = program_tree program.now in let here = place_of P top.old.point in Crosses P (cross (frame_of P top.old) below (exit_seen exit) given s ((flow_of P).succ here.function here.point (exit_seen exit))) result (record { frames = frame_of P top.new ∷ below; store = s }) }
    ensures point { top.new.point < length (point_list (program_tree program.now)) }
    ensures edge { CrossesOfProgram (program_tree program.now) result }
    ensures function { (place_of (program_tree program.now) top.new.point).function ≡ (place_of (program_tree program.now) top.old.point).function }
    ensures base { top.new.base ≡ top.old.base }
{
    match way_by(program, ways, top.point, exit) {
        None => Turn::Lost,
        Some(way) => {
            top.point = way.to;
            top.result = given;
            Turn::Goes(Some(way.edge))
        }
    }
}

/// The way out of a test by what it gave.
#[inline(always)]
fn exit_by(value: i64) -> PlainExit
    ensures { exit_seen result ≡ (if int_eq value (pos 0) then on_false else on_true) }
{
    if value == 0 {
        PlainExit::False
    } else {
        PlainExit::True
    }
}

/// The top frame, which stands at a switch, goes on by a value; its result is kept.
#[inline(always)]
fn choose_by(
    program: &Program,
    graph: &Graph,
    ways: &PointWays,
    top: &mut Frame,
    value: i64,
) -> Turn
    requires graph { IsGraphOf graph.now (program_tree program.now) }
    requires point { top.old.point < length (point_list (program_tree program.now)) }
    requires ways { AreWaysOut (program_tree program.now) top.old.point ways.now }
    ensures moves { (below : List StandingFrame) (s : Held) → let P = program_tree program.now in let here = place_of P top.old.point in let x = exit_at ((flow_of P).cases here.function here.point) value in Crosses P (cross (frame_of P top.old) below x top.old.result s ((flow_of P).succ here.function here.point x)) result (record { frames = frame_of P top.new ∷ below; store = s }) }
    ensures point { top.new.point < length (point_list (program_tree program.now)) }
    ensures edge { CrossesOfProgram (program_tree program.now) result }
    ensures function { (place_of (program_tree program.now) top.new.point).function ≡ (place_of (program_tree program.now) top.old.point).function }
    ensures base { top.new.base ≡ top.old.base }
{
    match way_at(program, graph, ways, top.point, value) {
        None => Turn::Lost,
        Some(way) => {
            top.point = way.to;
            Turn::Goes(Some(way.edge))
        }
    }
}

/// A frame comes on top, for which there is room.
#[inline(always)]
fn push_frame(frames: &mut Frames, point: u32, base: u32)
    requires { length frames.old.below.items < 256 }
    ensures top { frames.new.top ≡ record { point = point; result = None; base = base } }
    ensures below { frames.new.below.items ≡ frames.old.below.items ++ frames.old.top ∷ [] }
{
    let caller = mem::replace(
        &mut frames.top,
        Frame {
            point,
            result: None,
            base,
        },
    );
    frames.below.push(caller).unwrap();
}

/// The frame of a call, now on top, goes on with the result of the callee.
#[inline(always)]
fn resume(
    program: &Program,
    flat: &FlatProgram,
    top: &mut Frame,
    store: &mut Store,
    given: Option<i64>,
) -> Turn
    requires copies { IsFlatOf (program_tree program.now) flat.now }
    requires point { top.old.point < length (point_list (program_tree program.now)) }
    ensures moves { (below : List StandingFrame) (fs : List FunctionTree) (s : Held) → let P = program_tree program.now in length below ≡ length fs → top.old.base ≡ live_size (globals_of P) fs → Like (globals_of P) (live_function P top.old ∷ fs) s (state_of store.old) → Resumes P (pop (flow_of P) (frame_of P top.old ∷ below) given s) result top.new below fs (state_of store.new) }
    ensures point { top.new.point < length (point_list (program_tree program.now)) }
    ensures edge { CrossesOfProgram (program_tree program.now) result }
    ensures function { (place_of (program_tree program.now) top.new.point).function ≡ (place_of (program_tree program.now) top.old.point).function }
    ensures base { top.new.base ≡ top.old.base }
    ensures input { store.new.input.items ≡ store.old.input.items }
    ensures sizes { store.new.sizes ≡ store.old.sizes }
{
    let point = &flat.points[top.point as usize];
    let FlatLabel::Call(call) = &point.label else {
        return Turn::Lost;
    };
    put_result(store, top.base, call.temp, given);
    let kept = top.result;
    leave_by(program, &point.ways, top, PlainExit::Next, kept)
}

/// A turn at a call: the frame of the callee comes on top, and no edge is crossed.
#[inline(never)]
fn enter_turn(
    program: &Program,
    graph: &Graph,
    flat: &FlatProgram,
    frames: &mut Frames,
    store: &mut Store,
    call: &FlatCall,
) -> Turn
    requires graph { IsGraphOf graph.now (program_tree program.now) }
    requires copies { IsFlatOf (program_tree program.now) flat.now }
    requires sizes { store.old.sizes ≡ flat.now.sizes }
    requires frames { AreFrames (program_tree program.now) frames.old (length (map slot_seen store.old.slots.items)) }
    requires copy { IsCopyAt (program_tree program.now) frames.old.top.point (enters_callee (call_seen call.now)) }
    ensures moves { (s : Held) → let P = program_tree program.now in Like (globals_of P) (live_of P frames.old) s (state_of store.old) → Moves P (turn (flow_of P) (standing_of P frames.old s)) result frames.new (state_of store.new) }
    ensures edge { CrossesOfProgram (program_tree program.now) result }
    ensures input { store.new.input.items ≡ store.old.input.items }
    ensures sizes { store.new.sizes ≡ store.old.sizes }
{
    let count = frames.below.len() as u32 + 1;
    match enter_call(store, call, count, frames.top.base) {
        Err(trap) => Turn::Stops(Status::Trap(trap)),
        Ok(begin) => {
            push_frame(frames, call.entry, begin);
            Turn::Goes(None)
        }
    }
}

/// A turn at the end of a function: its frame goes, and that of its call goes on, or the run ends.
#[inline(never)]
fn leave_turn(
    program: &Program,
    graph: &Graph,
    flat: &FlatProgram,
    frames: &mut Frames,
    store: &mut Store,
    rule: &EndRule,
    first: &FlatVariable,
) -> Turn
    requires graph { IsGraphOf graph.now (program_tree program.now) }
    requires copies { IsFlatOf (program_tree program.now) flat.now }
    requires sizes { store.old.sizes ≡ flat.now.sizes }
    requires frames { AreFrames (program_tree program.now) frames.old (length (map slot_seen store.old.slots.items)) }
    requires copy { IsCopyAt (program_tree program.now) frames.old.top.point (leaves_by rule.now (variable_seen first.now)) }
    ensures moves { (s : Held) → let P = program_tree program.now in Like (globals_of P) (live_of P frames.old) s (state_of store.old) → Moves P (turn (flow_of P) (standing_of P frames.old s)) result frames.new (state_of store.new) }
    ensures edge { CrossesOfProgram (program_tree program.now) result }
    ensures input { store.new.input.items ≡ store.old.input.items }
    ensures sizes { store.new.sizes ≡ store.old.sizes }
{
    match leave_function(store, *rule, *first, frames.top.base, frames.top.result) {
        Err(status) => Turn::Stops(status),
        Ok(given) => match frames.below.pop() {
            None => Turn::Lost,
            Some(frame) => {
                frames.top = frame;
                resume(program, flat, &mut frames.top, store, given)
            }
        },
    }
}

/// One turn: what is done at the top frame's point, and where control goes by it.
#[inline(always)]
pub fn take_turn(
    program: &Program,
    graph: &Graph,
    flat: &FlatProgram,
    frames: &mut Frames,
    store: &mut Store,
) -> Turn
    requires graph { IsGraphOf graph.now (program_tree program.now) }
    requires copies { IsFlatOf (program_tree program.now) flat.now }
    requires sizes { store.old.sizes ≡ flat.now.sizes }
    requires frames { AreFrames (program_tree program.now) frames.old (length (map slot_seen store.old.slots.items)) }
    ensures moves { (s : Held) → let P = program_tree program.now in Like (globals_of P) (live_of P frames.old) s (state_of store.old) → Moves P (turn (flow_of P) (standing_of P frames.old s)) result frames.new (state_of store.new) }
    ensures edge { CrossesOfProgram (program_tree program.now) result }
    ensures input { store.new.input.items ≡ store.old.input.items }
    ensures sizes { store.new.sizes ≡ store.old.sizes }
{
    let point = &flat.points[frames.top.point as usize];
    let ways = &point.ways;
    let base = frames.top.base;
    let kept = frames.top.result;
    match &point.label {
        FlatLabel::Next => leave_by(program, ways, &mut frames.top, PlainExit::Next, kept),
        FlatLabel::Eval(expr) => match eval_effect(store, base, expr) {
            Err(trap) => Turn::Stops(Status::Trap(trap)),
            Ok(_) => leave_by(program, ways, &mut frames.top, PlainExit::Next, kept),
        },
        FlatLabel::Branch(expr) => match eval_test(store, base, expr) {
            Err(trap) => Turn::Stops(Status::Trap(trap)),
            Ok(value) => leave_by(program, ways, &mut frames.top, exit_by(value), kept),
        },
        FlatLabel::Switch(expr) => match eval_test(store, base, expr) {
            Err(trap) => Turn::Stops(Status::Trap(trap)),
            Ok(value) => choose_by(program, graph, ways, &mut frames.top, value),
        },
        FlatLabel::Return(kind, expr) => match eval_answer(store, base, *kind, expr) {
            Err(trap) => Turn::Stops(Status::Trap(trap)),
            Ok(given) => { leave_by(program, ways, &mut frames.top, PlainExit::Next, Some(given)) }
        },
        FlatLabel::Init(steps) => match initialise(store, base, steps) {
            Err(trap) => Turn::Stops(Status::Trap(trap)),
            Ok(()) => leave_by(program, ways, &mut frames.top, PlainExit::Next, kept),
        },
        FlatLabel::Halt(expr) => match eval_test(store, base, expr) {
            Err(trap) => Turn::Stops(Status::Trap(trap)),
            Ok(value) => Turn::Stops(end_with(value)),
        },
        FlatLabel::Call(call) => enter_turn(program, graph, flat, frames, store, call),
        FlatLabel::Exit(rule, first) => leave_turn(
            program, graph, flat, frames, store, rule, first,
        ),
    }
}
