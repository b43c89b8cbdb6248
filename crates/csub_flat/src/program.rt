//! The flat copy of a program.
ghost use Rattle.std.specs.Prelude.{ℕ, ◌≡◌, ◌≤◌, ◌<◌, length, IfOk, All};
ghost use Rattle.std.specs.Option.{option_map};
ghost use Rattle.csub_semantics.specs.Labels.{call_tree, label_tree};
ghost use Rattle.csub_semantics.specs.Syntax.{program_tree};
ghost use Rattle.csub_semantics.specs.Flows.{point_list};
ghost use Rattle.flow_graph.specs.Graph.{IsGraphOf};
ghost use Rattle.csub_flat.specs.Frames.{frame_size, globals_of};
ghost use Rattle.csub_flat.specs.Globals.{AreSlotsOf};
ghost use Rattle.csub_flat.specs.Objects.{AreFramesOf};
ghost use Rattle.csub_flat.specs.Scopes.{program_at, function_at};
ghost use Rattle.csub_flat.specs.Fits.{FitsCall, FitsLabel};
ghost use Rattle.csub_flat.specs.Flatten.{temp_slot};
ghost use Rattle.csub_flat.specs.Copies.{IsFlat, IsFlatCall, IsCopyAt, IsPointAt, IsFlatOf, first_size};
ghost use Rattle.csub_flat.specs.Seen.{call_seen, label_seen};

use crate::flat::{FlatCall, FlatLabel};
use crate::flatten::{flatten_args, flatten_expr, flatten_temporary, temporary_slot};
use crate::frame::{Frame, frame_slots, list_frames};
use crate::globals::{globals_size, number_globals};
use crate::inits::flatten_begin;
use crate::scope::Scope;
use crate::ways::{PointWays, ways_of};
use csub_core::Program;
use csub_semantics::{Answer, CallLabel, IntKind, Label, Text};
use flow_graph::Graph;
use std::alloc::{AllocError, Global};
use std::collections::BTreeMap;

/// How many slots a run of a program takes.
#[derive(Clone, Copy, Debug, PartialEq, Eq)]
pub struct Sizes {
    /// How many slots the globals have, at most 65,536.
    pub globals: u32,
    /// How many slots a frame has at most, which are no more than 4,096.
    pub most: u32,
}

/// A point. What a turn looks at stands in one row.
#[derive(Drop)]
pub struct FlatPoint {
    /// What is done there.
    pub label: FlatLabel,
    /// The ways out.
    pub ways: PointWays,
}

/// The flat copy of a program: its points, and how many slots a run takes.
pub struct FlatProgram {
    /// The points, by their numbers.
    pub points: Vec<FlatPoint>,
    /// How many slots a run takes.
    pub sizes: Sizes,
}

impl Drop for FlatProgram {
    fn drop(self) {
        let FlatProgram {
            points: _,
            sizes: _,
        } = self;
    }
}

/// The slot of the temporary that takes a result.
fn flatten_temp(scope: Scope<'_>, temp: Option<u32>) -> Option<u32>
    ensures { result ≡ option_map (temp_slot (function_at scope.entry)) temp }
{
    Some(temporary_slot(scope, temp?))
}

/// The flat copy of a call. An `Err` is want of memory.
fn flatten_call(
    alloc: Global,
    graph: &Graph,
    scope: Scope<'_>,
    call: &CallLabel,
) -> Result<FlatCall, AllocError>
    requires graph { IsGraphOf graph.now (program_at scope) }
    requires fits { FitsCall (program_at scope) (function_at scope) (call_tree call.now) }
    ensures { IfOk result (λ made. IsFlatCall (program_at scope.entry) (function_at scope.entry) (call_tree call.now) (call_seen made)) }
{
    let Some(number) = graph.find(&call.callee) else {
        unreachable!();
    };
    let entry = graph.start_of(number);
    let functions = scope.program.functions();
    let callee = Scope {
        program: scope.program,
        slots: scope.slots,
        frames: scope.frames,
        function: &functions[number as usize],
        frame: &scope.frames[number as usize],
    };
    let args = flatten_args(alloc, scope, callee, &call.params, &call.args)?;
    let size = callee.frame.size;
    let temp = flatten_temp(scope, call.temp);
    Ok(FlatCall {
        entry,
        size,
        args,
        temp,
    })
}

/// The flat copy of a label. An `Err` is want of memory.
fn flatten_label(
    alloc: Global,
    graph: &Graph,
    scope: Scope<'_>,
    label: &Label,
) -> Result<FlatLabel, AllocError>
    requires graph { IsGraphOf graph.now (program_at scope) }
    requires fits { FitsLabel (program_at scope) (function_at scope) (label_tree label.now) }
    ensures { IfOk result (λ made. IsFlat (program_at scope.entry) (function_at scope.entry) (label_tree label.now) (label_seen made)) }
{
    match label {
        Label::Entry | Label::Return(None) | Label::Goto => Ok(FlatLabel::Next),
        Label::Exit(rule) => {
            let first = flatten_temporary(scope, 1, IntKind::Int);
            Ok(FlatLabel::Exit(*rule, first))
        }
        Label::Eval(expr) => Ok(FlatLabel::Eval(flatten_expr(alloc, scope, expr)?)),
        Label::Init(owner, ctype, init) => {
            Ok(FlatLabel::Init(flatten_begin(alloc, scope, owner, ctype, init)?))
        }
        Label::Branch(expr) => Ok(FlatLabel::Branch(flatten_expr(alloc, scope, expr)?)),
        Label::Switch(expr) => Ok(FlatLabel::Switch(flatten_expr(alloc, scope, expr)?)),
        Label::Halt(expr) => Ok(FlatLabel::Halt(flatten_expr(alloc, scope, expr)?)),
        Label::Return(Some(Answer { kind, value })) => {
            Ok(FlatLabel::Return(*kind, flatten_expr(alloc, scope, value)?))
        }
        Label::Call(call) => Ok(FlatLabel::Call(flatten_call(alloc, graph, scope, call)?)),
    }
}

/// The copy of the label of a point, by the slots of the globals and the frames of the functions. An `Err` is want of
/// memory.
fn flatten_point(
    alloc: Global,
    program: &Program,
    graph: &Graph,
    slots: &BTreeMap<Text, u32>,
    frames: &[Frame],
    point: u32,
) -> Result<FlatLabel, AllocError>
    requires graph { IsGraphOf graph.now (program_tree program.now) }
    requires slots { AreSlotsOf (globals_of (program_tree program.now)) slots.now }
    requires frames { AreFramesOf (program_tree program.now).functions frames.now }
    requires point { point < length (point_list (program_tree program.now)) }
    ensures { IfOk result (λ made. IsCopyAt (program_tree program.now) point (label_seen made)) }
{
    let number = graph.function_at(point);
    let functions = program.functions();
    let scope = Scope {
        program,
        slots,
        frames,
        function: &functions[number as usize],
        frame: &frames[number as usize],
    };
    flatten_label(alloc, graph, scope, graph.label_at(point))
}

/// A point with its ways out. An `Err` is want of memory.
fn make_point(
    alloc: Global,
    program: &Program,
    graph: &Graph,
    slots: &BTreeMap<Text, u32>,
    frames: &[Frame],
    point: u32,
) -> Result<FlatPoint, AllocError>
    requires graph { IsGraphOf graph.now (program_tree program.now) }
    requires slots { AreSlotsOf (globals_of (program_tree program.now)) slots.now }
    requires frames { AreFramesOf (program_tree program.now).functions frames.now }
    requires point { point < length (point_list (program_tree program.now)) }
    ensures { IfOk result (IsPointAt (program_tree program.now) point) }
{
    let ways = ways_of(alloc, program, graph, point)?;
    let label = flatten_point(alloc, program, graph, slots, frames, point)?;
    Ok(FlatPoint { label, ways })
}

/// How many slots a frame of a program has at most.
fn greatest_frame(program: &Program) -> u32
    ensures most { All (λ f. frame_size f ≤ result) (program_tree program.now).functions }
    ensures small { result ≤ 4096 }
{
    let functions = program.functions();
    let mut most: u32 = 0;
    for i in 0..functions.len() {
        most = most.max(frame_slots(&functions[i]));
    }
    most
}

/// The flat copy of a program. An `Err` is want of memory. The work is that of copying the labels, of putting the
/// objects of the program and of each function into ordered maps, and a look-up in such a map for each use of an object
/// and each call.
pub fn flatten_program(
    alloc: Global,
    program: &Program,
    graph: &Graph,
) -> Result<FlatProgram, AllocError>
    requires graph { IsGraphOf graph.now (program_tree program.now) }
    ensures { IfOk result (IsFlatOf (program_tree program.now)) }
{
    let globals = program.globals();
    let slots = number_globals(alloc, globals)?;
    let frames = list_frames(alloc, program)?;
    let mut points = Vec::new(alloc);
    for point in 0..graph.points() {
        points.push(make_point(alloc, program, graph, &slots, &frames, point)?)?;
    }
    let sizes = Sizes {
        globals: globals_size(globals),
        most: greatest_frame(program),
    };
    Ok(FlatProgram { points, sizes })
}

/// How many slots a frame of the first function has.
pub fn first_slots(program: &Program) -> u32
    ensures value { result ≡ first_size (program_tree program.now) }
    ensures within { (most : ℕ) → All (λ f. frame_size f ≤ most) (program_tree program.now).functions → result ≤ most }
{
    let functions = program.functions();
    if functions.len() == 0 {
        return 0;
    }
    frame_slots(&functions[0])
}
