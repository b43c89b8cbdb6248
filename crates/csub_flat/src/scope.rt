//! Where a label stands.
ghost use Rattle.std.specs.Prelude.{◌≤◌};
ghost use Rattle.csub_semantics.specs.Syntax.{program_tree, function_tree};
ghost use Rattle.csub_flat.specs.Frames.{globals_of, frame_size};
ghost use Rattle.csub_flat.specs.Globals.{AreSlotsOf};
ghost use Rattle.csub_flat.specs.Objects.{IsFrameOf, AreFramesOf};

use crate::frame::Frame;
use csub_core::Program;
use csub_semantics::{Function, Text};
use std::collections::BTreeMap;

/// Where a label stands: the globals and the function whose objects it may name. A frame of the function has at most
/// 4,096 slots.
#[derive(Clone, Copy)]
pub struct Scope<'a> {
    /// The program.
    pub program: &'a Program,
    /// The slots of the program's globals, by their names.
    pub slots: &'a BTreeMap<Text, u32>,
    /// The frames of the program's functions, by their numbers.
    pub frames: &'a [Frame],
    /// The function.
    pub function: &'a Function,
    /// The function's frame.
    pub frame: &'a Frame,
    ghost numbered: { AreSlotsOf (globals_of (program_tree program.now)) slots.now },
    ghost framed: { AreFramesOf (program_tree program.now).functions frames.now },
    ghost placed: { IsFrameOf (function_tree function.now) frame.now },
    ghost small: { frame_size (function_tree function.now) ≤ 4096 },
}
