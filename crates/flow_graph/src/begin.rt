//! Where points begin that are counted, and not there yet.
ghost use Rattle.std.specs.Prelude.{◌≡◌, ◌≤◌, ◌+◌, length, map};
ghost use Rattle.csub_semantics.specs.Syntax.{part_tree};
ghost use Rattle.flow_graph.specs.Numbers.{count_parts, enter_part, enter_parts};

use crate::count::{count_part, count_parts_of};
use csub_semantics::RPart;

/// Where a statement begins.
#[derive(Clone, Copy, Debug, PartialEq, Eq)]
pub struct Begin {
    /// The number of its first point, if it has one, and of the point behind it, if not.
    pub first: u32,
    /// The point at which it begins.
    pub enter: u32,
}

/// Where a statement without points begins, if control goes from it to `enter`.
pub fn ends(end: u32, enter: u32) -> Begin
    ensures { (result.first ≡ end) × (result.enter ≡ enter) }
{
    Begin { first: end, enter }
}

/// Where the part begins behind whose last point the number is `end`, and past which control goes to `past`.
pub fn part_begin(part: &RPart, end: u32, past: u32) -> Begin
    requires { length (part_tree part.now) ≤ end }
    ensures first { result.first + length (part_tree part.now) ≡ end }
    ensures enter { result.enter ≡ enter_part (part_tree part.now) result.first past }
{
    let first = end - count_part(part);
    let enter = if first < end { first } else { past };
    Begin { first, enter }
}

/// Where the parts begin behind whose last point the number is `end`, and past which control goes to `past`.
pub fn parts_begin(parts: &[RPart], end: u32, past: u32) -> Begin
    requires { count_parts (map part_tree parts.now) ≤ end }
    ensures first { result.first + count_parts (map part_tree parts.now) ≡ end }
    ensures enter { result.enter ≡ enter_parts (map part_tree parts.now) result.first past }
{
    let first = end - count_parts_of(parts);
    let enter = if first < end { first } else { past };
    Begin { first, enter }
}

/// What a loop does between two turns of its body.
#[derive(Clone, Copy, Debug, PartialEq, Eq)]
pub struct Again {
    /// Where the test begins.
    pub test: Begin,
    /// Where the third part of a `for` begins, past which control goes to the test.
    pub third: Begin,
}

/// Where the test and the third part of a `for` begin whose body's first number is `body`.
pub fn begin_again(test: &RPart, third: &[RPart], body: u32, past: u32) -> Again
    requires { length (part_tree test.now) + count_parts (map part_tree third.now) ≤ body }
    ensures test_first { result.test.first + length (part_tree test.now) ≡ result.third.first }
    ensures test_enter { result.test.enter ≡ enter_part (part_tree test.now) result.test.first past }
    ensures third_first { result.third.first + count_parts (map part_tree third.now) ≡ body }
    ensures third_enter { result.third.enter ≡ enter_parts (map part_tree third.now) result.third.first result.test.enter }
{
    let test = part_begin(test, body - count_parts_of(third), past);
    let third = parts_begin(third, body, test.enter);
    Again { test, third }
}
