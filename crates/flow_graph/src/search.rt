//! Searches for the way out of a point with an exit label.
ghost use Rattle.std.specs.Prelude.{◌≡◌, ◌<◌, length, IfSome, slice_get, find};
ghost use Rattle.std.specs.Option.{option_and_then};
ghost use Rattle.csub_semantics.specs.Points.{exit_tree, exit_eq};
ghost use Rattle.flow_graph.specs.Cases.{place_in, ArePlaces};

use crate::case_table::find_case;
use crate::node::GraphWay;
use csub_semantics::ExitLabel;
use std::collections::BTreeMap;

/// Whether two exit labels are equal.
fn same_exit(a: &ExitLabel, b: &ExitLabel) -> bool
    ensures { result ≡ exit_eq (exit_tree a.now) (exit_tree b.now) }
{
    match a {
        ExitLabel::Next => matches!(b, ExitLabel::Next),
        ExitLabel::True => matches!(b, ExitLabel::True),
        ExitLabel::False => matches!(b, ExitLabel::False),
        ExitLabel::Case(value) => match b {
            ExitLabel::Case(other) => *value == *other,
            _ => false,
        },
        ExitLabel::Default(values) => match b {
            ExitLabel::Default(others) => values.as_slice() == others.as_slice(),
            _ => false,
        },
    }
}

/// The place of the first way out with this exit label, looked for one by one.
fn find_way(ways: &[GraphWay], exit: &ExitLabel) -> Option<usize>
    ensures found { option_and_then (slice_get ways.now) result ≡ find (λ w. exit_eq (exit_tree w.exit) (exit_tree exit.now)) ways.now }
    ensures within { IfSome result (λ i. i < length ways.now) }
{
    for i in 0..ways.len() {
        if same_exit(&ways[i].exit, exit) {
            return Some(i);
        }
    }
    None
}

/// The place of the first way out of the point with a number that has this exit label. A case is found in the table of
/// cases, by a logarithm of the cases of the program; any other label is looked for one by one, and a point without
/// cases has at most two ways out.
pub fn find_exit(
    ways: &[GraphWay],
    cases: &BTreeMap<(u32, i64), u32>,
    point: u32,
    exit: &ExitLabel,
) -> Option<usize>
    requires { ArePlaces ways.now (place_in cases.now point) }
    ensures found { option_and_then (slice_get ways.now) result ≡ find (λ w. exit_eq (exit_tree w.exit) (exit_tree exit.now)) ways.now }
    ensures within { IfSome result (λ i. i < length ways.now) }
{
    match exit {
        ExitLabel::Case(value) => find_case(cases, point, *value),
        _ => find_way(ways, exit),
    }
}
