//! The ways out of switches, gotos and exits in the numbered graphs of small programs.
use crate::graphs::{graph_of, has_edges};
use csub_core::ExitLabel;
use flow_graph::Graph;
use std::alloc::{AllocError, Global};
use std::test::Fail;

/// Where the way out of a point leads that is for all values but these.
fn other_way(
    alloc: Global,
    graph: &Graph,
    point: u32,
    values: &[i64],
) -> Result<Option<u32>, AllocError> {
    if point >= graph.points() {
        return Ok(None);
    }
    let mut sorted = Vec::new(alloc);
    sorted.extend_from_slice(values)?;
    Ok(graph.follow(point, &ExitLabel::Default(sorted)))
}

/// Where the way out of a point leads that is for a case.
fn way_of_case(graph: &Graph, point: u32, value: i64) -> Option<u32> {
    if point >= graph.points() {
        return None;
    }
    graph.follow(point, &ExitLabel::Case(value))
}

// Points 0 to 2 are those of `#start`; those of `main` are its entry, 3, the value of the `switch`, 4, the outputs, 5 and
// 6, the return, 7, and its exit, 8.
const EDGES_OF_QUESTION: &[(u32, u32)] = &[
    (0, 1),
    (1, 2),
    (3, 4),
    (4, 5),
    (4, 6),
    (5, 7),
    (6, 7),
    (7, 8),
];

/// `switch (getchar()) { case 65: putchar(97); break; default: putchar(63); } return 0;`
const QUESTION: &str =
    "switch switch_value getchar { case:65 line eval putchar 97 break default line eval putchar 63 } line return:int 0";

#[test]
fn a_default_is_known_by_the_values_of_the_cases(rt: HostRuntime) -> Result<(), Fail> {
    let alloc = rt.alloc();
    let graph = graph_of(alloc, QUESTION)?;
    assert!(rt; has_edges(&graph, EDGES_OF_QUESTION));
    assert_eq!(rt; other_way(alloc, &graph, 4, &[65])?, Some(6));
    assert_eq!(rt; other_way(alloc, &graph, 4, &[65, 66])?, None);
    assert_eq!(rt; other_way(alloc, &graph, 4, &[])?, None);
    assert_eq!(rt; way_of_case(&graph, 4, 65), Some(5));
    assert_eq!(rt; way_of_case(&graph, 4, 66), None);
    Ok(())
}

// The points are those of the last program. The edges of the cases stand in the order of their lines, and the one of all
// other values behind them, by the values in rising order; it leads past the `switch`, as the last line does.
const EDGES_OF_FALLING: &[(u32, u32)] = &[
    (0, 1),
    (1, 2),
    (3, 4),
    (4, 5),
    (4, 6),
    (4, 7),
    (4, 7),
    (5, 6),
    (6, 7),
    (7, 8),
];

/// `switch (getchar()) { case 7: putchar('a'); case -1: putchar('b'); case 3: } return 0;`
const FALLING: &str =
    "switch switch_value getchar { case:7 line eval putchar 97 case:-1 line eval putchar 98 case:3 } line return:int 0";

#[test]
fn the_edges_of_cases_stand_in_the_order_of_their_lines(rt: HostRuntime) -> Result<(), Fail> {
    let alloc = rt.alloc();
    let graph = graph_of(alloc, FALLING)?;
    assert!(rt; has_edges(&graph, EDGES_OF_FALLING));
    assert_eq!(rt; other_way(alloc, &graph, 4, &[-1, 3, 7])?, Some(7));
    assert_eq!(rt; other_way(alloc, &graph, 4, &[7, -1, 3])?, None);
    Ok(())
}

// The points of `main` are its entry, 3, the first `goto`, 4, the test, 5, the output, 6, the `exit`, 7, the other `goto`,
// 8, and its exit, 9. The `exit` has no way out.
const EDGES_OF_JUMPING: &[(u32, u32)] = &[
    (0, 1),
    (1, 2),
    (3, 4),
    (4, 6),
    (5, 6),
    (5, 7),
    (6, 5),
    (8, 9),
];

/// `goto a; while (getchar()) { a: putchar('x'); } exit(1); goto b; b: ;`
const JUMPING: &str =
    "goto:a jump while test getchar { mark:a line eval putchar 120 } line exit 1 goto:b jump mark:b lines:0";

#[test]
fn a_goto_leads_to_its_label_and_an_exit_nowhere(rt: HostRuntime) -> Result<(), Fail> {
    let alloc = rt.alloc();
    let graph = graph_of(alloc, JUMPING)?;
    assert!(rt; graph.points() == 10);
    assert!(rt; has_edges(&graph, EDGES_OF_JUMPING));
    assert!(rt; graph.follow(7, &ExitLabel::Next).is_none());
    Ok(())
}
