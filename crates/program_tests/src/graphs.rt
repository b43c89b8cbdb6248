//! The numbered graphs of small programs, whose points have their numbers as places.
use csub_core::{ExitLabel, Label, Point, Program};
use flow_graph::Graph;
use program_words::read_program;
use std::alloc::Global;
use std::test::Fail;

/// The graph of the program whose `main` has these lines.
pub fn graph_of(alloc: Global, lines: &str) -> Result<Graph, Fail> {
    let text = format!(in alloc; "start main {{ {lines} }}")?;
    let program = read_program(alloc, text.as_str())?.ok_or("refused")?;
    built(alloc, &program)
}

/// The graph of a program, which is dropped where it was made.
fn built(alloc: Global, program: &Program) -> Result<Graph, Fail> {
    Ok(Graph::build(alloc, program)?)
}

/// Whether the edges are those between the points, and each is found by its exit label.
pub fn has_edges(graph: &Graph, ends: &[(u32, u32)]) -> bool {
    if graph.edges() as usize != ends.len() {
        return false;
    }
    for edge in 0..ends.len() {
        let found = graph.edge_at(edge as u32);
        let leads = graph.follow(found.from, found.exit) == Some(found.to);
        let numbered = graph.edge_number(found.from, found.exit) == Some(edge as u32);
        if !leads || !numbered || (found.from, found.to) != ends[edge] {
            return false;
        }
    }
    true
}

// Points 0 to 2 are those of `#start`, and 3 to 8 those of `main`: its entry, the branch, the two outputs, the return and
// its exit. Edges are numbered by their source points.
const SMALL_EDGES: &[(u32, u32)] = &[
    (0, 1),
    (1, 2),
    (3, 4),
    (4, 5),
    (4, 6),
    (5, 7),
    (6, 7),
    (7, 8),
];

/// `if (getchar()) putchar(66); else putchar(67); return 0;`
pub const SMALL: &str =
    "choose at:4 test getchar { line at:5 eval putchar 66 } { line at:6 eval putchar 67 } line at:7 return:int 0";

#[test]
fn points_and_edges_are_numbered_in_the_order_of_the_text(rt: HostRuntime) -> Result<(), Fail> {
    let graph = graph_of(rt.alloc(), SMALL)?;
    assert!(rt; graph.points() == 9 && graph.edges() == 8);
    assert!(rt; has_edges(&graph, SMALL_EDGES));
    assert!(rt; matches!(graph.edge_at(3).exit, ExitLabel::True));
    assert!(rt;
        graph.follow(4, &ExitLabel::Next) == None && graph.edge_number(4, &ExitLabel::Next) == None
    );
    assert!(rt; graph.function_at(6) == 1 && graph.start_of(1) == 3 && graph.exit_of(1) == 8);
    assert!(rt; graph.span_at(6).start == 6);
    assert!(rt; matches!(graph.label_at(7), Label::Return(_)));
    assert!(rt; has_place(&graph, 6, &[0, 1, 0], 0, 0));
    assert!(rt; graph.find(graph.name_of(1)) == Some(1));
    Ok(())
}

/// Whether a point is a stage of a part of the statement at a path.
fn has_place(graph: &Graph, point: u32, path: &[u32], part: u32, stage: u32) -> bool {
    if point >= graph.points() {
        return false;
    }
    match graph.point_at(point) {
        Point::At(place) => {
            place.path.as_slice() == path && place.part == part && place.stage == stage
        }
        _ => false,
    }
}

// Points 0 to 2 are those of `#start`, 3 is the entry of `main`, 4 to 13 are as their places, and 14 is its exit.
const LOOP_EDGES: &[(u32, u32)] = &[
    (0, 1),
    (1, 2),
    (3, 4),
    (4, 5),
    // the test of the `for`: to its body, and past it
    (5, 7),
    (5, 10),
    // the third expression comes before the test (C11 6.8.5.3p1)
    (6, 5),
    // `break` ends the `for` (C11 6.8.6.3p2)
    (7, 10),
    (7, 8),
    // `continue` leads to the third expression, as the end of the body does (C11 6.8.6.2p2)
    (8, 6),
    (8, 9),
    (9, 6),
    // the `while`, which is the body of the `do`: past it comes the test of the `do`
    (10, 11),
    (10, 12),
    (11, 10),
    // the test of the `do`: to its body, and past it
    (12, 10),
    (12, 13),
    (13, 14),
];

/// ```c
/// for (putchar(65); getchar(); putchar(66)) { if (getchar()) break; if (getchar()) continue; getchar(); }
/// do while (getchar()) putchar(68); while (getchar());
/// return 0;
/// ```
const LOOPS: &str =
    "for:1:1 at:4 eval putchar 65 at:5 test getchar at:6 eval putchar 66 { if at:7 test getchar { break } if at:8 test getchar { continue } line at:9 eval getchar } do { while at:10 test getchar { line at:11 eval putchar 68 } } at:12 test getchar line at:13 return:int 0";

#[test]
fn loops_lead_back_to_their_tests_or_third_parts(rt: HostRuntime) -> Result<(), Fail> {
    let graph = graph_of(rt.alloc(), LOOPS)?;
    assert!(rt; graph.points() == 15);
    for point in 4..14u32 {
        assert!(rt; graph.span_at(point).start == point);
    }
    assert!(rt; has_edges(&graph, LOOP_EDGES));
    assert!(rt; has_place(&graph, 6, &[0], 2, 0));
    Ok(())
}
