//! Programs and graphs go between threads, and are shared among them.
use csub_core::Program;
use flow_graph::Graph;
use program_words::read_program;
use std::alloc::Global;
use std::test::Fail;
use std::thread;

/// The program of an empty `main`.
fn smallest(alloc: Global) -> Option<Program> {
    read_program(alloc, "start main { }").ok()?
}

/// Its graph.
fn smallest_graph(alloc: Global) -> Option<Graph> {
    Graph::build(alloc, &smallest(alloc)?).ok()
}

#[test]
fn a_program_goes_between_threads(rt: HostRuntime) -> Result<(), Fail> {
    let alloc = rt.alloc();
    let mut programs = Vec::new(alloc);
    programs.push(smallest(alloc).ok_or("refused")?)?;
    programs.push(smallest(alloc).ok_or("refused")?)?;
    let read_and_make = |_start: usize, chunk: &[Program]| -> Option<Program> {
        if chunk.first()?.functions().len() == 2 {
            smallest(alloc)
        } else {
            None
        }
    };
    let made = thread::map_chunks(&rt, alloc, &programs, 1, &read_and_make)?;
    assert_eq!(rt; made.len(), 2);
    assert!(rt; made.iter().all(|program| program.is_some()));
    Ok(())
}

#[test]
fn a_graph_goes_between_threads(rt: HostRuntime) -> Result<(), Fail> {
    let alloc = rt.alloc();
    let mut graphs = Vec::new(alloc);
    graphs.push(smallest_graph(alloc).ok_or("refused")?)?;
    graphs.push(smallest_graph(alloc).ok_or("refused")?)?;
    let read_and_make = |_start: usize, chunk: &[Graph]| -> Option<Graph> {
        if chunk.first()?.points() == 5 {
            smallest_graph(alloc)
        } else {
            None
        }
    };
    let made = thread::map_chunks(&rt, alloc, &graphs, 1, &read_and_make)?;
    assert_eq!(rt; made.len(), 2);
    assert!(rt; made.iter().all(|graph| graph.is_some()));
    Ok(())
}
