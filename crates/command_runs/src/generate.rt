//! Generated pairs of programs, and what the method says of them.
ghost use Rattle.std.specs.Prelude.{◌≡◌, ◌<◌, ◌≤◌, ◌++◌, ◌∷◌, [], All, IfOk, OnOk, MatchResult, length};
ghost use Rattle.std.specs.Fmt.{decimal};
ghost use Rattle.csub_semantics.specs.Syntax.{ProgramTree, program_tree};
ghost use Rattle.csub_answers.specs.Accepted.{Accepted};
ghost use Rattle.test_suite.specs.Suites.{most_tests};
ghost use Rattle.test_suite.specs.Tests.{IsWithin};
ghost use Rattle.command_runs.specs.Generated.{IsGenText, IsMeasured, gen_text, seed_line, size_line, found_line};
ghost use Rattle.command_runs.specs.Steps.{AreMade, IsMadeCause, IsMadeRefusal};
ghost use Rattle.command_runs.specs.declared.generate.Measured.{Measured};

use crate::record::make_history;
use crate::rerun::rerun_selected;
use command_files::{Runner, Versions, build_graphs, choose, read_source};
use command_refusals::{Refusal, Role};
use dv_gen::{Made, make_pair};
use line_text::push_decimal;
use std::alloc::{AllocError, Global};
use std::thread::Threads;
use test_gate::Gate;
use test_select::count_selected;
use test_suite::Test;

/// What is counted of a generated pair and its tests.
#[derive(Clone, Copy)]
pub struct Measured {
    /// The functions of the old program, `#start` not among them.
    pub functions: usize,
    /// The points of the old program.
    pub points: u32,
    /// The edges of the old program.
    pub edges: u32,
    /// The tests.
    pub tests: usize,
    /// The dangerous edges.
    pub dangerous: u32,
    /// The selected tests.
    pub selected: usize,
    /// The selected tests that differ on the new program.
    pub differ: usize,
}

/// The text of `gen` for a seed and a size.
pub fn generated_text<R: Threads + Sync, G: Gate>(
    alloc: Global,
    seed: u32,
    size: u32,
    runner: Runner<'_, R, G>,
) -> Result<Vec<u8>, Refusal>
    requires seeds { seed ≤ 65535 }
    requires positive { 0 < size }
    requires sizes { size ≤ 400 }
    requires some { 0 < runner.workers }
    requires few { runner.workers ≤ 64 }
    ensures { MatchResult result (λ text. IsGenText seed size text.items) (IsMadeCause seed size) }
{
    let Made { old, new, tests } = make_pair(alloc, seed, size)?;
    let versions = read_made(alloc, old, new)?;
    Ok(measured_text(alloc, seed, size, &versions, &tests, runner)?)
}

/// Both versions by their sources.
fn read_made(alloc: Global, source: Vec<u8>, new_source: Vec<u8>) -> Result<Versions, Refusal>
    ensures { MatchResult result
        (AreMade source.items new_source.items)
        (IsMadeRefusal source.items new_source.items) }
{
    let old = read_source(alloc, Role::Old, &source)?;
    let new = read_source(alloc, Role::New, &new_source)?;
    Ok(Versions {
        source,
        new_source,
        old,
        new,
    })
}

/// The text on these versions and tests. An `Err` is want of memory.
fn measured_text<R: Threads + Sync, G: Gate>(
    alloc: Global,
    seed: u32,
    size: u32,
    versions: &Versions,
    tests: &[Test],
    runner: Runner<'_, R, G>,
) -> Result<Vec<u8>, AllocError>
    requires within { All IsWithin tests.now }
    requires count { length tests.now ≤ most_tests }
    requires some { 0 < runner.workers }
    requires few { runner.workers ≤ 64 }
    requires alone { (P : ProgramTree) → Accepted versions.now.source.items P → P ≡ program_tree versions.now.old }
    ensures { IfOk result (λ text. (m : Measured) × IsMeasured (program_tree versions.now.old) (program_tree versions.now.new) tests.now m × (text.items ≡ gen_text seed size m)) }
{
    let measured = measure(alloc, versions, tests, runner)?;
    let mut text = Vec::new(alloc);
    push_seed_line(&mut text, seed, size)?;
    push_size_line(&mut text, measured)?;
    push_found_line(&mut text, measured)?;
    Ok(text)
}

/// Records the tests on the old version, walks, selects, and runs the selected tests on the new version. An `Err` is want of
/// memory.
fn measure<R: Threads + Sync, G: Gate>(
    alloc: Global,
    versions: &Versions,
    tests: &[Test],
    runner: Runner<'_, R, G>,
) -> Result<Measured, AllocError>
    requires within { All IsWithin tests.now }
    requires count { length tests.now ≤ most_tests }
    requires some { 0 < runner.workers }
    requires few { runner.workers ≤ 64 }
    requires alone { (P : ProgramTree) → Accepted versions.now.source.items P → P ≡ program_tree versions.now.old }
    ensures { IfOk result (IsMeasured (program_tree versions.now.old) (program_tree versions.now.new) tests.now) }
{
    let graphs = build_graphs(alloc, versions)?;
    let history = make_history(
        alloc,
        &versions.source,
        &versions.old,
        &graphs.old,
        tests,
        runner.again(),
    )?;
    let chosen = choose(alloc, versions, &graphs, &history)?;
    let reruns = rerun_selected(
        alloc,
        &history,
        &chosen.choices,
        &versions.new,
        &graphs.new,
        runner,
    )?;
    Ok(Measured {
        functions: versions.old.functions().len().saturating_sub(1),
        points: graphs.old.points(),
        edges: graphs.old.edges(),
        tests: tests.len(),
        dangerous: chosen.walked.danger.count(),
        selected: count_selected(&chosen.choices),
        differ: reruns.differs,
    })
}

/// Appends `gen seed S size N`.
fn push_seed_line(text: &mut Vec<u8>, seed: u32, size: u32) -> Result<(), AllocError>
    ensures { OnOk result (text.new.items ≡ text.old.items ++ seed_line seed size ++ 10 ∷ []) }
{
    push_count(text, b"gen seed ", u64::from(seed))?;
    push_count(text, b" size ", u64::from(size))?;
    text.push(b'\n')?;
    Ok(())
}

/// Appends `functions F points P edges E tests T`.
fn push_size_line(text: &mut Vec<u8>, measured: Measured) -> Result<(), AllocError>
    ensures { OnOk result (text.new.items ≡ text.old.items ++ size_line measured ++ 10 ∷ []) }
{
    push_count(text, b"functions ", measured.functions as u64)?;
    push_count(text, b" points ", u64::from(measured.points))?;
    push_count(text, b" edges ", u64::from(measured.edges))?;
    push_count(text, b" tests ", measured.tests as u64)?;
    text.push(b'\n')?;
    Ok(())
}

/// Appends `dangerous D selected K differ X`.
fn push_found_line(text: &mut Vec<u8>, measured: Measured) -> Result<(), AllocError>
    ensures { OnOk result (text.new.items ≡ text.old.items ++ found_line measured ++ 10 ∷ []) }
{
    push_count(text, b"dangerous ", u64::from(measured.dangerous))?;
    push_count(text, b" selected ", measured.selected as u64)?;
    push_count(text, b" differ ", measured.differ as u64)?;
    text.push(b'\n')?;
    Ok(())
}

/// Appends a word, which brings its spaces, and a number.
fn push_count(text: &mut Vec<u8>, word: &[u8], number: u64) -> Result<(), AllocError>
    ensures { OnOk result (text.new.items ≡ text.old.items ++ word.now ++ decimal number) }
{
    text.extend_from_slice(word)?;
    push_decimal(text, number)
}
