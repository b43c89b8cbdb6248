//! A table of the cases of all `switch`es, by which a case is found without a look at the others.
ghost use Rattle.std.specs.Prelude.{ℕ, ℤ, ◌≡◌, ◌≢◌, IfOk, OnOk, None, Some, if◌then◌else◌};
ghost use Rattle.std.specs.BTreeMap.{get, is_at};
ghost use Rattle.csub_semantics.specs.Points.{exit_tree, exit_eq, on_case};
ghost use Rattle.flow_graph.specs.Cases.{Case, case_cmp, place_in, ArePlaces, AreEntered};

use crate::node::{GraphPoint, GraphWay, step};
use csub_semantics::ExitLabel;
use std::alloc::{AllocError, Global};
use std::collections::BTreeMap;

/// The place among the ways out of its point that is entered for a case.
pub fn find_case(cases: &BTreeMap<(u32, i64), u32>, point: u32, value: i64) -> Option<usize>
    ensures { result ≡ place_in cases.now point value }
{
    let place = cases.get(&(point, value))?;
    Some(*place as usize)
}

/// Enters the place of a case.
fn put(
    cases: &mut BTreeMap<(u32, i64), u32>,
    point: u32,
    value: i64,
    place: u32,
) -> Result<(), AllocError>
    ensures { OnOk result ((c : Case) → get case_cmp cases.new c ≡ (if is_at (case_cmp (point, value)) c then Some place else get case_cmp cases.old c)) }
{
    cases.insert((point, value), place)?;
    Ok(())
}

/// Enters the way out at a place, if it is a case.
fn enter_way(
    cases: &mut BTreeMap<(u32, i64), u32>,
    point: u32,
    place: u32,
    way: &GraphWay,
) -> Result<(), AllocError>
    ensures own { OnOk result ((v : ℤ) → place_in cases.new point v ≡ (if exit_eq (exit_tree way.now.exit) (on_case v) then Some place else place_in cases.old point v)) }
    ensures others { OnOk result ((n : ℕ) (v : ℤ) → n ≢ point → place_in cases.new n v ≡ place_in cases.old n v) }
{
    match &way.exit {
        ExitLabel::Case(value) => put(cases, point, *value, place),
        _ => Ok(()),
    }
}

/// Enters the ways out of a point; the first counts where two are of one case.
fn enter_ways(
    cases: &mut BTreeMap<(u32, i64), u32>,
    point: u32,
    ways: &[GraphWay],
) -> Result<(), AllocError>
    requires { (v : ℤ) → place_in cases.old point v ≡ None }
    ensures own { OnOk result (ArePlaces ways.now (place_in cases.new point)) }
    ensures others { OnOk result ((n : ℕ) (v : ℤ) → n ≢ point → place_in cases.new n v ≡ place_in cases.old n v) }
{
    for i in (0..ways.len()).rev() {
        let place = step(i)?;
        enter_way(cases, point, place, &ways[i])?;
    }
    Ok(())
}

/// The table of the cases of all points. An `Err` is want of memory.
pub fn list_cases(
    alloc: Global,
    points: &[GraphPoint],
) -> Result<BTreeMap<(u32, i64), u32>, AllocError>
    ensures { IfOk result (AreEntered points.now) }
{
    let mut cases = BTreeMap::new(alloc);
    for i in 0..points.len() {
        let point = step(i)?;
        enter_ways(&mut cases, point, points[i].node.ways.as_slice())?;
    }
    Ok(cases)
}
