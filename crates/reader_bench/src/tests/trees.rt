//! The depth and the shape of small units.
ghost use Rattle.std.specs.Prelude.{◌≤◌, IfOk};
ghost use Rattle.csub_tree.specs.Units.{unit_tree};
ghost use Rattle.csub_tree.specs.Depth.{unit_depth};

use crate::tests::agrees;
use csub_lex::lex;
use csub_parse::parse;
use csub_tree::Unit;
use std::alloc::Global;
use std::process::Abort;
use std::test::Fail;
use tree_shape::same_shape;

fn unit_of(alloc: Global, source: &str) -> Result<Box<Unit>, Fail>
    ensures { IfOk result (λ unit. unit_depth (unit_tree unit.value) ≤ 256) }
{
    if source.len() > 1_048_576 {
        return Err("too long".into());
    }
    let Ok(tokens) = lex(alloc, source.as_bytes()) else {
        return Err("no tokens".into());
    };
    let Ok(unit) = parse(alloc, &tokens) else {
        return Err("no unit".into());
    };
    Ok(Box::new(alloc, unit)?)
}

fn is_same_shape(alloc: Global, one: &str, other: &str) -> Result<bool, Fail> {
    let one = unit_of(alloc, one)?;
    let other = unit_of(alloc, other)?;
    Ok(same_shape(&one, &other))
}

// Unit, item, initialiser, minus and number are five nodes.
#[test]
fn an_initialiser_is_a_node_of_its_own(rt: HostRuntime) -> Result<(), Fail> {
    agrees(&rt, rt.alloc(), "", "", &[("int x = -1;", "5 object")])
}

#[test]
fn places_alone_make_no_other_shape(rt: HostRuntime) -> Result<(), Fail> {
    let is_same = is_same_shape(rt.alloc(), "int x = -1;", "\n int  x =\n- 1 ;")?;
    assert!(rt; is_same);
    Ok(())
}

#[test]
fn a_name_and_a_value_make_another_shape(rt: HostRuntime) -> Result<(), Fail> {
    for other in ["int y = -1;", "int x = -2;"] {
        let is_same = is_same_shape(rt.alloc(), "int x = -1;", other)?;
        assert!(rt; !is_same, "{other}");
    }
    Ok(())
}
