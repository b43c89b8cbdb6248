//! Functions, calls, values and the objects of functions.
use crate::accepting::rows_agree;
use program_words::accepts;
use std::alloc::Global;
use std::process::Abort;
use std::test::Fail;

const ROWS: &str = r#"
# The smallest program is valid. Its `#start` calls `main` alone, and names differ.
with: ..
valid:
    start main { }
    function:#start:void:1 { line call:main:int:1 } main { }
invalid:
    start
    main { }
    function:#start:void:1 { line call:work:int:1 } main { }
    start main { } main { }

# A call without a result needs no temporary. `main` has none, so it can call a `void` function alone.
valid:
    start main { line call:work:void:0 } function:work:void:0 { }
invalid:
    start main { line call:work:int:1 } function:work:int:0 { }

# Arguments are as many as parameters.
with: start main { line .. } function:work:void:0 member:c char { }
valid:
    call:work:void:0 member:c char value 0
invalid:
    call:work:void:0 member:c char
    call:work:void:0 member:c char value 0 value 0

# Values have their kinds.
with: start main { line .. }
valid:
    return:int 0
    eval const:char:127
    eval const:unsigned:4294967295
    eval const:int:-2147483648
invalid:
    return:char 0
    eval const:char:128
    eval const:unsigned:-1
    eval const:int:2147483648

# C11 6.3.1.1p2 and 6.5.3.3p3: `-c` has the promoted kind of `c`, which is `int`.
with: start main object:c:1 char { line eval .. }
valid:
    minus:int read local:c:1 char
invalid:
    minus:char read local:c:1 char

# Objects stand as they are declared, also where `c` is the name of two.
with: start main object:c:1 char object:c:2 char { line eval .. }
valid:
    read local:c:1 char
    read local:c:2 char
invalid:
    read local:c:3 char
    read local:c:2 int

with: start main .. }
valid:
    object:c:1 char { line init local:c:1 char one 200
invalid:
    object:c:1 char object:c:1 char {

# A local of the name of a parameter counts after it.
with: start main { } function:work:void:0 member:c char .. { }
valid:
    object:c:2 char
invalid:
    object:c:1 char
"#;

#[test]
fn functions_have_what_they_name(rt: HostRuntime) -> Result<(), Fail> {
    rows_agree(&rt, rt.alloc(), ROWS)
}

/// A `main` of so many points, and after them so many tests, is valid or not, as is said.
fn length_agrees(
    rt: &impl Abort,
    alloc: Global,
    (points, tests): (usize, usize),
    is_valid: bool,
) -> Result<(), Fail> {
    let mut text = String::from_str(alloc, "start main {")?;
    for _ in 0..points {
        text.push_str(" line eval 0")?;
    }
    for _ in 0..tests {
        text.push_str(" if test 0 { }")?;
    }
    text.push_str(" }")?;
    assert!(rt;
        accepts(alloc, text.as_str())? == is_valid,
        "{points} and {tests}"
    );
    Ok(())
}

// The entries, the exits and the call in `#start` are 5 points and 3 edges of a program with two functions.
#[test]
fn a_program_has_at_most_10000_points_and_edges(rt: HostRuntime) -> Result<(), Fail> {
    length_agrees(&rt, rt.alloc(), (9_995, 0), true)?;
    length_agrees(&rt, rt.alloc(), (9_996, 0), false)?;
    length_agrees(&rt, rt.alloc(), (1, 4_998), true)?;
    length_agrees(&rt, rt.alloc(), (0, 4_999), false)
}
