//! Where the labels of cases, labelled statements, jumps and `exit` may stand.
use crate::accepting::rows_agree;
use program_words::accepts;
use std::alloc::Global;
use std::process::Abort;
use std::test::Fail;

const ROWS: &str = r#"
with: start main { .. }
# C11 6.8.6.2p1 and 6.8.6.3p1: `break` and `continue` stand in loops, and `break` in a switch.
valid:
    while test 0 { break }
    while test 0 { continue }
    switch switch_value 0 { break }
    while test 0 { switch switch_value 0 { continue } }
invalid:
    break
    continue
    switch switch_value 0 { continue }

# C11 6.8.4.2p3: the values of cases differ.
valid:
    switch switch_value 0 { case:1 case:0 case:2 }
    switch switch_value 0 { case:1 case:0 case:-1 }
invalid:
    switch switch_value 0 { case:1 case:0 case:1 }

# C11 6.8.4.2p5: the value of a case is of the kind of its switch, and a switch over a `char` is one over an `int`.
valid:
    switch switch_value 0 { case:2147483647 }
    switch switch_value 0 { case:-2147483648 }
    switch switch_value const:unsigned:0 { case:4294967295 }
    switch switch_value const:char:0 { case:200 }
invalid:
    switch switch_value 0 { case:2147483648 }
    switch switch_value const:unsigned:0 { case:-1 }

# C11 6.8.4.2p3: a switch has at most one default.
valid:
    switch switch_value 0 { }
    switch switch_value 0 { default }
invalid:
    switch switch_value 0 { default default }

# Labels of cases are lines of a switch. In C they may also stand deeper in it (C11 6.8.1p2).
valid:
    switch switch_value 0 { case:0 }
invalid:
    case:0
    default
    switch switch_value 0 { block { case:0 } }
    switch switch_value 0 { block { default } }
    switch switch_value 0 { mark:a case:0 }
    switch switch_value 0 { mark:a default }
    switch switch_value 0 { while test 0 { case:0 } }
    switch switch_value 0 { while test 0 { default } }

# C11 6.8.6.1p1: a goto names a label of its function.
valid:
    mark:a lines:0 goto:a jump
    goto:a jump block { mark:a lines:0 }
invalid:
    mark:a lines:0 goto:b jump

# C11 6.8.1p3: the labels of a function differ.
valid:
    mark:b mark:a lines:0
invalid:
    mark:a mark:a lines:0
    block { mark:a lines:0 } mark:a lines:0

# A goto is a point by itself.
valid:
    mark:a goto:a jump
invalid:
    mark:a goto:a eval 0
    line jump

# The value of a switch is no test and no expression.
valid:
    switch switch_value 0 { }
    while test 0 { }
invalid:
    while switch_value 0 { }
    line switch_value 0
    switch test 0 { }

# An exit is a whole statement.
valid:
    line exit 0
    for:0:1 test 0 eval 0 { }
invalid:
    while exit 0 { }
    switch exit 0 { }
    for:0:1 test 0 exit 0 { }

# The labels of another function are others.
with: start main { .. } function:work:void:0 { mark:a lines:0 }
valid:
    mark:a lines:0
invalid:
    goto:a jump
"#;

#[test]
fn labels_and_jumps_stand_where_they_may(rt: HostRuntime) -> Result<(), Fail> {
    rows_agree(&rt, rt.alloc(), ROWS)
}

/// `switch (0)` with so many cases.
fn wide_switch(alloc: Global, count: u32) -> Result<String, Fail> {
    let mut text = String::from_str(alloc, " switch switch_value 0 {")?;
    for value in 0..count {
        text.push_str(format!(in alloc; " case:{value}")?.as_str())?;
    }
    text.push_str(" }")?;
    Ok(text)
}

/// A `main` of 99 switches of 99 cases each, then 96 lines `0;`, and then other lines is valid or not, as is said.
fn edges_agree(rt: &impl Abort, alloc: Global, ends: &str, is_valid: bool) -> Result<(), Fail> {
    let wide = wide_switch(alloc, 99)?;
    let mut text = String::from_str(alloc, "start main {")?;
    for _ in 0..99 {
        text.push_str(wide.as_str())?;
    }
    for _ in 0..96 {
        text.push_str(" line eval 0")?;
    }
    text.push_str(ends)?;
    assert!(rt; accepts(alloc, text.as_str())? == is_valid, "{ends}");
    Ok(())
}

// Beside its switches, with 100 edges each, the program has 3 edges of its entries and of the call in `#start`, and one
// for each line but an exit, which has none.
#[test]
fn each_case_is_an_edge_and_an_exit_has_none(rt: HostRuntime) -> Result<(), Fail> {
    edges_agree(&rt, rt.alloc(), " line eval 0 line exit 0 }", true)?;
    edges_agree(&rt, rt.alloc(), " line eval 0 line eval 0 }", false)?;
    edges_agree(&rt, rt.alloc(), " line exit 0 line exit 0 }", true)
}
