//! Which objects of file scope a program may have, and how its labels name them.
use crate::accepting::rows_agree;
use program_words::accepts;
use std::alloc::Global;
use std::process::Abort;
use std::test::Fail;

const ROWS: &str = r#"
# Names of objects of file scope differ.
with: start main { } static:i:0 int .. static:m:0 int
valid:
    static:j:0 int static:k:0 int
invalid:
    static:k:0 int static:k:0 int
    static:k:0 int static:j:0 int static:l:0 int static:j:0 int

# Contents are a number of its kind for each cell, of which an object of a number type has one.
with: start main { } .. static:m:0 int
valid:
    static:k:-128 char
    static:k:2147483647 int
    static:k:4294967295 unsigned
invalid:
    static:k int
    static:k:0:0 int
    static:k:-129 char
    static:k:2147483648 int
    static:k:-1 unsigned

# A label names an object of file scope with its declared type.
with: start main { line .. } static:k:0 int
valid:
    eval read global:k int
    eval set global:k int 1
invalid:
    eval read global:k char
    eval read global:j int
    eval set global:k char 1
    eval set global:j int 1

# C11 6.7.9p10 and 5.1.2: statements initialise locals alone, since such an object has its contents from the beginning.
invalid:
    init global:k int one 1
"#;

#[test]
fn objects_of_file_scope_stand_as_they_are_declared(rt: HostRuntime) -> Result<(), Fail> {
    rows_agree(&rt, rt.alloc(), ROWS)
}

/// A program of so many `int` objects, whose names are their numbers, is valid or none, as is said.
fn number_agrees(rt: &impl Abort, alloc: Global, count: u32, is_valid: bool) -> Result<(), Fail> {
    let mut text = String::from_str(alloc, "start main { }")?;
    for number in 0..count {
        text.push_str(format!(in alloc; " static:{number}:0 int")?.as_str())?;
    }
    assert!(rt; accepts(alloc, text.as_str())? == is_valid, "{count}");
    Ok(())
}

// The names of objects are compared each with each, so that 65,536 of them would take a test too long.
#[test]
fn globals_have_at_most_65_536_cells(rt: HostRuntime) -> Result<(), Fail> {
    number_agrees(&rt, rt.alloc(), 1_000, true)?;
    number_agrees(&rt, rt.alloc(), 65_537, false)
}
