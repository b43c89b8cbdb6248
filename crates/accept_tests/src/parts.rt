//! Where the parts of statements stand.
use crate::sources::program_of;
use csub_core::Program;
use csub_semantics::{RPart, RStmt};
use std::alloc::{AllocError, Global};
use std::test::Fail;

/// The place of a part, whether it has an own point, and the places of its calls.
fn part_text(alloc: Global, part: &RPart) -> Result<String, AllocError> {
    let own = if part.main.is_some() {
        "point"
    } else {
        "calls"
    };
    let mut text = format!(in alloc; "{} {} {own}", part.span.start, part.span.end)?;
    for call in part.calls.as_slice() {
        let place = format!(in alloc; " {} {}", call.span.start, call.span.end)?;
        text.push_str(place.as_str())?;
    }
    Ok(text)
}

/// The same of the first part of `main`, which stands last in its source.
fn first_part_text(alloc: Global, program: &Program) -> Result<String, Fail> {
    let [.., main] = program.functions() else {
        return Err("no function")?;
    };
    match main.body.as_slice() {
        [RStmt::Parts(row), ..] => match row.as_slice() {
            [part, ..] => Ok(part_text(alloc, part)?),
            [] => Err("no part")?,
        },
        _ => Err("no parts")?,
    }
}

/// The same of a source.
fn part_of(alloc: Global, source: &str) -> Result<String, Fail> {
    let program = program_of(alloc, source)?;
    first_part_text(alloc, &program)
}

/// The first lines of `main`, and the parts that they stand for.
const PARTS: &[(&str, &str)] = &[
    ("(f(1));", "44 45 calls 45 46"),
    ("f(f(1));", "44 45 calls 46 47 44 45"),
    ("2 + f(1);", "44 45 point 48 49"),
];

#[test]
fn a_part_that_is_a_call_stands_at_its_first_token(rt: HostRuntime) -> Result<(), Fail> {
    let alloc = rt.alloc();
    for (line, expected) in PARTS {
        let source = format!(in alloc;
            "int f(int a) {{ return a; }} int main(void) {{ {line} return 0; }}"
        )?;
        let text = part_of(alloc, source.as_str())?;
        assert!(rt; text.as_str() == *expected, "{line} gave {text}");
    }
    Ok(())
}
