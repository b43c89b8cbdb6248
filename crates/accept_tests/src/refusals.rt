//! Why sources are refused: their tokens, their grammar, their rules, each with its place in bytes.
use crate::sources::{answer, is_row};
use std::alloc::Global;
use std::process::Abort;
use std::test::Fail;

/// A source has this answer.
fn answer_agrees(rt: &impl Abort, alloc: Global, source: &str, expected: &str) -> Result<(), Fail> {
    let text = answer(alloc, source)?;
    assert!(rt; text.as_str() == expected, "{source} gave {text}");
    Ok(())
}

/// Sources, and why they are refused.
const REFUSED: &str = r#"
int main(void) { return 0; } $ => lex byte 29 30
int main(void) { return 09; } => lex number 24 25
int main(void) { return 0 } => syntax 26 27
int main(void) { return 0; => syntax 26 26
int main(void) { return x; } => rule M1 24 25
int f(void) { return 0; } => rule M19 0 0
int x; int x; int main(void) { return y; } => rule M2 11 12
int main(void) { break; } => rule M16 17 22
int main(void) { return 0; } => accepted
"#;

#[test]
fn the_first_stage_that_refuses_is_told(rt: HostRuntime) -> Result<(), Fail> {
    let directive = "# define X\nint main(void) { }";
    answer_agrees(&rt, rt.alloc(), directive, "lex directive 0 1")?;
    for line in REFUSED.lines() {
        if is_row(line) {
            let (source, expected) = line.split_once(" => ").ok_or("no row")?;
            answer_agrees(&rt, rt.alloc(), source, expected)?;
        }
    }
    Ok(())
}
