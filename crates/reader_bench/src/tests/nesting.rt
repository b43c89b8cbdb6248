//! Nesting up to the greatest depth, 256, and one more.
use crate::tests::shown;
use std::alloc::{AllocError, Global};
use std::process::Abort;
use std::test::Fail;

/// The text, in which what stands between the first `@` and the second is repeated so many times, what stands between the
/// third and the fourth likewise, and so on.
pub(crate) fn repeated(alloc: Global, text: &str, times: u64) -> Result<String, AllocError> {
    let mut whole = String::new(alloc);
    let mut is_between = false;
    for piece in text.split('@') {
        for _ in 0..if is_between { times } else { 1 } {
            whole.push_str(piece)?;
        }
        is_between = !is_between;
    }
    Ok(whole)
}

// Each row's source is read with so many times of what it repeats, as the third says, and refused with one time more, as the
// fourth does.
fn deepest(rt: &impl Abort, alloc: Global, rows: &[(&str, u32, &str, &str)]) -> Result<(), Fail> {
    for &(source, times, good, bad) in rows {
        let times = u64::from(times);
        let found = shown(alloc, repeated(alloc, source, times)?.as_str())?;
        assert!(rt; found.as_str() == good, "{source} gave {found}");
        let found = shown(alloc, repeated(alloc, source, times + 1)?.as_str())?;
        assert!(rt; found.as_str() == bad, "{source} gave {found}");
    }
    Ok(())
}

#[test]
fn expressions_and_initialisers_are_read_up_to_the_depth_256(rt: HostRuntime) -> Result<(), Fail> {
    deepest(
        &rt,
        rt.alloc(),
        &[
            (
                "int main(void) { return @(@0@)@; }",
                252,
                "256 function return",
                "syntax 259",
            ),
            ("int a = @!@1;", 252, "256 object", "syntax 255"),
            ("int a = @(int)@1;", 252, "256 object", "syntax 759"),
            ("int a = @f(@1@)@;", 252, "256 object", "syntax 509"),
            ("int a = a@[0]@;", 252, "256 object", "syntax 760"),
            ("int a = @{@1@}@;", 252, "256 object", "syntax 255"),
            // to the right
            ("int a = @a = @1;", 252, "256 object", "syntax 508"),
            ("int a = @a ? a : @1;", 252, "256 object", "syntax 1012"),
            // to the left
            ("int a = 1@ + 1@;", 252, "256 object", "syntax 508"),
        ],
    )
}

#[test]
fn statements_are_read_up_to_the_depth_256(rt: HostRuntime) -> Result<(), Fail> {
    deepest(
        &rt,
        rt.alloc(),
        &[
            (
                "int f(void) {@{@@}@}",
                254,
                "256 function block",
                "syntax 260",
            ),
            (
                "int f(void) {@if (a) ; else @;}",
                253,
                "256 function if",
                "syntax 1524",
            ),
            (
                "int f(void) {@while (a) @;}",
                253,
                "256 function while",
                "syntax 1018",
            ),
            (
                "int f(void) {@l: @;}",
                253,
                "256 function label",
                "syntax 512",
            ),
        ],
    )
}
