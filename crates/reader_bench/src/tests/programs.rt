//! Whole programs.
use crate::tests::agrees;
use sample_sources::{CHANGED_LINE, LINE_BEFORE, WORD_COUNTER};
use std::test::Fail;

pub const ROWS: &str = r#"
// Programs are read with the lines of their functions.
int main(void) { switch (getchar()) { case 65: putchar(97); break; default: putchar(63); } return 0; } => 6 function switch return
int main(void) { switch (getchar()) { case 65: putchar(97); break; case 66: putchar(98); break; default: putchar(63); } return 0; } => 6 function switch return
int f(int n) { return f(n + 1); } int main(void) { return f(0); } => 6 function return function return
int f(int n) { int pad[1000]; return f(n + 1); } int main(void) { return f(0); } => 6 function declare return function return
int f(int n) { if (n == 0) { return 1; } return f(n - 1); } int main(void) { if (getchar() == 65) { return f(3); } return 0; } => 7 function if return function if return
int f(int n) { if (n == 0) { return 2; } return f(n - 1); } int main(void) { if (getchar() == 65) { return f(3); } return 0; } => 7 function if return function if return
int main(void) { int i; for (i = 0; i < 16384; i++) { putchar(120); } return 0; } => 7 function declare for return
int main(void) { int i; for (i = 0; i < 16385; i++) { putchar(120); } return 0; } => 7 function declare for return
"#;

const WORDS_ITEMS: &str =
    "10 enum struct object object function if switch function declare declare for return function declare declare while eval if return";

#[test]
fn the_word_counter_has_the_same_items_with_a_line_more(rt: HostRuntime) -> Result<(), Fail> {
    let (before, behind) = WORD_COUNTER.split_once(LINE_BEFORE).ok_or("no such line")?;
    let changed = format!(in rt.alloc(); "{LINE_BEFORE}{CHANGED_LINE}")?;
    let rows = &[(LINE_BEFORE, WORDS_ITEMS), (changed.as_str(), WORDS_ITEMS)];
    agrees(&rt, rt.alloc(), before, behind, rows)
}
