//! Two broken rules: the one that stands first in the source is told, and at one place the lesser number.
use crate::rules::lines_agree;
use std::test::Fail;

const LINES: &[(&str, &str)] = &[
    (
        "int f(int p)",
        r#"
// The earlier place is told.
@x = 1; int p; => 1 x
int @p; x = 1; => 2 p
@break; goto a; => 16 break
goto @a; break; => 17 a
a: ; @a: ; x = 1; => 2 a
a: ; @x = 1; a: ; => 1 x
switch (p) { case 1: case @1: x = 1; } => 18 1
switch (p) { case 1: @x = 1; case 1: ; } => 1 x
do { @y; } while (x); => 1 y
for (; ; @y = 1) x = 1; => 1 y
@total[x] = 1; => 6 total[x]
"#,
    ),
    (
        "void f(void)",
        r#"
// At one place the lesser rule is told.
switch (1) { case @x: ; } => 1 x
int a[2]; a[0] = @x[a]; => 1 x
"#,
    ),
];

#[test]
fn of_two_broken_rules_one_is_told(rt: HostRuntime) -> Result<(), Fail> {
    lines_agree(&rt, rt.alloc(), LINES)
}
