//! Members, indices, numbers and places (M5 to M8).
use crate::rules::lines_agree;
use std::test::Fail;

const LINES: &[(&str, &str)] = &[
    (
        "void f(void)",
        r#"
// Members are those of the struct.
// C11 6.5.2.3p1; what is broken in itself has no type, of which other rules could speak.
struct point s; s.@y = 3; => 5 y
struct point s; s.x = 3; => 0
total.@x = 3; => 5 x
struct point s[2]; s[1].row[0] = s[0].x; => 0
struct point s[2]; s.@x = 3; => 5 x
"#,
    ),
    (
        "void f(int a[])",
        r#"
// Arrays are indexed by numbers.
// C11 6.5.2.1p1, but with the array in front; an index past the end is no matter of rules.
a[7] = 1; => 0
@total[0] = 1; => 6 total[0]
@0[a] = 1; => 6 0[a]
a[0] = @a[a]; => 6 a[a]
a[0] = a[a[0]]; => 0
int b[2]; b[2] = @b[0][0]; => 6 b[0][0]
@a[work()] = 1; => 6 a[work()]
"#,
    ),
    (
        "int f(int a[])",
        r#"
// Numbers are asked for.
// An array, a struct and a call without a value are no numbers; such a call may be a whole statement or part of a `for`.
return 1 + @a; => 7 a
return 1 + a[0]; => 0
struct point s; if (@s) ; => 7 s
struct point s; if (s.x) ; => 0
@a; => 7 a
a[0]; => 0
return @work(); => 7 work()
(work()); => 0
for (work(); ; (work())) ; => 0
for (work(); @work(); ) ; => 7 work()
-@(work()); => 7 (work())
"#,
    ),
    (
        "int f(int p)",
        r#"
// Places of numbers are assigned.
// C11 6.5.16p2, 6.5.2.4p1 and 6.5.3.1p1; a number is asked for there too, which is told first of an array, a struct or a
// call without a value.
@1 = p; => 8 1
(p) = 1; => 0
@SIX = 1; => 8 SIX
@(p + 1)++; => 8 (p + 1)
(p)++; => 0
++@p++; => 8 p++
int a[2]; @a = 3; => 7 a
int a[2]; @(a) = 3; => 7 (a)
int a[2]; @a += 1; => 7 a
int a[2]; @a++; => 7 a
int a[2]; ++@a; => 7 a
int a[2]; a[1] += 1; => 0
struct point s, t; @s = t; => 7 s
@work() = 1; => 7 work()
@nothing = 1; => 1 nothing
@nothing++; => 1 nothing
p = @work(); => 7 work()
"#,
    ),
];

#[test]
fn expressions_keep_to_the_rules(rt: HostRuntime) -> Result<(), Fail> {
    lines_agree(&rt, rt.alloc(), LINES)
}
