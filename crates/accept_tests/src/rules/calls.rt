//! Calls (M12 to M14 and M20).
use crate::rules::lines_agree;
use std::test::Fail;

const LINES: &[(&str, &str)] = &[
    (
        "void f(void)",
        r#"
// Functions are called.
// C11 6.5.2.2p1: an object hides a function of its name.
@missing(1); => 12 missing
add(1, 2); => 0
@total(1); => 12 total
int add; @add(1, 2); => 12 add
{ int add; } add(1, 2); => 0
"#,
    ),
    (
        "int f(int p)",
        r#"
// Arguments are as many as parameters, and numbers for numbers.
// C11 6.5.2.2p2: nothing is said of the type of an argument that is broken in itself, but it counts.
@add(1); => 13 add
add('a', 2u); => 0
@add(1, 2, 3); => 13 add
add(1, @x); => 1 x
@add(x); => 13 add
@getchar(1); => 13 getchar
putchar(getchar()); => 0
@putchar(1, 2); => 13 putchar
@putchar(work()); => 13 putchar
@exit(); => 13 exit
"#,
    ),
    (
        "void f(int a[])",
        r#"
// Arrays are arguments.
// C11 6.7.6.3p7: an array parameter takes an array of its elements, or an array parameter.
sum(a); => 0
@sum(a[0]); => 13 sum
int b[7]; sum((b)); => 0
char b[7]; @sum(b); => 13 sum
int b[3][2]; @sum(b); => 13 sum
int b[3][2]; sum(b[1]); => 0
struct point s; sum(s.row); => 0
@add(a, 1); => 13 add
"#,
    ),
    (
        "int f(int p)",
        r#"
// No later operand calls a function.
// M14 is a limit of the language; it speaks of functions of the source alone.
return p && @add(1, 2); => 14 add
return add(1, 2) && p; => 0
return p || 1 - (@add(1, 2)); => 14 add
return p || putchar(1); => 0
return p ? 0 : @add(1, 2); => 14 add
return add(1, 2) ? 0 : p; => 0
return p && @add(1); => 13 add
return p && @work(); => 7 work()

// Formats ask for arguments.
// C11 7.21.6.1, with `%d`, `%u`, `%c` and `%%` alone; a format ends before its first byte 0.
printf(@"%d"); => 20 "%d"
printf("%d %u%c", p, 1u, 'a'); => 0
printf(@"%d", p, p); => 20 "%d"
printf(@"%x", p); => 20 "%x"
printf(@"%"); => 20 "%"
printf(("100%%")); => 0
printf("%d\0%d", p); => 0
printf("%d", @x); => 1 x
int a[2]; printf("%d", @a); => 7 a
printf("%d", @work()); => 7 work()

// Strings and `exit` have their places.
// M20 of strings and of `exit`
@printf(p); => 20 printf
@printf(); => 20 printf
@"x"; => 20 "x"
putchar(@"x"); => 20 "x"
putchar(@"x"[0]); => 20 "x"
(exit(p)); => 0
if (p) exit(1); else exit(2); => 0
p = @exit(1); => 20 exit
return @exit(1); => 20 exit
for (@exit(1); ; ) ; => 20 exit
for (; ; @exit(1)) ; => 20 exit
for (; ; ) exit(1); => 0
p + @exit(); => 13 exit
"#,
    ),
];

#[test]
fn calls_keep_to_the_rules(rt: HostRuntime) -> Result<(), Fail> {
    lines_agree(&rt, rt.alloc(), LINES)
}
