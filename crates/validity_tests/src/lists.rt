//! How many parts a statement has, and which initialisers fit which objects (C11 6.7, 6.7.9 and 6.8.3).
use crate::accepting::rows_agree;
use std::test::Fail;

const ROWS: &str = r#"
# A statement, and each part of a `for`, is one expression.
with: start main { .. }
valid:
    lines:0
    lines:1 eval 0
    for:0:0 test 0 { }
    for:1:0 eval 0 test 0 { }
    for:0:1 test 0 eval 0 { }
invalid:
    lines:2 eval 0 eval 0
    for:2:0 eval 0 eval 0 test 0 { }
    for:0:2 test 0 eval 0 eval 0 { }

# A declaration, `int a = 0, b = 0;`, initialises several objects.
with: start main object:a:1 int object:b:1 int { .. }
valid:
    lines:2 init local:a:1 int one 0 init local:b:1 int one 0
    for:2:0 init local:a:1 int one 0 init local:b:1 int one 0 test 0 { }
invalid:
    for:0:2 test 0 init local:a:1 int one 0 init local:b:1 int one 0 { }

# A number begins with a value and no list.
with: start main object:x:1 int { line init local:x:1 int .. }
valid:
    one 0
invalid:
    list:1 one 0

# C11 6.7.9p2 and p21: an array begins with a list of no more than its elements.
with: start main object:x:1 array:3 int { line init local:x:1 array:3 int .. }
valid:
    list:0
    list:1 one 0
    list:3 one 0 one 0 one 0
invalid:
    one 0
    list:4 one 0 one 0 one 0 one 0

# A struct begins with a list of no more than its members.
with: start main object:x:1 struct:pair:2 member:x int member:y char { line init local:x:1 struct:pair:2 member:x int member:y char .. }
valid:
    list:0
    list:1 one 0
    list:2 one 0 one 0
invalid:
    one 0
    list:3 one 0 one 0 one 0

# A row of a table begins with a list of its own.
with: start main object:x:1 array:2 array:3 int { line init local:x:1 array:2 array:3 int .. }
valid:
    list:1 list:3 one 0 one 0 one 0
invalid:
    list:1 list:4 one 0 one 0 one 0 one 0
    list:1 one 0
"#;

#[test]
fn lists_are_as_long_as_they_may_be(rt: HostRuntime) -> Result<(), Fail> {
    rows_agree(&rt, rt.alloc(), ROWS)
}
