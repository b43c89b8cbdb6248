//! Which places a program may name, and that structs with one tag are alike (C11 6.7.2.3p1).
use crate::accepting::rows_agree;
use std::test::Fail;

const ROWS: &str = r#"
# An element of an element of `int g[2][3]` is a number. The index may be any number, since whether it is below the length is
# seen when it is evaluated.
with: start main { line eval .. } static:g:0:0:0:0:0:0 array:2 array:3 int
valid:
    read element element global:g array:2 array:3 int 7 2

# A row of the table is no number, and a number has no elements.
invalid:
    read element global:g array:2 array:3 int 0
    read global:g array:2 array:3 int
    read element element element global:g array:2 array:3 int 0 0 0

# An index names declared objects alone: `h` is declared nowhere.
invalid:
    read element element global:g array:2 array:3 int read global:h int 0

# An element of `struct pair g[2]` has the members that are declared.
with: start main { line eval .. } static:g:0:0:0:0 array:2 struct:pair:2 member:x int member:y char
valid:
    putchar read dot:x element global:g array:2 struct:pair:2 member:x int member:y char 0
    putchar read dot:y element global:g array:2 struct:pair:2 member:x int member:y char 0
invalid:
    putchar read dot:z element global:g array:2 struct:pair:2 member:x int member:y char 0

# An array of structs has no members.
invalid:
    read dot:x global:g array:2 struct:pair:2 member:x int member:y char

# A struct is not assigned to.
valid:
    set dot:x element global:g array:2 struct:pair:2 member:x int member:y char 0 1
invalid:
    set element global:g array:2 struct:pair:2 member:x int member:y char 0 1

# Structs of one tag have the same members.
with: start main { } static:g:0 struct:s:1 member:x int .. static:k:0 int
valid:
    static:h:0 struct:s:1 member:x int
    static:h:0 struct:t:1 member:y char
invalid:
    static:h:0 struct:s:1 member:x char
    static:h:0 struct:s:1 member:y int

# So do structs inside types.
with: start main { } static:g:0 array:1 struct:s:1 member:x int .. static:k:0 int
valid:
    static:h:0 struct:t:1 member:inner struct:s:1 member:x int
invalid:
    static:h:0 struct:t:1 member:inner struct:s:1 member:x char

# So do those of functions and of file scope.
with: start main { } function:work:void:0 .. { } static:g:0 struct:s:1 member:x int
valid:
    object:l:1 struct:s:1 member:x int
    member:p loose struct:s:1 member:x int
invalid:
    object:l:1 struct:s:1 member:x char
    member:p loose struct:s:1 member:x char
"#;

#[test]
fn places_are_those_of_declared_types(rt: HostRuntime) -> Result<(), Fail> {
    rows_agree(&rt, rt.alloc(), ROWS)
}
