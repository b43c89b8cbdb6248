//! Which arguments fit which parameters, and which types a parameter may have (C11 6.5.2.2p2 and 6.7.6.3p7).
use crate::accepting::rows_agree;
use std::test::Fail;

const ROWS: &str = r#"
# An array goes to a parameter with its elements, and to no number, and a number to no array.
with: start main { line call:work:void:0 member:a loose int .. } function:work:void:0 member:a loose int { } static:g:0:0:0 array:3 int
valid:
    row global:g array:3 int
invalid:
    value 0

with: start main { line call:work:void:0 member:a loose char .. } function:work:void:0 member:a loose char { } static:g:0:0:0 array:3 int
invalid:
    row global:g array:3 int

with: start main { line call:work:void:0 member:a int .. } function:work:void:0 member:a int { } static:g:0:0:0 array:3 int
valid:
    value 0
invalid:
    row global:g array:3 int

# A table goes to a parameter with its rows: the elements of `int g[2][3]` are of the type `int [3]`, those of `g[0]` are numbers.
with: start main { line call:work:void:0 member:a loose array:3 int .. } function:work:void:0 member:a loose array:3 int { } static:g:0:0:0:0:0:0 array:2 array:3 int
valid:
    row global:g array:2 array:3 int
invalid:
    row element global:g array:2 array:3 int 0

with: start main { line call:work:void:0 member:a loose int .. } function:work:void:0 member:a loose int { } static:g:0:0:0:0:0:0 array:2 array:3 int
valid:
    row element global:g array:2 array:3 int 0
invalid:
    row global:g array:2 array:3 int

# An array parameter is passed on.
with: start main { } function:work:void:0 member:a loose int { .. }
valid:
    line call:work:void:0 member:a loose int row local:a:1 loose int

# A parameter is a number or refers to an array.
with: start main { } function:work:void:0 member:a .. { }
valid:
    int
    loose int
    loose struct:pair:2 member:x int member:y char
invalid:
    array:3 int
    struct:pair:2 member:x int member:y char

# C11 6.2.5p22 and 6.7.6.2p1: the elements of an array parameter are objects, and no object is an array of no element or of
# unknown length.
valid:
    loose array:1 int
invalid:
    loose array:0 int
    loose loose int
"#;

#[test]
fn arguments_fit_their_parameters(rt: HostRuntime) -> Result<(), Fail> {
    rows_agree(&rt, rt.alloc(), ROWS)
}
