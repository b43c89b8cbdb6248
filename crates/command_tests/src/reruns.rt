//! What is told of the selected tests after they ran again.
use crate::script::script_agrees;
use std::test::Fail;

const RERUNS: &str = "
# A selected test differs by its turns alone or by its output.
suite:
dejavu suite 1
test A 100 41
test B 100 42

old: int main(void) { int c; c = getchar(); if (c == 65) { putchar(66); } else { putchar(67); } return 0; }
new: int main(void) { int c; c = getchar(); if (c == 65) { putchar(66); } else { c = c; putchar(67); } return 0; }
$ record old suite > history
$ rerun old new history --workers {1,2,64}
Differs, 1 ran
left A
differs B turns 9 to 10
differ 1 of 2

new: int main(void) { int c; c = getchar(); if (c == 65) { putchar(66); } else { putchar(68); } return 0; }
$ rerun old new history --workers {1,2,64}
Differs, 1 ran
left A
differs B output 43 to 44
differ 1 of 2

old: int k = 1; int main(void) { if (getchar() == 65) { putchar(k); } return 0; }
new: int k = 2; int main(void) { if (getchar() == 65) { putchar(k); } return 0; }
$ record old suite > history
$ rerun old new history --workers {1,2,64}
Differs, 1 ran
differs A output 01 to 02
left B
differ 1 of 2

# Where nothing is selected nothing runs.
old: int main(void) { int c; c = getchar(); if (c == 65) { putchar(66); } else { putchar(67); } return 0; }
new: int main(void) /* a */ {int c; (c) = (getchar()); if ((c == 65)) putchar(66); else { { putchar((67)); } } return (0); }
$ record old suite > history
$ rerun old new history --workers {1,2,64}
Done, 0 ran
left A
left B
differ 0 of 2

# A selected test that does as before is the same.
# The type of `g` is another one, but what is written to it and to the output isn't.
old: int g; int main(void) { putchar(65); if (getchar() == 66) { g = 300; } return 0; }
new: char g; int main(void) { putchar(65); if (getchar() == 66) { g = 300; } return 0; }
$ record old suite > history
$ rerun old new history --workers {1,2,64}
Done, 1 ran
left A
same B
differ 0 of 2
";

#[test]
fn a_selected_test_is_the_same_or_differs(rt: HostRuntime) -> Result<(), Fail> {
    script_agrees(&rt, rt.alloc(), RERUNS)
}
