//! Histories that are brought to a changed program. The histories are written out by hand, with sums by Python's hashlib or
//! `sha256sum`.
use crate::script::script_agrees;
use std::test::Fail;

const CARRIED: &str = "
# A left test is carried, and a selected one runs.
suite:
dejavu suite 1
test A 100 41
test B 100 42

old: int main(void) { int c; c = getchar(); if (c == 65) { putchar(66); } else { putchar(67); } return 0; }
new: int main(void) { int c; c = getchar(); if (c == 65) { putchar(66); } else { putchar(68); } return 0; }
$ record old suite > history
$ carry old new history --workers {1,2}
Done, 1 ran
dejavu history 3
source 4527ee34a73cbe49b1963da290f1fd8d7b5f74648e52c258c77127032cca9bd8
edges 9
tests 2
test A
budget 100
input 41
status exit 0
turns 9
output 42
crossed 5f01
test B
budget 100
input 42
status exit 0
turns 9
output 44
crossed af01
end 6269f2c327604259b4e89e7834eff8b2bfcbfaa56db82953e732821f7bff3384

# So it is recorded on the new source too.
$ record new suite
Done
dejavu history 3
source 4527ee34a73cbe49b1963da290f1fd8d7b5f74648e52c258c77127032cca9bd8
edges 9
tests 2
test A
budget 100
input 41
status exit 0
turns 9
output 42
crossed 5f01
test B
budget 100
input 42
status exit 0
turns 9
output 44
crossed af01
end 6269f2c327604259b4e89e7834eff8b2bfcbfaa56db82953e732821f7bff3384

# No run gives these outputs. A stays, and B runs.
history:
dejavu history 3
source f3e7b98b7d4d95f021635d364627ee64e4acd311669841db52966ba816eaeb96
edges 9
tests 2
test A
budget 100
input 41
status exit 0
turns 9
output 61
crossed 5f01
test B
budget 100
input 42
status exit 0
turns 9
output 62
crossed af01
end 36de60e0777e8c519db985b9d6e416cbb42b31843d8a8854b06a2506e86760bb

$ carry old new history --workers {1,2}
Done, 1 ran
dejavu history 3
source 4527ee34a73cbe49b1963da290f1fd8d7b5f74648e52c258c77127032cca9bd8
edges 9
tests 2
test A
budget 100
input 41
status exit 0
turns 9
output 61
crossed 5f01
test B
budget 100
input 42
status exit 0
turns 9
output 44
crossed af01
end de27f5c3df459beae8af142648ccf16c157561b8052c59f899a601bce1b4542f

# A left test runs where an edge of its has two images. Q ends before the way out of the loop, which has two.
suite:
dejavu suite 1
test E 100 -
test Q 4 -

old: int main(void) { int c; c = getchar(); while (c != -1) { putchar(c); c = getchar(); } return 0; }
new: int main(void) { int c; c = getchar(); if (c != -1) { putchar(c); c = getchar(); while (c != -1) { putchar(c); c = getchar(); } } return 0; }
$ record old suite > history
$ carry old new history --workers {1,2}
Done, 1 ran
dejavu history 3
source 35465d543a348607518c6be3ab72e0fba465fba53f37bf23e2987e11b7d8c150
edges 13
tests 2
test E
budget 100
input -
status exit 0
turns 8
output -
crossed 2f10
test Q
budget 4
input -
status turns
turns 4
output -
crossed 0d00
end 2275ed23aa2aab419b284316ef969b54c166ad20a04d0f43598d707236f578ed

# So it is recorded on the new source too.
$ record new suite
Done
dejavu history 3
source 35465d543a348607518c6be3ab72e0fba465fba53f37bf23e2987e11b7d8c150
edges 13
tests 2
test E
budget 100
input -
status exit 0
turns 8
output -
crossed 2f10
test Q
budget 4
input -
status turns
turns 4
output -
crossed 0d00
end 2275ed23aa2aab419b284316ef969b54c166ad20a04d0f43598d707236f578ed

# No run gives these outputs. E runs, and Q stays.
history:
dejavu history 3
source e54a5706e4d9fa42af6a6c40a2026c1a4093f60a68d5ecb86dba7c2084c10cba
edges 9
tests 2
test E
budget 100
input -
status exit 0
turns 8
output 61
crossed 2f01
test Q
budget 4
input -
status turns
turns 4
output 62
crossed 0d00
end 80d42c4a007f3035c36530d1d1bec867b0a3a3ccb839ba4e25716a661c0f11e7

$ carry old new history --workers {1,2}
Done, 1 ran
dejavu history 3
source 35465d543a348607518c6be3ab72e0fba465fba53f37bf23e2987e11b7d8c150
edges 13
tests 2
test E
budget 100
input -
status exit 0
turns 8
output -
crossed 2f10
test Q
budget 4
input -
status turns
turns 4
output 62
crossed 0d00
end d19cce58f22532d87c9ed43f64a59c8f981750edc49083405dbf6731770d4c7d

# The edges of a carried test get the numbers of their images.
suite:
dejavu suite 1
test A 100 41
test Z 100 5a

old: int main(void) { switch (getchar()) { case 65: putchar(97); break; default: putchar(63); } return 0; }
new: int main(void) { switch (getchar()) { case 65: putchar(97); break; case 66: putchar(98); break; default: putchar(63); } return 0; }
$ record old suite > history
$ carry old new history --workers {1,2}
Done, 1 ran
dejavu history 3
source 54da7b9a756a13ecc695da2a34cc330e392bab1150c60cc1aae6047ebcf3af42
edges 10
tests 2
test A
budget 100
input 41
status exit 0
turns 8
output 61
crossed 4f02
test Z
budget 100
input 5a
status exit 0
turns 8
output 3f
crossed 2703
end fae1e5b680cec6f315580e2cd59d06edb82168c60c5b5c4db80f0021f339e376

# So it is recorded on the new source too.
$ record new suite
Done
dejavu history 3
source 54da7b9a756a13ecc695da2a34cc330e392bab1150c60cc1aae6047ebcf3af42
edges 10
tests 2
test A
budget 100
input 41
status exit 0
turns 8
output 61
crossed 4f02
test Z
budget 100
input 5a
status exit 0
turns 8
output 3f
crossed 2703
end fae1e5b680cec6f315580e2cd59d06edb82168c60c5b5c4db80f0021f339e376

# No run gives these outputs. A stays, and Z runs.
history:
dejavu history 3
source 55cf063fed0c1ff01247b560531e02480cc1cbeec6f682006c15fe2eef004f1f
edges 8
tests 2
test A
budget 100
input 41
status exit 0
turns 8
output 78
crossed af
test Z
budget 100
input 5a
status exit 0
turns 8
output 79
crossed d7
end d292249907f4e4ca46e683aa1ab287e90cd55c9d54b7e10abe81b9e05de41e20

$ carry old new history --workers {1,2}
Done, 1 ran
dejavu history 3
source 54da7b9a756a13ecc695da2a34cc330e392bab1150c60cc1aae6047ebcf3af42
edges 10
tests 2
test A
budget 100
input 41
status exit 0
turns 8
output 78
crossed 4f02
test Z
budget 100
input 5a
status exit 0
turns 8
output 3f
crossed 2703
end f989addbb41825a6e5adda7dd63996a9c4048ecc799f3730b7fd0722e40634bd
";

#[test]
fn a_left_test_is_carried_where_its_edges_have_one_image(rt: HostRuntime) -> Result<(), Fail> {
    script_agrees(&rt, rt.alloc(), CARRIED)
}
