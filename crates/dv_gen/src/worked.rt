//! Pairs that were worked out by hand from the rules of the draws and of the text.
ghost use Rattle.std.specs.Prelude.{◌≤◌};

use crate::draws::Draws;
use crate::pair::make_pair;
use std::process::Abort;
use std::test::Fail;

#[test]
fn draws_are_those_of_the_rule(rt: HostRuntime) {
    let mut draws = Draws::new(1);
    expect_draws(&rt, &mut draws, 256, &[149]);
    expect_draws(&rt, &mut draws, 16, &[1, 9]);
    expect_draws(&rt, &mut draws, 1, &[0]);
    expect_draws(&rt, &mut draws, 256, &[211, 243, 95, 1]);
}

#[test]
fn draws_go_on_from_function_to_function(rt: HostRuntime) {
    let mut draws = Draws::new(2);
    expect_draws(&rt, &mut draws, 256, &[224]);
    expect_draws(&rt, &mut draws, 16, &[10, 5]);
    expect_draws(&rt, &mut draws, 256, &[234]);
    expect_draws(&rt, &mut draws, 16, &[13, 13]);
    expect_draws(&rt, &mut draws, 2, &[1]);
    expect_draws(&rt, &mut draws, 256, &[130, 64, 4, 102, 226, 67, 177, 243]);
}

fn expect_draws(rt: &impl Abort, draws: &mut Draws, m: u32, wanted: &[u32])
    requires { 1 ≤ m }
{
    for number in wanted {
        assert_eq!(rt; draws.draw(m), *number);
    }
}

#[test]
fn of_one_function_the_new_source_adds_one_more(rt: HostRuntime) -> Result<(), Fail> {
    let made = make_pair(rt.alloc(), 1, 1)?;
    let old = b"int f0(int x) { if (x > 149) { x = x - 1; } else { x = x + 9; } return x; }\n\
int main(void) {\n    int c;\n    c = getchar();\n    c = f0(c);\n    printf(\"%d\\n\", c);\n    return 0;\n}\n";
    let new = b"int f0(int x) { if (x > 149) { x = x - 1; } else { x = x + 10; } return x; }\n\
int main(void) {\n    int c;\n    c = getchar();\n    c = f0(c);\n    printf(\"%d\\n\", c);\n    return 0;\n}\n";
    assert!(rt; made.old.as_slice() == old.as_slice());
    assert!(rt; made.new.as_slice() == new.as_slice());
    Ok(())
}

#[test]
fn the_second_of_two_functions_is_changed(rt: HostRuntime) -> Result<(), Fail> {
    let made = make_pair(rt.alloc(), 2, 2)?;
    let new = b"int f0(int x) { if (x > 224) { x = x - 10; } else { x = x + 5; } return x; }\n\
int f1(int x) { if (x > 234) { x = x - 13; } else { x = x + 14; } return x; }\n\
int main(void) {\n    int c;\n    c = getchar();\n    c = f0(c);\n    c = f1(c);\n    printf(\"%d\\n\", c);\n    return 0;\n}\n";
    assert!(rt; made.new.as_slice() == new.as_slice());
    let wanted = [130, 64, 4, 102, 226, 67, 177, 243];
    assert_eq!(rt; made.tests.len(), wanted.len());
    for (test, byte) in made.tests.iter().zip(wanted) {
        assert!(rt; test.budget() == 10_000 && test.input() == [byte].as_slice());
    }
    assert!(rt; made.tests[0].name().bytes() == b"t0".as_slice());
    assert!(rt; made.tests[7].name().bytes() == b"t7".as_slice());
    Ok(())
}
