//! What a line that is added to the word counter does to its tests.
use crate::files::changed_counter;
use crate::script::script_agrees_over;
use sample_sources::WORD_COUNTER;
use std::test::Fail;

const ADDED_LINE: &str = "
# A suite of the word counter.
suite:
dejavu suite 1
test t01 10000 -
test t02 10000 61
test t03 10000 0a
test t04 10000 6120620a
test t05 10000 37
test t06 10000 6162206364
test t07 10000 31620a
test t08 10000 09
test t09 10000 68656c6c6f0a
test t10 10000 2020
test t11 10000 782034320a
test t12 10000 610a620a

# An object that nothing names is no danger.
$ walk old {new,spare}
Done
edge 33 main 51:13 next
dangerous 1 of 47
pairs 40

$ record old suite > history
$ select old {new,spare} history
Done
left t01
left t02
left t03
left t04
run t05 edge 33
left t06
run t07 edge 33
left t08
left t09
left t10
run t11 edge 33
left t12
selected 3 of 12

$ rerun old new history --workers {1,2,64}
Differs, 3 ran
left t01
left t02
left t03
left t04
differs t05 turns 40 to 41
left t06
differs t07 output 31203120330a to 31203020330a
left t08
left t09
left t10
differs t11 turns 90 to 92
left t12
differ 3 of 12
";

#[test]
fn tests_that_reach_a_line_added_to_the_word_counter_run_again(
    rt: HostRuntime,
) -> Result<(), Fail> {
    let alloc = rt.alloc();
    let changed = changed_counter(alloc)?;
    let spare = format!(in alloc; "int spare = 5;\n{changed}")?;
    let files = [
        ("old", WORD_COUNTER),
        ("new", changed.as_str()),
        ("spare", spare.as_str()),
    ];
    script_agrees_over(&rt, alloc, &files, ADDED_LINE)
}
