//! The text of a source.
ghost use Rattle.std.specs.Prelude.{◌≡◌, ◌++◌, ◌∷◌, [], ℕ, length, OnOk, IfOk};
ghost use Rattle.line_text.specs.Lines.{text_of_lines};
ghost use Rattle.dv_gen.specs.Functions.{functions_of};
ghost use Rattle.dv_gen.specs.Pairs.{added_of, added_in, function_line, function_lines, call_line, main_lines, source_with};

use crate::functions::Function;
use line_text::push_decimal;
use std::alloc::{AllocError, Global};

/// The source of these functions, of which the one at the place `changed`, if any, adds one more than its
/// number says. An `Err` is want of memory.
pub fn write_source(
    alloc: Global,
    functions: &[Function],
    changed: Option<usize>,
) -> Result<Vec<u8>, AllocError>
    ensures { (seed : ℕ) → functions.now ≡ functions_of seed (length functions.now) →
        IfOk result (λ text. text.items ≡ source_with seed (length functions.now) changed) }
{
    let mut text = Vec::new(alloc);
    push_functions(&mut text, functions, changed)?;
    push_main(&mut text, functions.len())?;
    Ok(text)
}

fn push_functions(
    text: &mut Vec<u8>,
    functions: &[Function],
    changed: Option<usize>,
) -> Result<(), AllocError>
    ensures { (seed : ℕ) → functions.now ≡ functions_of seed (length functions.now) →
        OnOk result (text.new.items ≡ text.old.items ++ text_of_lines (function_lines seed (length functions.now) changed)) }
{
    for (place, function) in functions.iter().enumerate() {
        push_function(
            text,
            place,
            function,
            added_number(function, place, changed),
        )?;
    }
    Ok(())
}

// The number that the function at a place adds.
fn added_number(function: &Function, place: usize, changed: Option<usize>) -> u64
    ensures { (seed : ℕ) → function.now.added ≡ added_of seed place → result ≡ added_in seed changed place }
{
    match changed {
        Some(other) if other == place => u64::from(function.added) + 1,
        _ => u64::from(function.added),
    }
}

fn push_function(
    text: &mut Vec<u8>,
    place: usize,
    function: &Function,
    added: u64,
) -> Result<(), AllocError>
    ensures { OnOk result (text.new.items
        ≡ text.old.items ++ function_line place function.now.bound function.now.taken added ++ 10 ∷ []) }
{
    text.extend_from_slice(b"int f")?;
    push_decimal(text, place as u64)?;
    text.extend_from_slice(b"(int x) { if (x > ")?;
    push_decimal(text, u64::from(function.bound))?;
    text.extend_from_slice(b") { x = x - ")?;
    push_decimal(text, u64::from(function.taken))?;
    text.extend_from_slice(b"; } else { x = x + ")?;
    push_decimal(text, added)?;
    text.extend_from_slice(b"; } return x; }\n")
}

// Appends the lines of `main`, which calls so many functions.
fn push_main(text: &mut Vec<u8>, count: usize) -> Result<(), AllocError>
    ensures { OnOk result (text.new.items ≡ text.old.items ++ text_of_lines (main_lines count)) }
{
    text.extend_from_slice(b"int main(void) {\n    int c;\n    c = getchar();\n")?;
    for place in 0..count {
        push_call(text, place)?;
    }
    text.extend_from_slice(b"    printf(\"%d\\n\", c);\n    return 0;\n}\n")
}

fn push_call(text: &mut Vec<u8>, place: usize) -> Result<(), AllocError>
    ensures { OnOk result (text.new.items ≡ text.old.items ++ call_line place ++ 10 ∷ []) }
{
    text.extend_from_slice(b"    c = f")?;
    push_decimal(text, place as u64)?;
    text.extend_from_slice(b"(c);\n")
}
