//! The resolver.
ghost use Rattle.std.specs.Prelude.{◌≡◌, IfErr, IfOk, None, map, option_map};
ghost use Rattle.csub_semantics.specs.Syntax.{function_tree, program_tree};
ghost use Rattle.csub_validity.specs.Valid.{IsValid};
ghost use Rattle.csub_tree.specs.Units.{item_tree, unit_tree};
ghost use Rattle.csub_rules.specs.FineItems.{FineItems};
ghost use Rattle.csub_rules.specs.Files.{no_file};
ghost use Rattle.csub_rules.specs.Units.{unit_fault};
ghost use Rattle.csub_resolution.specs.Programs.{program_of};
ghost use Rattle.csub_limits.specs.Limits.{limit_passed};
ghost use Rattle.csub_limits.specs.Views.{the_passed};
ghost use Rattle.program_validity.specs.Texts.{HasText};
ghost use Rattle.csub_answers.specs.Answers.{HasCause, IsMade, IsPassed, IsResolved};

use csub_answers::ResolveError;
use csub_core::Program;
use csub_globals::{definitions, global_cells, globals};
use csub_items::functions;
use csub_limits::{Passed, first_limit};
use csub_semantics::Function;
use csub_tree::{Item, Unit};
use csub_units::check_unit;
use std::alloc::{AllocError, Global};

/// The functions of the program of items that break no rule. An `Err` is want of memory, or a full count.
fn functions_of(alloc: Global, items: &[Item]) -> Result<Vec<Function>, AllocError>
    requires { FineItems no_file (map item_tree items.now) }
    ensures { IfOk result (λ made. map function_tree made.items ≡ (program_of (record { items = map item_tree items.now })).functions) }
{
    let defined = definitions(alloc, items)?;
    functions(alloc, &defined, items)
}

/// The first limit that items pass whose program has these functions. An `Err` is want of memory, or a full count.
fn limit_of(
    alloc: Global,
    functions: &[Function],
    items: &[Item],
) -> Result<Option<Passed>, AllocError>
    requires { map function_tree functions.now ≡ (program_of (record { items = map item_tree items.now })).functions }
    ensures { IfOk result (λ found. option_map the_passed found ≡ limit_passed (record { items = map item_tree items.now })) }
{
    let cells = global_cells(alloc, items)?;
    first_limit(functions, cells, items)
}

/// The program of items with these functions, which is valid. An `Err` is want of memory, or a full count.
fn program_with(
    alloc: Global,
    functions: Vec<Function>,
    items: &[Item],
) -> Result<Program, AllocError>
    requires functions { map function_tree functions.items ≡ (program_of (record { items = map item_tree items.now })).functions }
    requires valid { IsValid (program_of (record { items = map item_tree items.now })) }
    ensures { IfOk result (λ program. program_tree program ≡ program_of (record { items = map item_tree items.now })) }
{
    let objects = globals(alloc, items)?;
    Ok(Program::of_valid(functions, objects))
}

/// The program of items that break no rule, and that a text spells.
fn program_of(alloc: Global, items: &[Item]) -> Result<Program, ResolveError>
    requires fine { FineItems no_file (map item_tree items.now) }
    requires unbroken { unit_fault (record { items = map item_tree items.now }) ≡ None }
    requires text { HasText (record { items = map item_tree items.now }) }
    ensures program { IfOk result (λ program. IsMade (record { items = map item_tree items.now }) (program_tree program)) }
    ensures cause { IfErr result (IsPassed (record { items = map item_tree items.now })) }
{
    let Ok(made) = functions_of(alloc, items) else {
        return Err(ResolveError::Memory);
    };
    match limit_of(alloc, made.as_slice(), items) {
        Err(_) => Err(ResolveError::Memory),
        Ok(Some(passed)) => Err(ResolveError::Limit(passed.number, passed.count)),
        Ok(None) => match program_with(alloc, made, items) {
            Err(_) => Err(ResolveError::Memory),
            Ok(program) => Ok(program),
        },
    }
}

/// The items of a unit that breaks no rule.
fn items_of(unit: &Unit) -> &[Item]
    requires { unit_fault (unit_tree unit.now) ≡ None }
    ensures same { result.now ≡ unit.now.items.items }
    ensures fine { FineItems no_file (map item_tree result.now) }
{
    unit.items.as_slice()
}

/// The program that a unit stands for. A text spells the unit, so the program is valid (`LawsText` of `program_validity`). It
/// takes time in proportion to the unit, to the cells of its objects of file scope and to the types that are compared.
///
/// # Errors
///
/// `Meaning` with the first rule that is broken and its place; where none is, `Limit` with the first limit that is passed and
/// its count; `Memory` where memory was wanted.
pub fn resolve(alloc: Global, unit: &Unit) -> Result<Program, ResolveError>
    requires text { HasText (unit_tree unit.now) }
    ensures program { IfOk result (λ program. IsResolved (unit_tree unit.now) (program_tree program)) }
    ensures cause { IfErr result (HasCause (unit_tree unit.now)) }
{
    match check_unit(alloc, unit) {
        Err(_) => Err(ResolveError::Memory),
        Ok(Some(fault)) => Err(ResolveError::Meaning(fault.rule, fault.span)),
        Ok(None) => program_of(alloc, items_of(unit)),
    }
}
