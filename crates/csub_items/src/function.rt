//! Functions as they are defined (C11 6.9.1).
ghost use Rattle.std.specs.Prelude.{◌≡◌, ◌++◌, IfOk, OnOk, map};
ghost use Rattle.csub_semantics.specs.Syntax.{function_tree};
ghost use Rattle.csub_tree.specs.Declarations.{head_tree};
ghost use Rattle.csub_tree.specs.Statements.{stmt_tree, stmts_of};
ghost use Rattle.csub_tree.specs.Units.{item_tree};
ghost use Rattle.csub_rules.specs.Bodies.{FineBody};
ghost use Rattle.csub_rules.specs.ExprSorts.{number_of};
ghost use Rattle.csub_bodies.specs.Views.{here_of};
ghost use Rattle.csub_rules.specs.Files.{no_file};
ghost use Rattle.csub_rules.specs.FineItems.{FineItem, FineItems};
ghost use Rattle.csub_rules.specs.Heads.{past_head};
ghost use Rattle.csub_rules.specs.Items.{in_function, past_item};
ghost use Rattle.csub_units.specs.Views.{file_of};
ghost use Rattle.csub_resolution.specs.Programs.{defined_in, function_by, functions_by, functions_in, program_of};

use csub_bodies::Here;
use csub_globals::{declare_item, lower_params, with_start};
use csub_lower::Definitions;
use csub_semantics::Function;
use csub_statements::lower_body;
use csub_tree::{Head, Item, Stmt};
use csub_units::File;
use csub_units::heads::{check_head, enter_params, leave_params, number_of};
use std::alloc::{AllocError, Global};

/// A function with these lines. Its name is declared then, and what it declares itself is known no more.
fn lower_function(
    alloc: Global,
    here: &mut Here,
    definitions: &Definitions,
    h: &Head,
    lines: &[Stmt],
) -> Result<Function, AllocError>
    requires { FineBody (number_of h.now.result) (in_function (here_of here.old).scope (head_tree h.now)) (stmts_of (map stmt_tree lines.now)) }
    ensures tree { IfOk result (λ made. function_tree made ≡ function_by definitions.now (here_of here.old).scope (head_tree h.now) (stmts_of (map stmt_tree lines.now))) }
    ensures past { OnOk result ((here_of here.new).scope ≡ past_head (here_of here.old).scope (head_tree h.now)) }
{
    check_head(alloc, here, h)?;
    let mark = here.scope.names.count();
    enter_params(alloc, here);
    let params = lower_params(alloc, here, h.params.as_slice())?;
    let result = number_of(&h.result);
    let body = lower_body(alloc, here, definitions, result, lines)?;
    leave_params(here, mark);
    let name = h.name.text.copy()?;
    Ok(Function {
        name,
        params,
        result,
        body: body.lines,
        span: h.name.span,
        locals: body.locals,
        temps: body.temps,
    })
}

/// Appends the function that an item defines, and declares what it declares.
fn lower_item(
    alloc: Global,
    file: &mut File,
    definitions: &Definitions,
    made: &mut Vec<Function>,
    item: &Item,
) -> Result<(), AllocError>
    requires { FineItem (file_of file.old) (item_tree item.now) }
    ensures made { OnOk result (map function_tree made.new.items ≡ map function_tree made.old.items ++ functions_by definitions.now (file_of file.old) (item_tree item.now)) }
    ensures past { OnOk result (file_of file.new ≡ past_item (file_of file.old) (item_tree item.now)) }
{
    match item {
        Item::Function(h, lines, _) => {
            let function = lower_function(alloc, &mut file.here, definitions, h, lines.as_slice())?;
            file.defined.add(&h.name.text)?;
            made.push(function)?;
            Ok(())
        }
        _ => declare_item(alloc, file, item),
    }
}

/// The functions of items which break no rule, in their order; they are declared then.
fn functions_in(
    alloc: Global,
    file: &mut File,
    definitions: &Definitions,
    items: &[Item],
) -> Result<Vec<Function>, AllocError>
    requires { FineItems (file_of file.old) (map item_tree items.now) }
    ensures { IfOk result (λ made. map function_tree made.items ≡ functions_in definitions.now (file_of file.old) (map item_tree items.now)) }
{
    let mut made = Vec::new(alloc);
    for item in items {
        lower_item(alloc, file, definitions, &mut made, item)?;
    }
    Ok(made)
}

/// The functions of a source of items which break no rule.
fn defined_functions(
    alloc: Global,
    definitions: &Definitions,
    items: &[Item],
) -> Result<Vec<Function>, AllocError>
    requires { FineItems no_file (map item_tree items.now) }
    ensures { IfOk result (λ made. map function_tree made.items ≡ functions_in definitions.now no_file (map item_tree items.now)) }
{
    let mut file = File::new(alloc);
    functions_in(alloc, &mut file, definitions, items)
}

/// The functions of the program that a source of these items stands for, which breaks no rule: `#start`, and the defined ones in
/// the order of the source. Its definitions are those of `definitions` of `csub_globals`. An `Err` is want of memory, or a full count.
pub fn functions(
    alloc: Global,
    definitions: &Definitions,
    items: &[Item],
) -> Result<Vec<Function>, AllocError>
    requires fine { FineItems no_file (map item_tree items.now) }
    requires definitions { definitions.now ≡ defined_in no_file (map item_tree items.now) }
    ensures { IfOk result (λ made. map function_tree made.items ≡ (program_of (record { items = map item_tree items.now })).functions) }
{
    let made = defined_functions(alloc, definitions, items)?;
    with_start(alloc, made)
}
