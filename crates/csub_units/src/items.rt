//! The items of a source (C11 6.9).
ghost use Rattle.std.specs.Prelude.{◌≡◌, ◌∷◌, IfOk, OnOk, map};
ghost use Rattle.csub_rules.specs.ExprSorts.{number_of};
ghost use Rattle.csub_tree.specs.Declarations.{head_tree, param_tree};
ghost use Rattle.csub_tree.specs.Statements.{stmt_tree, stmts_of};
ghost use Rattle.csub_tree.specs.Units.{item_tree};
ghost use Rattle.csub_rules.specs.Bodies.{body_fault};
ghost use Rattle.csub_rules.specs.Faults.{fault_if, ◌or_earlier◌};
ghost use Rattle.csub_bodies.specs.Views.{here_of};
ghost use Rattle.csub_rules.specs.Heads.{at_params, head_fault, past_head, past_params};
ghost use Rattle.csub_rules.specs.Items.{in_function, is_int, is_misdefined, is_other_main, item_fault, items_fault, lacks_names, past_item, past_items};
ghost use Rattle.csub_units.specs.Views.{file_of};

use crate::enums::check_enum;
use crate::file::File;
use crate::heads::{check_head, enter_params, leave_params, number_of};
use crate::objects::check_declaration;
use crate::params::check_params;
use crate::structs::check_struct;
use csub_bodies::{Here, check_body, stands_in};
use csub_rules::{Fault, earlier, fault_if};
use csub_tree::{Head, Item, Param, Stmt};
use csub_types::IntKind;
use std::alloc::{AllocError, Global};

/// Whether a parameter has no name (C11 6.9.1p5).
fn lacks_names(params: &[Param]) -> bool
    ensures { result ≡ lacks_names (map param_tree params.now) }
{
    let mut lacks = false;
    for p in params {
        lacks |= p.name.is_none();
    }
    lacks
}

fn is_int(kind: Option<IntKind>) -> bool
    ensures { result ≡ is_int kind }
{
    match kind {
        None => false,
        Some(kind) => kind == IntKind::Int,
    }
}

/// Whether a head is that of a `main` with another result than `int`, or with parameters (C11 5.1.2.2.1p1).
fn is_other_main(h: &Head) -> bool
    ensures { result ≡ is_other_main (head_tree h.now) }
{
    let is_main = h.name.text.bytes() == b"main".as_slice();
    let has_none = h.params.is_empty();
    let is_right = is_int(number_of(&h.result)) && has_none;
    is_main && !is_right
}

/// M19 of a definition: of a function that is defined already, or not as it has to be.
fn is_misdefined(file: &File, h: &Head) -> bool
    ensures { result ≡ is_misdefined (file_of file.now) (head_tree h.now) }
{
    let again = stands_in(&file.defined, h.name.text.bytes());
    let unnamed = lacks_names(h.params.as_slice());
    again || (unnamed || is_other_main(h))
}

/// The first rule that the body of a function breaks, whose head is declared.
fn check_function_body(
    alloc: Global,
    here: &mut Here,
    h: &Head,
    lines: &[Stmt],
) -> Result<Option<Fault>, AllocError>
    ensures fault { IfOk result (λ fault. fault ≡ body_fault (number_of h.now.result) (past_params (at_params (here_of here.old).scope) (head_tree h.now).params) (stmts_of (map stmt_tree lines.now))) }
    ensures past { OnOk result ((here_of here.new).scope ≡ (here_of here.old).scope) }
{
    let mark = here.scope.names.count();
    enter_params(alloc, here);
    check_params(alloc, here, h.params.as_slice())?;
    let fault = check_body(alloc, here, number_of(&h.result), lines)?;
    leave_params(here, mark);
    Ok(fault)
}

/// The first rule that the definition of a function breaks. It is declared and defined then.
fn check_function(
    alloc: Global,
    file: &mut File,
    h: &Head,
    lines: &[Stmt],
) -> Result<Option<Fault>, AllocError>
    ensures fault { IfOk result (λ fault. fault ≡ head_fault (file_of file.old).scope (head_tree h.now) or_earlier fault_if (is_misdefined (file_of file.old) (head_tree h.now)) 19 h.now.name.span or_earlier body_fault (number_of h.now.result) (in_function (file_of file.old).scope (head_tree h.now)) (stmts_of (map stmt_tree lines.now))) }
    ensures past { OnOk result (file_of file.new ≡ record { scope = past_head (file_of file.old).scope (head_tree h.now); defined = h.now.name.text ∷ (file_of file.old).defined }) }
{
    let misdefined = fault_if(is_misdefined(file, h), 19, h.name.span);
    let head = check_head(alloc, &mut file.here, h)?;
    let body = check_function_body(alloc, &mut file.here, h, lines)?;
    file.defined.add(&h.name.text)?;
    Ok(earlier(earlier(head, misdefined), body))
}

/// The first rule that an item breaks. What it declares is declared then. An `Err` is want of memory.
pub fn check_item(alloc: Global, file: &mut File, item: &Item) -> Result<Option<Fault>, AllocError>
    ensures fault { IfOk result (λ fault. fault ≡ item_fault (file_of file.old) (item_tree item.now)) }
    ensures past { OnOk result (file_of file.new ≡ past_item (file_of file.old) (item_tree item.now)) }
{
    match item {
        Item::Struct(tag, ds) => check_struct(alloc, &mut file.here.scope, tag, ds.as_slice()),
        Item::Enum(tag, constants) => {
            check_enum(&mut file.here.scope, tag, constants.as_slice())
        }
        Item::Object(d) => check_declaration(alloc, &mut file.here.scope, d),
        Item::Prototype(h) => check_head(alloc, &mut file.here, h),
        Item::Function(h, lines, _) => check_function(alloc, file, h, lines.as_slice()),
    }
}

/// Items, each of which sees what those before it declare.
pub(crate) fn check_items(
    alloc: Global,
    file: &mut File,
    items: &[Item],
) -> Result<Option<Fault>, AllocError>
    ensures fault { IfOk result (λ fault. fault ≡ items_fault (file_of file.old) (map item_tree items.now)) }
    ensures past { OnOk result (file_of file.new ≡ past_items (file_of file.old) (map item_tree items.now)) }
{
    let mut least = None;
    for item in items {
        let fault = check_item(alloc, file, item)?;
        least = earlier(least, fault);
    }
    Ok(least)
}
