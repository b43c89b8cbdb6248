//! Declarations in blocks (C11 6.7).
ghost use Rattle.std.specs.Prelude.{◌≡◌, ◌++◌, ◌∷◌, [], IfOk, OnOk, map, option_map};
ghost use Rattle.csub_objects.specs.Meaning.{type_tree};
ghost use Rattle.csub_scopes.specs.Meanings.{scope_of};
ghost use Rattle.csub_semantics.specs.Syntax.{local_tree, part_tree};
ghost use Rattle.csub_tree.specs.Declarations.{declarator_tree, declare_tree, init_tree};
ghost use Rattle.csub_rules.specs.BrokenLocal.{FineDeclare, FineVar, FineVars};
ghost use Rattle.csub_rules.specs.Declarators.{base_type};
ghost use Rattle.csub_rules.specs.Here.{number_of};
ghost use Rattle.csub_rules.specs.Locals.{past_declare, past_var, past_vars};
ghost use Rattle.csub_bodies.specs.Views.{here_of};
ghost use Rattle.csub_rules.specs.Heads.{sure_type};
ghost use Rattle.csub_resolution.specs.Lines.{declare_parts, var_parts, vars_locals, vars_parts};
ghost use Rattle.csub_lines.specs.Numbers.{HasNumbers, parts_of_object};
ghost use Rattle.csub_lines.specs.Objects.{local_of};

use crate::part::init_part;
use csub_bodies::{Here, declare};
use csub_declare::{base_type, check_slot};
use csub_lower::{Definitions, Known};
use csub_objects::{CType, copy_type};
use csub_semantics::{LocalVar, RPart};
use csub_tree::{Declarator, Declare};
use csub_types::IntKind;
use std::alloc::{AllocError, Global};

/// The number of the next object of a name in its function.
fn number_of(here: &Here, name: &[u8]) -> Result<u32, AllocError>
    ensures { IfOk result (λ number. number ≡ number_of name.now (here_of here.now).before) }
{
    let count = here.before.count(name);
    if count >= 4_294_967_295 {
        return Err(AllocError);
    }
    Ok(count + 1)
}

/// A copy of a type, which shares what it holds.
fn shared(ctype: &Option<CType>) -> Result<Option<CType>, AllocError>
    ensures { IfOk result (λ made. option_map type_tree made ≡ option_map type_tree ctype.now) }
{
    match ctype {
        None => Ok(None),
        Some(ctype) => Ok(Some(copy_type(ctype)?)),
    }
}

/// The type of a declared object, `int` where its declaration breaks a rule.
fn sure_type(ctype: Option<CType>) -> CType
    ensures { type_tree result ≡ sure_type (option_map type_tree ctype) }
{
    match ctype {
        None => CType::Num(IntKind::Int),
        Some(ctype) => ctype,
    }
}

/// Declares an object behind a type, and gives it. An `Err` is want of memory, or 4,294,967,295 objects of one name.
fn declare_var(
    alloc: Global,
    here: &mut Here,
    base: &Option<CType>,
    d: &Declarator,
) -> Result<LocalVar, AllocError>
    ensures past { OnOk result (here_of here.new ≡ past_var (here_of here.old) (option_map type_tree base.now) (declarator_tree d.now)) }
    ensures local { IfOk result (λ local. local_tree local ≡ local_of (here_of here.old) (option_map type_tree base.now) (declarator_tree d.now)) }
{
    let number = number_of(here, d.name.text.bytes())?;
    let slot = check_slot(alloc, &here.scope, base, d.name.span, d.dims.as_slice())?;
    let seen = shared(&slot.ctype)?;
    declare(here, &d.name.text, seen)?;
    let name = d.name.text.copy()?;
    Ok(LocalVar {
        name,
        number,
        ctype: sure_type(slot.ctype),
    })
}

/// Appends the part of a declared object, where it has an initialiser.
fn push_init(
    alloc: Global,
    known: Known,
    d: &Declarator,
    local: &LocalVar,
    parts: &mut Vec<RPart>,
) -> Result<(), AllocError>
    requires { HasNumbers (scope_of known.scope.now) (option_map init_tree d.now.init) }
    ensures { OnOk result (map part_tree parts.new.items ≡ map part_tree parts.old.items ++ parts_of_object known.entry.definitions.now (scope_of known.entry.scope.now) d.now.name local.now.number (type_tree local.now.ctype) (option_map init_tree d.now.init)) }
{
    match &d.init {
        None => Ok(()),
        Some(init) => {
            let part = init_part(alloc, known, &d.name, local.number, &local.ctype, init)?;
            parts.push(Box::into_inner(part))?;
            Ok(())
        }
    }
}

/// A declared object behind a type: it is declared and appended, and so is its part, where it has an initialiser.
fn lower_var(
    alloc: Global,
    here: &mut Here,
    definitions: &Definitions,
    base: &Option<CType>,
    d: &Declarator,
    locals: &mut Vec<LocalVar>,
    parts: &mut Vec<RPart>,
) -> Result<(), AllocError>
    requires { FineVar (here_of here.old) (option_map type_tree base.now) (declarator_tree d.now) }
    ensures past { OnOk result (here_of here.new ≡ past_var (here_of here.old) (option_map type_tree base.now) (declarator_tree d.now)) }
    ensures locals { OnOk result (map local_tree locals.new.items ≡ map local_tree locals.old.items ++ local_of (here_of here.old) (option_map type_tree base.now) (declarator_tree d.now) ∷ []) }
    ensures parts { OnOk result (map part_tree parts.new.items ≡ map part_tree parts.old.items ++ var_parts definitions.now (here_of here.old) (option_map type_tree base.now) (declarator_tree d.now) (option_map init_tree d.now.init)) }
{
    let local = declare_var(alloc, here, base, d)?;
    let known = Known {
        scope: &here.scope,
        definitions,
    };
    push_init(alloc, known, d, &local, parts)?;
    locals.push(local)?;
    Ok(())
}

/// Declared objects behind a type.
fn lower_vars(
    alloc: Global,
    here: &mut Here,
    definitions: &Definitions,
    base: &Option<CType>,
    vars: &[Declarator],
    locals: &mut Vec<LocalVar>,
) -> Result<Vec<RPart>, AllocError>
    requires { FineVars (here_of here.old) (option_map type_tree base.now) (map declarator_tree vars.now) }
    ensures past { OnOk result (here_of here.new ≡ past_vars (here_of here.old) (option_map type_tree base.now) (map declarator_tree vars.now)) }
    ensures locals { OnOk result (map local_tree locals.new.items ≡ map local_tree locals.old.items ++ vars_locals (here_of here.old) (option_map type_tree base.now) (map declarator_tree vars.now)) }
    ensures parts { IfOk result (λ parts. map part_tree parts.items ≡ vars_parts definitions.now (here_of here.old) (option_map type_tree base.now) (map declarator_tree vars.now)) }
{
    let mut parts = Vec::new(alloc);
    for d in vars {
        lower_var(alloc, here, definitions, base, d, locals, &mut parts)?;
    }
    Ok(parts)
}

/// The parts of a declaration in a block that breaks no rule: one for each object with an initialiser. The objects are declared
/// and appended. An `Err` is want of memory, 4,294,967,295 objects of one name, or more than 4,294,967,295 calls.
pub fn lower_declaration(
    alloc: Global,
    here: &mut Here,
    definitions: &Definitions,
    d: &Declare,
    locals: &mut Vec<LocalVar>,
) -> Result<Vec<RPart>, AllocError>
    requires { FineDeclare (here_of here.old) (declare_tree d.now) }
    ensures past { OnOk result (here_of here.new ≡ past_declare (here_of here.old) (declare_tree d.now)) }
    ensures locals { OnOk result (map local_tree locals.new.items ≡ map local_tree locals.old.items ++ vars_locals (here_of here.old) (base_type (here_of here.old).scope d.now.base) (declare_tree d.now).vars) }
    ensures parts { IfOk result (λ parts. map part_tree parts.items ≡ declare_parts definitions.now (here_of here.old) (declare_tree d.now)) }
{
    let base = base_type(&here.scope, &d.base)?;
    lower_vars(alloc, here, definitions, &base, d.vars.as_slice(), locals)
}
