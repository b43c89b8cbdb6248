//! Parameters of definitions (C11 6.9.1).
ghost use Rattle.std.specs.Prelude.{◌≡◌, ◌++◌, ◌∷◌, [], IfOk, OnOk, map};
ghost use Rattle.csub_objects.specs.Meaning.{member_tree};
ghost use Rattle.csub_rules.specs.Params.{param_type};
ghost use Rattle.csub_tree.specs.Declarations.{param_tree};
ghost use Rattle.csub_bodies.specs.Views.{here_of};
ghost use Rattle.csub_rules.specs.Heads.{past_param, past_params, sure_type};
ghost use Rattle.csub_resolution.specs.Programs.{name_or_none, params as made_params};

use csub_bodies::Here;
use csub_objects::Member;
use csub_text::Text;
use csub_tree::{Name, Param};
use csub_units::params::{declare_param, param_type, sure_type};
use std::alloc::{AllocError, Global};

/// The name of a parameter, empty where it has none.
fn name_or_none(alloc: Global, name: &Option<Name>) -> Result<Text, AllocError>
    ensures { IfOk result (λ text. text ≡ name_or_none name.now) }
{
    match name {
        None => Text::new(alloc, &[]),
        Some(x) => x.text.copy(),
    }
}

/// A parameter, put behind the others. It is declared then.
fn lower_param(
    alloc: Global,
    here: &mut Here,
    made: &mut Vec<Member>,
    p: &Param,
) -> Result<(), AllocError>
    ensures params { OnOk result (map member_tree made.new.items ≡ map member_tree made.old.items ++ record { name = name_or_none p.now.name; ctype = sure_type (param_type (here_of here.old).scope (param_tree p.now)) } ∷ []) }
    ensures past { OnOk result (here_of here.new ≡ past_param (here_of here.old) (param_tree p.now)) }
{
    let ctype = param_type(alloc, &here.scope, p)?;
    let name = name_or_none(alloc, &p.name)?;
    let sure = sure_type(&ctype)?;
    made.push(Member { name, ctype: sure })?;
    declare_param(here, &p.name, ctype)
}

/// The parameters of a definition, each of which sees those before it. They are declared then. An `Err` is want of memory.
pub fn lower_params(
    alloc: Global,
    here: &mut Here,
    params: &[Param],
) -> Result<Vec<Member>, AllocError>
    ensures params { IfOk result (λ made. map member_tree made.items ≡ made_params (here_of here.old) (map param_tree params.now)) }
    ensures past { OnOk result (here_of here.new ≡ past_params (here_of here.old) (map param_tree params.now)) }
{
    let mut made = Vec::new(alloc);
    for p in params {
        lower_param(alloc, here, &mut made, p)?;
    }
    Ok(made)
}
