//! What objects of file scope begin with (C11 6.7.9).
ghost use Rattle.std.specs.Prelude.{◌≡◌, ◌++◌, ◌≤◌, pos, IfOk, OnOk, map, option_map, replicate};
ghost use Rattle.std.specs.List.{repeat};
ghost use Rattle.csub_objects.specs.Meaning.{member_tree, type_tree};
ghost use Rattle.csub_objects.specs.Types.{member_kinds, members_of};
ghost use Rattle.csub_scopes.specs.Meanings.{scope_of};
ghost use Rattle.csub_tree.specs.Declarations.{One, init_tree, inits_of};
ghost use Rattle.csub_tree.specs.Expressions.{expr_tree};
ghost use Rattle.csub_resolution.specs.Contents.{contents, element_contents, initial, member_contents, zeros};

use csub_check::constant;
use csub_objects::{CType, Member, cells, number_kind};
use csub_scopes::Scope;
use csub_tree::{Expr, Init};
use csub_types::convert;
use std::alloc::{AllocError, Global};

/// Appends 0, so many times.
fn append_zeros(numbers: &mut Vec<i64>, count: u64) -> Result<(), AllocError>
    requires { count ≤ 281474976710656 }
    ensures { OnOk result (numbers.new.items ≡ numbers.old.items ++ replicate count (pos 0)) }
{
    let length = numbers.len() + count as usize;
    numbers.resize(length, 0)?;
    Ok(())
}

/// Appends what so many objects of a type begin with, for which nothing is given. An `Err` is want of memory, or a type with
/// more than 65,536 cells.
#[tactic(auto, using(crate::proofs::Zeros::exact, crate::proofs::Zeros::counted))]
fn zeros(numbers: &mut Vec<i64>, ctype: &CType, times: u32) -> Result<(), AllocError>
    ensures { OnOk result (numbers.new.items ≡ numbers.old.items ++ repeat times (zeros (type_tree ctype.now))) }
{
    let each = cells(ctype);
    if each > 65_536 {
        return Err(AllocError);
    }
    append_zeros(numbers, each * u64::from(times))
}

/// The same of one object.
#[tactic(auto, using(crate::proofs::Zeros::once))]
fn zeros_of_one(numbers: &mut Vec<i64>, ctype: &CType) -> Result<(), AllocError>
    ensures { OnOk result (numbers.new.items ≡ numbers.old.items ++ zeros (type_tree ctype.now)) }
{
    zeros(numbers, ctype, 1)
}

/// The same of the objects of a struct's members.
fn member_zeros(numbers: &mut Vec<i64>, members: &[Member]) -> Result<(), AllocError>
    ensures { OnOk result (numbers.new.items ≡ numbers.old.items ++ map (λ k. pos 0) (member_kinds (members_of (map member_tree members.now)))) }
{
    for member in members {
        zeros_of_one(numbers, &member.ctype)?;
    }
    Ok(())
}

/// Appends the value of a constant, converted to the kind of a type (C11 6.7.9p11).
fn given(scope: &Scope, e: &Expr, ctype: &CType, numbers: &mut Vec<i64>) -> Result<(), AllocError>
    ensures { OnOk result (numbers.new.items ≡ numbers.old.items ++ contents (scope_of scope.now) (One (expr_tree e.now)) (type_tree ctype.now)) }
{
    let value = constant(scope, e).unwrap_or(0);
    numbers.push(convert(number_kind(ctype), value))?;
    Ok(())
}

/// Appends what an object of file scope begins with that has this initialiser: a number for each of its cells, in their order
/// (C11 6.7.9p10, p11 and p21). It takes time in proportion to the cells. An `Err` is want of memory, or a type with more
/// than 65,536 cells; what was appended then means nothing.
#[cycle(contents)]
pub fn contents(
    scope: &Scope,
    init: &Init,
    ctype: &CType,
    numbers: &mut Vec<i64>,
) -> Result<(), AllocError>
    ensures { OnOk result (numbers.new.items ≡ numbers.old.items ++ contents (scope_of scope.now) (init_tree init.now) (type_tree ctype.now)) }
{
    match init {
        Init::One(e) => given(scope, e, ctype, numbers),
        Init::List(entries, _) => match ctype {
            CType::Num(_) => zeros_of_one(numbers, ctype),
            CType::Array(element, length) => element_contents(
                scope,
                entries.as_slice(),
                element.ctype(),
                *length,
                numbers,
            ),
            CType::Struct(_, members) => {
                member_contents(scope, entries.as_slice(), members.items(), numbers)
            }
            CType::Loose(_) => zeros_of_one(numbers, ctype),
        },
    }
}

/// The same of an array of so many elements, whose first ones have these initialisers.
#[cycle(contents)]
fn element_contents(
    scope: &Scope,
    entries: &[Init],
    element: &CType,
    length: u32,
    numbers: &mut Vec<i64>,
) -> Result<(), AllocError>
    ensures { OnOk result (numbers.new.items ≡ numbers.old.items ++ element_contents (scope_of scope.now) (inits_of (map init_tree entries.now)) (type_tree element.now) length) }
{
    let mut left = length;
    for entry in entries {
        if left == 0 {
            return Ok(());
        }
        contents(scope, entry, element, numbers)?;
        left -= 1;
    }
    zeros(numbers, element, left)
}

/// The same of a struct with these members, whose first ones have these initialisers.
#[cycle(contents)]
fn member_contents(
    scope: &Scope,
    entries: &[Init],
    members: &[Member],
    numbers: &mut Vec<i64>,
) -> Result<(), AllocError>
    ensures { OnOk result (numbers.new.items ≡ numbers.old.items ++ member_contents (scope_of scope.now) (inits_of (map init_tree entries.now)) (members_of (map member_tree members.now))) }
{
    let mut rest = members;
    for entry in entries {
        let Some((member, later)) = rest.split_first() else {
            return Ok(());
        };
        contents(scope, entry, &member.ctype, numbers)?;
        rest = later;
    }
    member_zeros(numbers, rest)
}

/// Appends what an object of file scope begins with that has this initialiser, or none.
fn append_initial(
    scope: &Scope,
    init: &Option<Init>,
    ctype: &CType,
    numbers: &mut Vec<i64>,
) -> Result<(), AllocError>
    ensures { OnOk result (numbers.new.items ≡ numbers.old.items ++ initial (scope_of scope.now) (option_map init_tree init.now) (type_tree ctype.now)) }
{
    match init {
        None => zeros_of_one(numbers, ctype),
        Some(init) => contents(scope, init, ctype, numbers),
    }
}

/// What an object of file scope begins with that has this initialiser, or none: a number for each of its cells (C11
/// 6.7.9p10). Time and errors are those of [`contents`].
pub fn initial(
    alloc: Global,
    scope: &Scope,
    init: &Option<Init>,
    ctype: &CType,
) -> Result<Vec<i64>, AllocError>
    ensures { IfOk result (λ numbers. numbers.items ≡ initial (scope_of scope.now) (option_map init_tree init.now) (type_tree ctype.now)) }
{
    let mut numbers = Vec::new(alloc);
    append_initial(scope, init, ctype, &mut numbers)?;
    Ok(numbers)
}
