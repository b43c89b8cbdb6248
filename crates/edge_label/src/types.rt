//! Types with the numbers of their codes.
ghost use Rattle.std.specs.Prelude.{◌≡◌, ◌++◌, IsTrue, IfOk, OnOk, map};
ghost use Rattle.std.specs.List.{All};
ghost use Rattle.csub_semantics.specs.Trees.{owner_tree};
ghost use Rattle.csub_semantics.specs.Labels.{label_tree};
ghost use Rattle.edge_label.specs.Numbers.{HasEachOnce};
ghost use Rattle.edge_label.specs.Structs.{AppendsType};
ghost use Rattle.edge_label.specs.Tables.{Extends, Extend, AreTables, IsTypeNumber, AreTypeNumbers, use_type, types_of};
ghost use Rattle.edge_label.specs.Known.{named_code, AreStructs, AreKnown, AreTyped};
ghost use Rattle.edge_label.specs.Uses.{an_object, Tags, HasTags, Declarations, IsDeclaredUse, IsDeclared, use_tree, standing_tree};

use crate::standing::Standing;
use crate::structs::{TagNumbers, number_struct, push_short};
use crate::table::{CodeTable, Tables};
use csub_semantics::{Label, Owner};
use label_code::{TypeUse, push_name, push_numbered, uses_of};
use std::alloc::{AllocError, Global};

/// A label with the numbers of its types, from left to right.
#[derive(Drop)]
pub struct Typed<'a> {
    /// The label.
    pub label: &'a Label,
    /// The numbers.
    pub types: Vec<u64>,
}

/// Names with the numbers of their types. So a type is gone over once for each name in a function.
#[derive(Drop)]
pub struct TypeNumbers<'a> {
    /// The names.
    pub names: CodeTable,
    /// By each name the number of its type.
    pub numbers: Vec<u64>,
    /// The numbers of structs by their tags.
    pub tags: TagNumbers<'a>,
}

/// Appends the code of the type beside a name, with numbers in the place of structs. The parameters of a callee are a
/// struct without a tag, so their number is not looked up.
fn push_use<'a>(
    alloc: Global,
    out: &mut Vec<u64>,
    structs: &mut CodeTable,
    tags: &mut TagNumbers<'a>,
    used: TypeUse<'a>,
) -> Result<(), AllocError>
    ensures short { OnOk result ((by_tag : Tags) → (IsTrue tags.old.trusted → HasTags by_tag (use_tree used.entry).named (use_tree used.entry).ctype) → AreStructs by_tag structs.old tags.old →
        AppendsType structs.new (use_tree used.entry).ctype out.old.items out.new.items) }
    ensures structs { (by_tag : Tags) → (IsTrue tags.old.trusted → HasTags by_tag (use_tree used.entry).named (use_tree used.entry).ctype) → AreStructs by_tag structs.old tags.old →
        AreStructs by_tag structs.new tags.new }
    ensures grows { Extends structs.old structs.new }
{
    match used {
        TypeUse::Object(_, ctype) => push_short(alloc, out, structs, tags, ctype),
        TypeUse::Callee(call) => {
            let number = number_struct(alloc, structs, tags, b"", &call.params)?;
            push_numbered(out, number)
        }
    }
}

/// Appends what tells an object in a function from others.
fn push_object(out: &mut Vec<u64>, function: u32, owner: &Owner) -> Result<(), AllocError>
    ensures { OnOk result (out.new.items ≡ out.old.items ++ named_code function (an_object (owner_tree owner.now))) }
{
    match owner {
        Owner::Global(name) => {
            out.push(0)?;
            push_name(out, name.bytes())
        }
        Owner::Local(name, number) => {
            out.push(1)?;
            out.push(u64::from(function))?;
            out.push(u64::from(*number))?;
            push_name(out, name.bytes())
        }
    }
}

/// Appends what tells a name in a function from others.
fn push_named(out: &mut Vec<u64>, function: u32, used: TypeUse<'_>) -> Result<(), AllocError>
    ensures { OnOk result (out.new.items ≡ out.old.items ++ named_code function (use_tree used.entry).named) }
{
    match used {
        TypeUse::Object(owner, _) => push_object(out, function, owner),
        TypeUse::Callee(call) => {
            out.push(2)?;
            push_name(out, call.callee.bytes())
        }
    }
}

/// The number of the type beside a name. An `Err` is want of memory.
fn number_type<'a>(
    alloc: Global,
    tables: &mut Tables,
    tags: &mut TagNumbers<'a>,
    used: TypeUse<'a>,
) -> Result<u64, AllocError>
    ensures number { IfOk result (λ n. (by_tag : Tags) → (IsTrue tags.old.trusted → HasTags by_tag (use_tree used.entry).named (use_tree used.entry).ctype) →
        AreStructs by_tag tables.old.structs tags.old → IsTypeNumber tables.new n (use_tree used.entry).ctype) }
    ensures structs { (by_tag : Tags) → (IsTrue tags.old.trusted → HasTags by_tag (use_tree used.entry).named (use_tree used.entry).ctype) →
        AreStructs by_tag tables.old.structs tags.old → AreStructs by_tag tables.new.structs tags.new }
    ensures grows { Extend tables.old tables.new }
    ensures once { HasEachOnce tables.old.parts → HasEachOnce tables.new.parts }
{
    let mut code = Vec::new(alloc);
    push_use(alloc, &mut code, &mut tables.structs, tags, used)?;
    tables.parts.number(code)
}

/// The number of the type beside a name, where nothing is declared: no tag is trusted.
fn number_use(alloc: Global, tables: &mut Tables, used: TypeUse<'_>) -> Result<u64, AllocError>
    ensures number { IfOk result (λ n. AreTables tables.old → IsTypeNumber tables.new n (use_tree used.entry).ctype) }
    ensures sound { AreTables tables.old → AreTables tables.new }
    ensures grows { Extend tables.old tables.new }
{
    let mut tags = TagNumbers::new(alloc, false);
    number_type(alloc, tables, &mut tags, used)
}

/// The numbers of the types beside names, from left to right.
fn number_uses(
    alloc: Global,
    tables: &mut Tables,
    uses: &[TypeUse<'_>],
) -> Result<Vec<u64>, AllocError>
    ensures numbers { IfOk result (λ numbers. AreTables tables.old → AreTypeNumbers tables.new numbers.items (map use_type (map use_tree uses.now))) }
    ensures sound { AreTables tables.old → AreTables tables.new }
    ensures grows { Extend tables.old tables.new }
{
    let mut numbers = Vec::new(alloc);
    for used in uses {
        numbers.push(number_use(alloc, tables, *used)?)?;
    }
    Ok(numbers)
}

/// The numbers of the types in a label, from left to right. An `Err` is want of memory.
pub fn number_types(
    alloc: Global,
    tables: &mut Tables,
    label: &Label,
) -> Result<Vec<u64>, AllocError>
    ensures numbers { IfOk result (λ numbers. AreTables tables.old → AreTypeNumbers tables.new numbers.items (types_of (label_tree label.now))) }
    ensures sound { AreTables tables.old → AreTables tables.new }
    ensures grows { Extend tables.old tables.new }
{
    let uses = uses_of(alloc, label)?;
    number_uses(alloc, tables, &uses)
}

/// The number of the type beside a name, which is that of its declaration: it is looked up, and else found out and kept.
fn find_number<'a>(
    alloc: Global,
    tables: &mut Tables,
    known: &mut TypeNumbers<'a>,
    function: u32,
    used: TypeUse<'a>,
) -> Result<u64, AllocError>
    ensures found { IfOk result (λ n. (d : Declarations) → IsDeclaredUse d function (use_tree used.entry) → AreStructs d.by_tag tables.old.structs known.old.tags →
        AreKnown tables.old d known.old.names known.old.numbers.items →
        IsTypeNumber tables.new n (use_tree used.entry).ctype × AreKnown tables.new d known.new.names known.new.numbers.items) }
    ensures structs { (d : Declarations) → IsDeclaredUse d function (use_tree used.entry) → AreStructs d.by_tag tables.old.structs known.old.tags →
        AreStructs d.by_tag tables.new.structs known.new.tags }
    ensures grows { Extend tables.old tables.new }
    ensures once { HasEachOnce tables.old.parts → HasEachOnce tables.new.parts }
{
    let mut name = Vec::new(alloc);
    push_named(&mut name, function, used)?;
    let place = known.names.number(name)? as usize;
    if place < known.numbers.len() {
        return Ok(known.numbers[place]);
    }
    let number = number_type(alloc, tables, &mut known.tags, used)?;
    known.numbers.push(number)?;
    Ok(number)
}

/// The numbers of the types beside names in a function, from left to right.
fn find_numbers<'a>(
    alloc: Global,
    tables: &mut Tables,
    known: &mut TypeNumbers<'a>,
    function: u32,
    uses: &[TypeUse<'a>],
) -> Result<Vec<u64>, AllocError>
    ensures found { IfOk result (λ numbers. (d : Declarations) → All (IsDeclaredUse d function) (map use_tree uses.now) → AreStructs d.by_tag tables.old.structs known.old.tags →
        AreKnown tables.old d known.old.names known.old.numbers.items →
        AreTypeNumbers tables.new numbers.items (map use_type (map use_tree uses.now)) × AreKnown tables.new d known.new.names known.new.numbers.items) }
    ensures structs { (d : Declarations) → All (IsDeclaredUse d function) (map use_tree uses.now) → AreStructs d.by_tag tables.old.structs known.old.tags →
        AreStructs d.by_tag tables.new.structs known.new.tags }
    ensures grows { Extend tables.old tables.new }
    ensures once { HasEachOnce tables.old.parts → HasEachOnce tables.new.parts }
{
    let mut numbers = Vec::new(alloc);
    for used in uses {
        numbers.push(find_number(alloc, tables, known, function, *used)?)?;
    }
    Ok(numbers)
}

/// A label with the numbers of its types. An `Err` is want of memory.
fn type_label<'a>(
    alloc: Global,
    tables: &mut Tables,
    known: &mut TypeNumbers<'a>,
    standing: Standing<'a>,
) -> Result<Typed<'a>, AllocError>
    ensures found { IfOk result (λ typed. (d : Declarations) → IsDeclared d (standing_tree standing.entry) → AreStructs d.by_tag tables.old.structs known.old.tags →
        AreKnown tables.old d known.old.names known.old.numbers.items →
        AreTypeNumbers tables.new typed.types.items (types_of (label_tree typed.label.now)) × AreKnown tables.new d known.new.names known.new.numbers.items) }
    ensures label { IfOk result (λ typed. label_tree typed.label.now ≡ label_tree standing.entry.label.now) }
    ensures structs { (d : Declarations) → IsDeclared d (standing_tree standing.entry) → AreStructs d.by_tag tables.old.structs known.old.tags →
        AreStructs d.by_tag tables.new.structs known.new.tags }
    ensures grows { Extend tables.old tables.new }
    ensures once { HasEachOnce tables.old.parts → HasEachOnce tables.new.parts }
{
    let label = standing.label;
    let uses = uses_of(alloc, label)?;
    let types = find_numbers(alloc, tables, known, standing.function, &uses)?;
    Ok(Typed { label, types })
}

/// Labels, each with the numbers of its types. An `Err` is want of memory.
fn type_labels<'a>(
    alloc: Global,
    tables: &mut Tables,
    known: &mut TypeNumbers<'a>,
    labels: &[Standing<'a>],
) -> Result<Vec<Typed<'a>>, AllocError>
    ensures typed { IfOk result (λ rows. (d : Declarations) → All (IsDeclared d) (map standing_tree labels.now) → AreStructs d.by_tag tables.old.structs known.old.tags →
        AreKnown tables.old d known.old.names known.old.numbers.items → AreTyped tables.new rows.items) }
    ensures labels { IfOk result (λ rows. map (λ t. label_tree t.label.now) rows.items ≡ map (λ s. label_tree s.label.now) labels.now) }
    ensures structs { (d : Declarations) → All (IsDeclared d) (map standing_tree labels.now) → AreStructs d.by_tag tables.old.structs known.old.tags →
        AreStructs d.by_tag tables.new.structs known.new.tags }
    ensures grows { Extend tables.old tables.new }
    ensures once { HasEachOnce tables.old.parts → HasEachOnce tables.new.parts }
{
    let mut rows = Vec::new(alloc);
    for standing in labels {
        rows.push(type_label(alloc, tables, known, *standing)?)?;
    }
    Ok(rows)
}

/// The labels of a program, each with the numbers of its types. An `Err` is want of memory.
pub fn number_all_types<'a>(
    alloc: Global,
    tables: &mut Tables,
    labels: &[Standing<'a>],
) -> Result<Vec<Typed<'a>>, AllocError>
    requires declared { (d : Declarations) × All (IsDeclared d) (map standing_tree labels.now) }
    ensures typed { IfOk result (λ rows. AreTables tables.old → AreTyped tables.new rows.items) }
    ensures labels { IfOk result (λ rows. map (λ t. label_tree t.label.now) rows.items ≡ map (λ s. label_tree s.label.now) labels.now) }
    ensures sound { AreTables tables.old → AreTables tables.new }
    ensures grows { Extend tables.old tables.new }
{
    let mut known = TypeNumbers {
        names: CodeTable::new(alloc),
        numbers: Vec::new(alloc),
        tags: TagNumbers::new(alloc, true),
    };
    type_labels(alloc, tables, &mut known, labels)
}
