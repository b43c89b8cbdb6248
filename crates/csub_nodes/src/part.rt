//! Labels and parts of statements by what they are made of (C11 6.8).
ghost use Rattle.std.specs.Prelude.{◌≡◌, ◌++◌, ◌∷◌, [], pos, Some, None, IfOk, map, option_map};
ghost use Rattle.csub_types.specs.declared.kind.IntKind.TheVariants.{Int};
ghost use Rattle.csub_objects.specs.Meaning.{type_tree};
ghost use Rattle.csub_semantics.specs.Labels.{answer_tree, branches, evaluates, halts, init_tree as made_tree, initialises, jumps, label_tree, returns, switches};
ghost use Rattle.csub_semantics.specs.Syntax.{call_at, in_part, part_tree};
ghost use Rattle.csub_semantics.specs.Trees.{constant, expr_tree as value_tree, local_owner};
ghost use Rattle.csub_resolution.specs.Lines.{own};
ghost use Rattle.csub_rules.specs.Words.{word_goto, word_return};

use crate::boxes::{boxed_label, boxed_part};
use csub_objects::{CType, copy_type};
use csub_rules::first_bytes;
use csub_semantics::{Answer, Label, Owner, RCall, RExpr, RInit, RPart};
use csub_text::Span;
use csub_tree::Name;
use csub_types::IntKind;
use std::alloc::{AllocError, Global};

/// The part of calls and of a point of its own at a place.
#[tactic(auto, using(crate::proofs::Placed::placed))]
pub fn own_part(
    alloc: Global,
    calls: Vec<RCall>,
    label: Box<Label>,
    span: Span,
) -> Result<Box<RPart>, AllocError>
    ensures { IfOk result (λ part. part_tree part.value ≡ map (in_part span) (map call_at calls.items) ++ own (label_tree label.value) span) }
{
    let main = Some(Box::into_inner(label));
    boxed_part(alloc, RPart { calls, main, span })
}

/// The part of calls alone, at a place.
#[tactic(auto, using(crate::proofs::Placed::placed, crate::proofs::Placed::alone))]
pub fn calls_part(alloc: Global, calls: Vec<RCall>, span: Span) -> Result<Box<RPart>, AllocError>
    ensures { IfOk result (λ part. part_tree part.value ≡ map (in_part span) (map call_at calls.items)) }
{
    let main = None;
    boxed_part(alloc, RPart { calls, main, span })
}

/// The label of an expression that is evaluated for its effects.
pub fn eval_label(alloc: Global, value: Box<RExpr>) -> Result<Box<Label>, AllocError>
    ensures { IfOk result (λ label. label_tree label.value ≡ evaluates (value_tree value.value)) }
{
    boxed_label(alloc, Label::Eval(Box::into_inner(value)))
}

/// The label of `exit`.
pub fn halt_label(alloc: Global, value: Box<RExpr>) -> Result<Box<Label>, AllocError>
    ensures { IfOk result (λ label. label_tree label.value ≡ halts (value_tree value.value)) }
{
    boxed_label(alloc, Label::Halt(Box::into_inner(value)))
}

/// The label of a test.
pub fn branch_label(alloc: Global, value: Box<RExpr>) -> Result<Box<Label>, AllocError>
    ensures { IfOk result (λ label. label_tree label.value ≡ branches (value_tree value.value)) }
{
    boxed_label(alloc, Label::Branch(Box::into_inner(value)))
}

/// The label of the expression of a `switch`.
pub fn switch_label(alloc: Global, value: Box<RExpr>) -> Result<Box<Label>, AllocError>
    ensures { IfOk result (λ label. label_tree label.value ≡ switches (value_tree value.value)) }
{
    boxed_label(alloc, Label::Switch(Box::into_inner(value)))
}

/// A returned value with the result type of its function (C11 6.8.6.4).
pub fn answer_of(result_kind: Option<IntKind>, value: Box<RExpr>) -> Option<Answer>
    ensures { option_map answer_tree result ≡ option_map (λ kind. record { kind = kind; value = value_tree value.value }) result_kind }
{
    let kind = result_kind?;
    Some(Answer {
        kind,
        value: Box::into_inner(value),
    })
}

/// The label of a `return` with a value, where its function gives this kind, or nothing.
pub fn return_label(
    alloc: Global,
    result_kind: Option<IntKind>,
    value: Box<RExpr>,
) -> Result<Box<Label>, AllocError>
    ensures { IfOk result (λ label. label_tree label.value ≡ returns (option_map (λ kind. record { kind = kind; value = value_tree value.value }) result_kind)) }
{
    boxed_label(alloc, Label::Return(answer_of(result_kind, value)))
}

/// The label of a declared object of a name and a number that gets these contents.
pub fn init_label(
    alloc: Global,
    name: &Name,
    number: u32,
    ctype: &CType,
    value: Box<RInit>,
) -> Result<Box<Label>, AllocError>
    ensures { IfOk result (λ label. label_tree label.value ≡ initialises (local_owner name.now.text number) (type_tree ctype.now) (made_tree value.value)) }
{
    let text = name.text.copy()?;
    let ctype = copy_type(ctype)?;
    let owner = Owner::Local(text, number);
    boxed_label(alloc, Label::Init(owner, ctype, Box::into_inner(value)))
}

/// The label of the test of a `for` that has none.
pub fn always_label(alloc: Global) -> Result<Box<Label>, AllocError>
    ensures { IfOk result (λ label. label_tree label.value ≡ branches (constant Int (pos 1))) }
{
    boxed_label(alloc, Label::Branch(RExpr::Const(IntKind::Int, 1)))
}

/// One part as a list.
pub fn one_part(alloc: Global, part: Box<RPart>) -> Result<Vec<RPart>, AllocError>
    ensures { IfOk result (λ parts. map part_tree parts.items ≡ part_tree part.value ∷ []) }
{
    let mut parts = Vec::new(alloc);
    parts.push(Box::into_inner(part))?;
    Ok(parts)
}

/// The part of a `return` without a value.
pub fn end_part(alloc: Global, span: Span) -> Result<Box<RPart>, AllocError>
    ensures { IfOk result (λ part. part_tree part.value ≡ own (returns None) (word_return span)) }
{
    let label = boxed_label(alloc, Label::Return(None))?;
    own_part(alloc, Vec::new(alloc), label, first_bytes(6, span))
}

/// The part of a `goto` at a place.
pub fn goto_part(alloc: Global, span: Span) -> Result<Box<RPart>, AllocError>
    ensures { IfOk result (λ part. part_tree part.value ≡ own jumps (word_goto span)) }
{
    let label = boxed_label(alloc, Label::Goto)?;
    own_part(alloc, Vec::new(alloc), label, first_bytes(4, span))
}
