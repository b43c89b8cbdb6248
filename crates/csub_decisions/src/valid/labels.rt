//! The labelled statements of a function: which names they have, and that these differ.
//!
//! They are looked for by a pass over the function's statements, which takes no memory.
ghost use Rattle.std.specs.Prelude.{◌≡◌, ◌≢◌, ◌↔◌, ◌≤◌, ◌-◌, ◌∷◌, [], AllPairs, IsTrue, sum_by, bytes_eq};
ghost use Rattle.std.specs.List.{list_any, list_all};
ghost use Rattle.std.specs.Option.{SomeIff, option_map};
ghost use Rattle.csub_semantics.specs.Labels.{label_tree};
ghost use Rattle.csub_semantics.specs.Syntax.{part_tree, stmt_tree, function_tree};
ghost use Rattle.csub_validity.specs.Valid.{IsJump, labels_of};
ghost use Rattle.csub_decisions.specs.ProgramChecks.{IsOwnJump, is_once, label_names, uses};

use csub_semantics::{Function, Label, RPart, RStmt, Text};

/// Whether a part is the point of a `goto`, by itself.
pub(crate) fn is_jump(part: &RPart) -> bool
    ensures { IsTrue result ↔ IsJump (part_tree part.now) }
{
    part.calls.is_empty() && is_goto(&part.main)
}

/// Whether a part's own point is that of a `goto`.
fn is_goto(main: &Option<Label>) -> bool
    ensures { IsTrue result ↔ IsOwnJump (option_map label_tree main.now) }
{
    match main {
        Some(Label::Goto) => true,
        _ => false,
    }
}

/// Whether a function has a label of a name.
pub(crate) fn has_label(function: &Function, name: &Text) -> bool
    ensures { result ≡ list_any (λ b. bytes_eq b name.now) (labels_of (function_tree function.now)) }
{
    room_after_labels(&function.body, name.bytes(), 0).is_none()
}

/// Whether at most one labelled statement of a function has a name.
fn is_once(function: &Function, name: &Text) -> bool
    ensures { result ≡ is_once (labels_of (function_tree function.now)) name.now }
{
    room_after_labels(&function.body, name.bytes(), 1).is_some()
}

/// What is left of `room` when one is taken away for each label of a name in a statement.
#[cycle(room)]
#[tactic(auto, using(crate::proofs::ValidLabels::uses_append))]
fn room_after_label(stmt: &RStmt, name: &[u8], room: usize) -> Option<usize>
    ensures { SomeIff result (uses name.now (label_names (stmt_tree stmt.now)) ≤ room) (room - uses name.now (label_names (stmt_tree stmt.now))) }
{
    match stmt {
        RStmt::Block(stmts) => room_after_labels(stmts, name, room),
        RStmt::Switch(_, stmts) => room_after_labels(stmts, name, room),
        RStmt::If(_, then, other) => {
            let after_then = room_after_label(then, name, room)?;
            match other {
                None => Some(after_then),
                Some(stmt) => room_after_label(stmt, name, after_then),
            }
        }
        RStmt::While(_, body) | RStmt::Do(body, _) | RStmt::For(_, _, _, body) => {
            room_after_label(body, name, room)
        }
        RStmt::Mark(label, stmt) => {
            let after_label = room_after_name(label, name, room)?;
            room_after_label(stmt, name, after_label)
        }
        RStmt::Parts(_) | RStmt::Case(_) | RStmt::Default => Some(room),
        RStmt::Break | RStmt::Continue | RStmt::Goto(_, _) => Some(room),
    }
}

#[cycle(room)]
fn room_after_labels(stmts: &[RStmt], name: &[u8], room: usize) -> Option<usize>
    ensures { SomeIff result (sum_by (λ s. uses name.now (label_names (stmt_tree s))) stmts.now ≤ room) (room - sum_by (λ s. uses name.now (label_names (stmt_tree s))) stmts.now) }
{
    let mut rest = room;
    for stmt in stmts {
        rest = room_after_label(stmt, name, rest)?;
    }
    Some(rest)
}

/// What is left of `room` when one is taken away for a label of a name.
fn room_after_name(label: &Text, name: &[u8], room: usize) -> Option<usize>
    ensures { SomeIff result (uses name.now (label.now ∷ []) ≤ room) (room - uses name.now (label.now ∷ [])) }
{
    if label.bytes() == name {
        room.checked_sub(1)
    } else {
        Some(room)
    }
}

/// Whether no two labelled statements of a function have one name. This takes a comparison of names for each two.
pub(crate) fn labels_differ(function: &Function) -> bool
    ensures { IsTrue result ↔ AllPairs (λ a b. a ≢ b) (labels_of (function_tree function.now)) }
{
    are_once(function, &function.body)
}

/// Whether each label in a statement of a function stands once among the function's.
#[cycle(once)]
#[tactic(auto, using(crate::proofs::ValidLabels::all_append))]
fn are_once_in(function: &Function, stmt: &RStmt) -> bool
    ensures { result ≡ list_all (is_once (labels_of (function_tree function.now))) (label_names (stmt_tree stmt.now)) }
{
    match stmt {
        RStmt::Block(stmts) => are_once(function, stmts),
        RStmt::Switch(_, stmts) => are_once(function, stmts),
        RStmt::If(_, then, other) => {
            are_once_in(function, then)
                && match other {
                    None => true,
                    Some(stmt) => are_once_in(function, stmt),
                }
        }
        RStmt::While(_, body) | RStmt::Do(body, _) | RStmt::For(_, _, _, body) => {
            are_once_in(function, body)
        }
        RStmt::Mark(label, stmt) => is_once(function, label) && are_once_in(function, stmt),
        RStmt::Parts(_) | RStmt::Case(_) | RStmt::Default => true,
        RStmt::Break | RStmt::Continue | RStmt::Goto(_, _) => true,
    }
}

#[cycle(once)]
fn are_once(function: &Function, stmts: &[RStmt]) -> bool
    ensures { result ≡ list_all (λ s. list_all (is_once (labels_of (function_tree function.now))) (label_names (stmt_tree s))) stmts.now }
{
    for stmt in stmts {
        if !are_once_in(function, stmt) {
            return false;
        }
    }
    true
}
