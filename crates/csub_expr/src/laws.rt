//! The laws of the descent: each is the contract of a function without parameters whose body does nothing. What is read is spelled so
//! and is no deeper than allowed, what is spelled so is read, and an answer depends on the tokens taken and the one after them.
ghost use Rattle.csub_tree.specs.Depth.{expr_depth, init_depth};
ghost use Rattle.csub_tree.specs.SpellsExpressions.{SpellsExpr, assignment, conditional};
ghost use Rattle.csub_tree.specs.SpellsDeclarations.{SpellsInit};
ghost use Rattle.csub_expr.specs.Laws.{Ends, IsSound, IsComplete, IsLocal};
ghost use Rattle.csub_expr.specs.ExprDescent.{read};
ghost use Rattle.csub_expr.specs.InitDescent.{read_init};

/// Assignments (C11 6.5.16), as [`crate::expression::assign`] reads them.
pub fn assignments()
    ensures sound { IsSound (SpellsExpr assignment) expr_depth (λ d. read d assignment) }
    ensures complete { IsComplete (SpellsExpr assignment) expr_depth (Ends assignment) (λ d. read d assignment) }
    ensures local { IsLocal (λ d. read d assignment) }
{}

/// Conditional expressions (C11 6.5.15), as [`crate::expression::conditional`] reads them.
pub fn conditionals()
    ensures sound { IsSound (SpellsExpr conditional) expr_depth (λ d. read d conditional) }
    ensures complete { IsComplete (SpellsExpr conditional) expr_depth (Ends conditional) (λ d. read d conditional) }
    ensures local { IsLocal (λ d. read d conditional) }
{}

/// Initialisers (C11 6.7.9), as [`crate::initialiser::init`] reads them.
pub fn initialisers()
    ensures sound { IsSound SpellsInit init_depth read_init }
    ensures complete { IsComplete SpellsInit init_depth (Ends assignment) read_init }
    ensures local { IsLocal read_init }
{}
