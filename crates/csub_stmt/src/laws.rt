//! The laws of the descent: each is the contract of a function without parameters whose body does nothing. What is read is spelled so
//! and is no deeper than allowed, what is spelled so is read, and an answer depends on the tokens taken and the one after them.
ghost use Rattle.std.specs.Prelude.{◌≡◌, true, map};
ghost use Rattle.csub_lex.specs.declared.token.Mark.TheVariants.{CloseBrace, CloseParen};
ghost use Rattle.csub_tree.specs.Depth.{most, declare_depth, param_depth, stmts_depth};
ghost use Rattle.csub_tree.specs.SpellsDeclarations.{SpellsDecl, SpellsField, SpellsParams};
ghost use Rattle.csub_tree.specs.SpellsStatements.{SpellsLines};
ghost use Rattle.csub_tree.specs.Statements.{stmts_of};
ghost use Rattle.csub_expr.specs.Laws.{IsSound, IsComplete, IsLocal};
ghost use Rattle.csub_expr.specs.Looks.{begins};
ghost use Rattle.csub_stmt.specs.DeclarationDescent.{decl_at, field_at, params_at};
ghost use Rattle.csub_stmt.specs.StatementDescent.{read_lines};

/// Declarations (C11 6.7), as [`crate::declaration::decl`] reads them, whatever follows.
pub fn declarations()
    ensures sound { IsSound SpellsDecl declare_depth decl_at }
    ensures complete { IsComplete SpellsDecl declare_depth (λ r. Unit {0}) decl_at }
    ensures local { IsLocal decl_at }
{}

/// Declarations of members of structs (C11 6.7.2.1), as [`crate::declaration::field`] reads them, whatever follows.
pub fn members()
    ensures sound { IsSound SpellsField declare_depth field_at }
    ensures complete { IsComplete SpellsField declare_depth (λ r. Unit {0}) field_at }
    ensures local { IsLocal field_at }
{}

/// Parameters of functions (C11 6.7.6.3), as [`crate::parameter::params`] reads them, before a closing parenthesis.
pub fn parameters()
    ensures sound { IsSound SpellsParams (λ ps. most (map param_depth ps)) params_at }
    ensures complete { IsComplete SpellsParams (λ ps. most (map param_depth ps)) (λ r. begins CloseParen r ≡ true) params_at }
    ensures local { IsLocal params_at }
{}

/// The lines of a block (C11 6.8.2), as [`crate::block::lines`] reads them, before a closing brace.
pub fn lines()
    ensures sound { IsSound (λ xs. SpellsLines (stmts_of xs)) (λ xs. stmts_depth (stmts_of xs)) read_lines }
    ensures complete { IsComplete (λ xs. SpellsLines (stmts_of xs)) (λ xs. stmts_depth (stmts_of xs)) (λ r. begins CloseBrace r ≡ true) read_lines }
    ensures local { IsLocal read_lines }
{}
