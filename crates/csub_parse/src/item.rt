//! The descent of items: structs, enumerations, objects and functions (C11 6.7.2 and 6.9). `budget` is the depth that is left for what stands inside.
ghost use Rattle.std.specs.Prelude.{◌≡◌, ◌≤◌, ◌&&◌, nat_le, suc, [], ◌∷◌, length, map, Option, Some, None, Ok, Err, IfOk, IfErr};
ghost use Rattle.csub_lex.specs.declared.token.Mark.TheVariants.{CloseBrace, Equal};
ghost use Rattle.csub_tree.specs.Declarations.{declare_tree, head_tree};
ghost use Rattle.csub_tree.specs.Units.{constant_tree, item_tree};
ghost use Rattle.csub_expr.specs.Looks.{begins};
ghost use Rattle.csub_expr.specs.Answers.{Gives};
ghost use Rattle.csub_expr.specs.ListDescent.{separated};
ghost use Rattle.csub_expr.specs.declared.stop.Stop.TheVariants.{Memory};
ghost use Rattle.csub_parse.specs.UnitDescent.{constant_after, constant_at, enum_behind, enum_at, fields_after, members_at, object_behind, object_after, tagged_at, struct_at, body_at, head_after, function_at, void_at, numbered_after, numbered_at, item_from, item_at, read_item};

use csub_expr::expression::conditional;
use csub_expr::look::{begins, begins_key, expect, expect_name, head_span, skip};
use csub_expr::stop::Stop;
use csub_lex::{Key, Mark, Token};
use csub_stmt::base::{begins_name, numeric};
use csub_stmt::block::lines;
use csub_stmt::declaration::{decl_after, decl_behind, field};
use csub_stmt::parameter::params;
use csub_text::Span;
use csub_tree::{Constant, Declare, Head, Item, Name, TypeName};
use std::alloc::Global;

// A value comes, and depth is left for it.
fn has_value(tokens: &[Token], budget: u32) -> bool
    ensures { result ≡ (begins Equal tokens.now && nat_le 1 budget) }
{
    begins(tokens, Mark::Equal) && 1 <= budget
}

#[tactic(auto, unfolding(crate::specs::UnitDescent::constant_at, crate::specs::UnitDescent::constant_after))]
fn constant(alloc: Global, tokens: &[Token], budget: u32) -> Result<(Constant, &[Token]), Stop>
    requires { budget ≤ 256 }
    ensures { Gives (λ x. (constant_tree x.0, x.1.now)) result (constant_at budget tokens.now) }
{
    let (name, rest) = expect_name(tokens)?;
    if has_value(rest, budget) {
        let (e, _, rest) = conditional(alloc, skip(rest), budget)?;
        let value = Some(e);
        return Ok((Constant { name, value }, rest));
    }
    let value = None;
    Ok((Constant { name, value }, rest))
}

// Constants, at least one, and a comma more where the closing brace comes behind it.
fn constants(
    alloc: Global,
    tokens: &[Token],
    budget: u32,
) -> Result<(Vec<Constant>, &[Token]), Stop>
    requires { budget ≤ 256 }
    ensures { Gives (λ x. (map constant_tree x.0.items, x.1.now)) result (separated (constant_at budget) (begins CloseBrace) (suc (length tokens.now)) tokens.now) }
{
    let mut all = Vec::new(alloc);
    let mut rest = tokens;
    'each: loop {
        let (one, after) = constant(alloc, rest, budget)?;
        all.push(one)?;
        if !begins(after, Mark::Comma) {
            return Ok((all, after));
        }
        rest = skip(after);
        if begins(rest, Mark::CloseBrace) {
            return Ok((all, rest));
        }
    }
}

#[tactic(auto, unfolding(crate::specs::UnitDescent::enum_behind))]
fn enum_behind(
    alloc: Global,
    name: Option<Name>,
    tokens: &[Token],
    budget: u32,
) -> Result<(Item, &[Token]), Stop>
    requires { budget ≤ 256 }
    ensures { Gives (λ x. (item_tree x.0, x.1.now)) result (enum_behind budget name tokens.now) }
{
    let (_, rest) = expect(tokens, Mark::OpenBrace)?;
    let (all, rest) = constants(alloc, rest, budget)?;
    let (_, rest) = expect(rest, Mark::CloseBrace)?;
    let (_, rest) = expect(rest, Mark::Semicolon)?;
    Ok((Item::Enum(name, all), rest))
}

// An enumeration whose keyword was read (C11 6.7.2.2).
#[tactic(auto, unfolding(crate::specs::UnitDescent::enum_at))]
fn enumeration(alloc: Global, tokens: &[Token], budget: u32) -> Result<(Item, &[Token]), Stop>
    requires { budget ≤ 256 }
    ensures { Gives (λ x. (item_tree x.0, x.1.now)) result (enum_at budget tokens.now) }
{
    if begins_name(tokens) {
        let (name, rest) = expect_name(tokens)?;
        return enum_behind(alloc, Some(name), rest, budget);
    }
    enum_behind(alloc, None, tokens, budget)
}

fn alone(alloc: Global, first: Declare) -> Result<Vec<Declare>, Stop>
    ensures ok { IfOk result (λ all. map declare_tree all.items ≡ declare_tree first ∷ []) }
    ensures err { IfErr result (λ e. e ≡ Memory) }
{
    let mut all = Vec::new(alloc);
    all.push(first)?;
    Ok(all)
}

// Declarations of members up to the closing brace, behind the first, which was read.
#[tactic(auto, unfolding(crate::specs::UnitDescent::fields_after))]
fn fields(
    alloc: Global,
    first: Declare,
    tokens: &[Token],
    budget: u32,
) -> Result<(Vec<Declare>, &[Token]), Stop>
    requires { budget ≤ 256 }
    ensures { Gives (λ x. (map declare_tree x.0.items, x.1.now)) result (fields_after budget (declare_tree first) tokens.now) }
{
    let mut all = alone(alloc, first)?;
    let mut rest = tokens;
    'each: while !begins(rest, Mark::CloseBrace) {
        let (one, after) = field(alloc, rest, budget)?;
        all.push(one)?;
        rest = after;
    }
    Ok((all, rest))
}

// A struct of which `struct`, its name and the opening brace were read (C11 6.7.2.1).
#[tactic(auto, unfolding(crate::specs::UnitDescent::members_at))]
fn members(
    alloc: Global,
    name: Name,
    tokens: &[Token],
    budget: u32,
) -> Result<(Item, &[Token]), Stop>
    requires { budget ≤ 256 }
    ensures { Gives (λ x. (item_tree x.0, x.1.now)) result (members_at budget name tokens.now) }
{
    let (first, rest) = field(alloc, tokens, budget)?;
    let (all, rest) = fields(alloc, first, rest, budget)?;
    let (_, rest) = expect(rest, Mark::CloseBrace)?;
    let (_, rest) = expect(rest, Mark::Semicolon)?;
    Ok((Item::Struct(name, all), rest))
}

// An object whose type, which began at `start`, was read.
#[tactic(auto, unfolding(crate::specs::UnitDescent::object_behind))]
fn object_behind(
    alloc: Global,
    base: TypeName,
    start: u32,
    tokens: &[Token],
    budget: u32,
) -> Result<(Item, &[Token]), Stop>
    requires { budget ≤ 256 }
    ensures { Gives (λ x. (item_tree x.0, x.1.now)) result (object_behind budget base start tokens.now) }
{
    let (declare, rest) = decl_behind(alloc, base, start, tokens, budget)?;
    Ok((Item::Object(declare), rest))
}

// An object whose type, which began at `start`, and first name were read.
#[tactic(auto, unfolding(crate::specs::UnitDescent::object_after))]
fn object_after(
    alloc: Global,
    base: TypeName,
    start: u32,
    name: Name,
    tokens: &[Token],
    budget: u32,
) -> Result<(Item, &[Token]), Stop>
    requires { budget ≤ 256 }
    ensures { Gives (λ x. (item_tree x.0, x.1.now)) result (object_after budget base start name tokens.now) }
{
    let (declare, rest) = decl_after(alloc, base, start, name, tokens, budget)?;
    Ok((Item::Object(declare), rest))
}

// What begins with `struct`, which began at `start` and was read: a struct or objects of one.
#[tactic(auto, unfolding(crate::specs::UnitDescent::struct_at, crate::specs::UnitDescent::tagged_at))]
fn structure(
    alloc: Global,
    start: u32,
    tokens: &[Token],
    budget: u32,
) -> Result<(Item, &[Token]), Stop>
    requires { budget ≤ 256 }
    ensures { Gives (λ x. (item_tree x.0, x.1.now)) result (struct_at budget start tokens.now) }
{
    let (name, rest) = expect_name(tokens)?;
    if begins(rest, Mark::OpenBrace) {
        return members(alloc, name, skip(rest), budget);
    }
    object_behind(alloc, TypeName::Struct(name), start, rest, budget)
}

// A function of which the head, which began at `start`, and the opening brace were read (C11 6.9.1).
#[tactic(auto, unfolding(crate::specs::UnitDescent::body_at))]
fn body(
    alloc: Global,
    head: Head,
    start: u32,
    tokens: &[Token],
    budget: u32,
) -> Result<(Item, &[Token]), Stop>
    requires { budget ≤ 256 }
    ensures { Gives (λ x. (item_tree x.0, x.1.now)) result (body_at budget (head_tree head) start tokens.now) }
{
    let (all, rest) = lines(alloc, tokens, budget)?;
    let (close, rest) = expect(rest, Mark::CloseBrace)?;
    let end = close.end;
    Ok((Item::Function(head, all, Span { start, end }), rest))
}

// A prototype or a function whose head, which began at `start`, was read.
#[tactic(auto, unfolding(crate::specs::UnitDescent::head_after))]
fn head_after(
    alloc: Global,
    head: Head,
    start: u32,
    tokens: &[Token],
    budget: u32,
) -> Result<(Item, &[Token]), Stop>
    requires { budget ≤ 256 }
    ensures { Gives (λ x. (item_tree x.0, x.1.now)) result (head_after budget (head_tree head) start tokens.now) }
{
    if begins(tokens, Mark::Semicolon) {
        return Ok((Item::Prototype(head), skip(tokens)));
    }
    let (_, rest) = expect(tokens, Mark::OpenBrace)?;
    body(alloc, head, start, rest, budget)
}

// A prototype or a function of which the result, which began at `start`, the name and `(` were read.
#[tactic(auto, unfolding(crate::specs::UnitDescent::function_at))]
fn function(
    alloc: Global,
    base: TypeName,
    start: u32,
    name: Name,
    tokens: &[Token],
    budget: u32,
) -> Result<(Item, &[Token]), Stop>
    requires { budget ≤ 256 }
    ensures { Gives (λ x. (item_tree x.0, x.1.now)) result (function_at budget base start name tokens.now) }
{
    let (params, rest) = params(alloc, tokens, budget)?;
    let (_, rest) = expect(rest, Mark::CloseParen)?;
    let head = Head {
        result: base,
        name,
        params,
    };
    head_after(alloc, head, start, rest, budget)
}

// What begins with `void`, which began at `start` and was read.
#[tactic(auto, unfolding(crate::specs::UnitDescent::void_at))]
fn void(alloc: Global, start: u32, tokens: &[Token], budget: u32) -> Result<(Item, &[Token]), Stop>
    requires { budget ≤ 256 }
    ensures { Gives (λ x. (item_tree x.0, x.1.now)) result (void_at budget start tokens.now) }
{
    let (name, rest) = expect_name(tokens)?;
    let (_, rest) = expect(rest, Mark::OpenParen)?;
    function(alloc, TypeName::Void, start, name, rest, budget)
}

// A function or objects of which a number type, which began at `start`, and the first name were read.
#[tactic(auto, unfolding(crate::specs::UnitDescent::numbered_after))]
fn numbered_after(
    alloc: Global,
    base: TypeName,
    start: u32,
    name: Name,
    tokens: &[Token],
    budget: u32,
) -> Result<(Item, &[Token]), Stop>
    requires { budget ≤ 256 }
    ensures { Gives (λ x. (item_tree x.0, x.1.now)) result (numbered_after budget base start name tokens.now) }
{
    if begins(tokens, Mark::OpenParen) {
        return function(alloc, base, start, name, skip(tokens), budget);
    }
    object_after(alloc, base, start, name, tokens, budget)
}

// What begins with a number type, which begins at `start`.
#[tactic(auto, unfolding(crate::specs::UnitDescent::numbered_at))]
fn numbered(
    alloc: Global,
    start: u32,
    tokens: &[Token],
    budget: u32,
) -> Result<(Item, &[Token]), Stop>
    requires { budget ≤ 256 }
    ensures { Gives (λ x. (item_tree x.0, x.1.now)) result (numbered_at budget start tokens.now) }
{
    let (base, _, rest) = numeric(tokens)?;
    let (name, rest) = expect_name(rest)?;
    numbered_after(alloc, base, start, name, rest, budget)
}

// An item that begins at `start`.
#[tactic(auto, unfolding(crate::specs::UnitDescent::item_from))]
fn item_from(
    alloc: Global,
    start: u32,
    tokens: &[Token],
    budget: u32,
) -> Result<(Item, &[Token]), Stop>
    requires { budget ≤ 256 }
    ensures { Gives (λ x. (item_tree x.0, x.1.now)) result (item_from budget start tokens.now) }
{
    if begins_key(tokens, Key::Struct) {
        return structure(alloc, start, skip(tokens), budget);
    }
    if begins_key(tokens, Key::Enum) {
        return enumeration(alloc, skip(tokens), budget);
    }
    if begins_key(tokens, Key::Void) {
        return void(alloc, start, skip(tokens), budget);
    }
    numbered(alloc, start, tokens, budget)
}

/// An item of at most the depth `budget` (C11 6.9), and the tokens behind it.
#[tactic(auto, unfolding(crate::specs::UnitDescent::read_item, crate::specs::UnitDescent::item_at))]
pub fn next_item(alloc: Global, tokens: &[Token], budget: u32) -> Result<(Item, &[Token]), Stop>
    requires { budget ≤ 256 }
    ensures { Gives (λ x. (item_tree x.0, x.1.now)) result (read_item budget tokens.now) }
{
    if budget == 0 {
        return Err(Stop::At(tokens.len()));
    }
    item_from(alloc, head_span(tokens).start, tokens, budget - 1)
}
