//! What is seen of the first token.
ghost use Rattle.std.specs.Prelude.{◌≡◌, ◌-◌};
ghost use Rattle.std.specs.Option.{option_map};
ghost use Rattle.csub_expr.specs.Looks.{same_mark, same_key, begins, begins_key, begins_number, rest, head_span, op_at, assignment_at, prefix_at, tail_at, operator_view, prefix_view};
ghost use Rattle.csub_expr.specs.Answers.{Gives, expect, expect_name};

use crate::operator::{Joint, Sign, Tail};
use crate::stop::Stop;
use csub_lex::{Key, Mark, Token, TokenKind};
use csub_text::{BinOp, Span, StepOp, UnaryOp};
use csub_tree::Name;

/// The tokens behind the first; none where there is none.
#[tactic(auto, unfolding(crate::specs::Looks::rest))]
pub fn skip(tokens: &[Token]) -> &[Token]
    ensures { result.now ≡ rest tokens.now }
{
    match tokens {
        [] => tokens,
        [_, rest @ ..] => rest,
    }
}

/// The place of the first token; an empty one at byte 0 where there is none.
#[tactic(auto, unfolding(crate::specs::Looks::head_span))]
pub fn head_span(tokens: &[Token]) -> Span
    ensures { result ≡ head_span tokens.now }
{
    match tokens {
        [] => Span { start: 0, end: 0 },
        [token, ..] => token.span,
    }
}

fn same_mark(a: Mark, b: Mark) -> bool
    ensures { result ≡ same_mark a b }
{
    a == b
}

fn same_key(a: Key, b: Key) -> bool
    ensures { result ≡ same_key a b }
{
    a == b
}

/// Whether the first token is the mark.
#[tactic(auto, unfolding(crate::specs::Looks::begins))]
pub fn begins(tokens: &[Token], mark: Mark) -> bool
    ensures { result ≡ begins mark tokens.now }
{
    match tokens {
        [] => false,
        [token, ..] => match token.kind {
            TokenKind::Mark(first) => same_mark(first, mark),
            _ => false,
        },
    }
}

/// Whether the first token is the keyword.
#[tactic(auto, unfolding(crate::specs::Looks::begins_key))]
pub fn begins_key(tokens: &[Token], key: Key) -> bool
    ensures { result ≡ begins_key key tokens.now }
{
    match tokens {
        [] => false,
        [token, ..] => match token.kind {
            TokenKind::Key(first) => same_key(first, key),
            _ => false,
        },
    }
}

/// Whether a number type begins: `char`, `int` or `unsigned` (C11 6.7.2).
#[tactic(auto, unfolding(crate::specs::Looks::begins_number))]
pub fn begins_number(tokens: &[Token]) -> bool
    ensures { result ≡ begins_number tokens.now }
{
    match tokens {
        [] => false,
        [token, ..] => match token.kind {
            TokenKind::Key(Key::Char) => true,
            TokenKind::Key(Key::Int) => true,
            TokenKind::Key(Key::Unsigned) => true,
            _ => false,
        },
    }
}

/// The mark that has to come, with its place. It is refused where another token or none comes.
#[tactic(auto, unfolding(crate::specs::Answers::expect))]
pub fn expect(tokens: &[Token], mark: Mark) -> Result<(Span, &[Token]), Stop>
    ensures { Gives (λ x. (x.0, x.1.now)) result (expect mark tokens.now) }
{
    if begins(tokens, mark) {
        Ok((head_span(tokens), skip(tokens)))
    } else {
        Err(Stop::At(tokens.len()))
    }
}

/// The name that has to come. It is refused where another token or none comes.
#[tactic(auto, unfolding(crate::specs::Answers::expect_name, crate::specs::Looks::rest, crate::specs::Looks::head_span))]
pub fn expect_name(tokens: &[Token]) -> Result<(Name, &[Token]), Stop>
    ensures { Gives (λ x. (x.0, x.1.now)) result (expect_name tokens.now) }
{
    let [token, rest @ ..] = tokens else {
        return Err(Stop::At(tokens.len()))
    };
    match &token.kind {
        TokenKind::Name(text) => {
            let text = text.copy()?;
            let span = token.span;
            Ok((Name { text, span }, rest))
        }
        _ => Err(Stop::At(tokens.len())),
    }
}

/// The operator of a level that the first token is; the levels are from 0, the tightest, to 9 (C11 6.5.5 to 6.5.14).
#[tactic(auto, unfolding(crate::specs::Looks::op_at))]
pub fn op_at(tokens: &[Token], level: u32) -> Option<Joint>
    ensures { option_map operator_view result ≡ op_at level tokens.now }
{
    let [token, ..] = tokens else { return None };
    let TokenKind::Mark(mark) = token.kind else {
        return None
    };
    let (joint, at) = match mark {
        Mark::Star => (Joint::Binary(BinOp::Mul), 0),
        Mark::Slash => (Joint::Binary(BinOp::Div), 0),
        Mark::Percent => (Joint::Binary(BinOp::Rem), 0),
        Mark::Plus => (Joint::Binary(BinOp::Add), 1),
        Mark::Minus => (Joint::Binary(BinOp::Sub), 1),
        Mark::ShiftLeft => (Joint::Binary(BinOp::Shl), 2),
        Mark::ShiftRight => (Joint::Binary(BinOp::Shr), 2),
        Mark::Less => (Joint::Binary(BinOp::Lt), 3),
        Mark::Greater => (Joint::Binary(BinOp::Gt), 3),
        Mark::LessEqual => (Joint::Binary(BinOp::Le), 3),
        Mark::GreaterEqual => (Joint::Binary(BinOp::Ge), 3),
        Mark::EqualEqual => (Joint::Binary(BinOp::Eq), 4),
        Mark::BangEqual => (Joint::Binary(BinOp::Ne), 4),
        Mark::Ampersand => (Joint::Binary(BinOp::BitAnd), 5),
        Mark::Caret => (Joint::Binary(BinOp::BitXor), 6),
        Mark::Bar => (Joint::Binary(BinOp::BitOr), 7),
        Mark::AndAnd => (Joint::And, 8),
        Mark::BarBar => (Joint::Or, 9),
        _ => return None,
    };
    if at == level { Some(joint) } else { None }
}

/// The assignment operator that the first token is, and what it computes before it writes (C11 6.5.16).
#[tactic(auto, unfolding(crate::specs::Looks::assignment_at))]
pub fn assignment_at(tokens: &[Token]) -> Option<Option<BinOp>>
    ensures { result ≡ assignment_at tokens.now }
{
    let [token, ..] = tokens else { return None };
    let TokenKind::Mark(mark) = token.kind else {
        return None
    };
    match mark {
        Mark::Equal => Some(None),
        Mark::PlusEqual => Some(Some(BinOp::Add)),
        Mark::MinusEqual => Some(Some(BinOp::Sub)),
        Mark::StarEqual => Some(Some(BinOp::Mul)),
        Mark::SlashEqual => Some(Some(BinOp::Div)),
        Mark::PercentEqual => Some(Some(BinOp::Rem)),
        Mark::AmpersandEqual => Some(Some(BinOp::BitAnd)),
        Mark::BarEqual => Some(Some(BinOp::BitOr)),
        Mark::CaretEqual => Some(Some(BinOp::BitXor)),
        Mark::ShiftLeftEqual => Some(Some(BinOp::Shl)),
        Mark::ShiftRightEqual => Some(Some(BinOp::Shr)),
        _ => None,
    }
}

/// The operator before an operand that the first token is (C11 6.5.3).
#[tactic(auto, unfolding(crate::specs::Looks::prefix_at))]
pub fn prefix_at(tokens: &[Token]) -> Option<Sign>
    ensures { option_map prefix_view result ≡ prefix_at tokens.now }
{
    let [token, ..] = tokens else { return None };
    let TokenKind::Mark(mark) = token.kind else {
        return None
    };
    match mark {
        Mark::Plus => Some(Sign::Unary(UnaryOp::Plus)),
        Mark::Minus => Some(Sign::Unary(UnaryOp::Minus)),
        Mark::Bang => Some(Sign::Unary(UnaryOp::Not)),
        Mark::Tilde => Some(Sign::Unary(UnaryOp::Flip)),
        Mark::PlusPlus => Some(Sign::Step(StepOp::PreUp)),
        Mark::MinusMinus => Some(Sign::Step(StepOp::PreDown)),
        _ => None,
    }
}

/// What the first token makes of a postfix expression before it (C11 6.5.2).
#[tactic(auto, unfolding(crate::specs::Looks::tail_at))]
pub fn tail_at(tokens: &[Token]) -> Option<Tail>
    ensures { result ≡ tail_at tokens.now }
{
    let [token, ..] = tokens else { return None };
    let TokenKind::Mark(mark) = token.kind else {
        return None
    };
    match mark {
        Mark::OpenBracket => Some(Tail::Index),
        Mark::Dot => Some(Tail::Member),
        Mark::PlusPlus => Some(Tail::Step(StepOp::PostUp)),
        Mark::MinusMinus => Some(Tail::Step(StepOp::PostDown)),
        _ => None,
    }
}
