//! Sources with the depth of their unit and what it holds, or with the place of the token that is refused. The tests of one layer alone
//! stand in `tokens`, `trees` and `depths`.
mod depths;
mod expressions;
mod items;
mod nesting;
mod programs;
mod statements;
mod tokens;
mod trees;

ghost use Rattle.std.specs.Prelude.{◌≤◌};
ghost use Rattle.csub_tree.specs.Units.{unit_tree};
ghost use Rattle.csub_tree.specs.Depth.{unit_depth};

use csub_lex::lex;
use csub_parse::{ParseError, parse};
use csub_tree::{Item, Stmt, StmtKind, Unit, depth};
use std::alloc::{AllocError, Global};
use std::process::Abort;
use std::test::Fail;

fn line_word(line: &Stmt) -> &'static str {
    match line.kind {
        StmtKind::Declare(_) => " declare",
        StmtKind::Eval(_) => " eval",
        StmtKind::Empty => " empty",
        StmtKind::Block(_) => " block",
        StmtKind::If(_, _, _) => " if",
        StmtKind::While(_, _) => " while",
        StmtKind::Do(_, _) => " do",
        StmtKind::For(_, _, _, _) => " for",
        StmtKind::Switch(_, _) => " switch",
        StmtKind::Case(_) => " case",
        StmtKind::Default => " default",
        StmtKind::Break => " break",
        StmtKind::Continue => " continue",
        StmtKind::Goto(_) => " goto",
        StmtKind::Label(_, _) => " label",
        StmtKind::Return(_) => " return",
    }
}

// Appends what an item is, and what the lines of a function are.
fn push_item(text: &mut String, item: &Item) -> Result<(), AllocError> {
    match item {
        Item::Struct(_, _) => text.push_str(" struct"),
        Item::Enum(_, _) => text.push_str(" enum"),
        Item::Object(_) => text.push_str(" object"),
        Item::Prototype(_) => text.push_str(" prototype"),
        Item::Function(_, lines, _) => {
            text.push_str(" function")?;
            for line in lines {
                text.push_str(line_word(line))?;
            }
            Ok(())
        }
    }
}

fn shown_unit(alloc: Global, unit: &Unit) -> Result<String, AllocError>
    requires { unit_depth (unit_tree unit.now) ≤ 256 }
{
    let mut text = format!(in alloc; "{}", depth(unit))?;
    for item in &unit.items {
        push_item(&mut text, item)?;
    }
    Ok(text)
}

// The depth and the items of a source, or the place of the refusal.
fn shown(alloc: Global, source: &str) -> Result<String, AllocError> {
    if source.len() > 1_048_576 {
        return String::from_str(alloc, "too long");
    }
    let tokens = match lex(alloc, source.as_bytes()) {
        Ok(tokens) => tokens,
        Err(fault) => return format!(in alloc; "{fault:?}"),
    };
    match parse(alloc, &tokens) {
        Ok(unit) => shown_unit(alloc, &unit),
        Err(ParseError::Syntax(at)) => format!(in alloc; "syntax {at}"),
        Err(ParseError::Memory) => Err(AllocError),
    }
}

// A text between `front` and `back` is shown so.
fn row_agrees(
    rt: &impl Abort,
    alloc: Global,
    (front, back): (&str, &str),
    (middle, expected): (&str, &str),
) -> Result<(), Fail> {
    let source = format!(in alloc; "{front}{middle}{back}")?;
    let found = shown(alloc, source.as_str())?;
    assert!(rt; found.as_str() == expected, "{source} gave {found}");
    Ok(())
}

// Each row's text, between `front` and `back`, is shown as the row says.
fn agrees(
    rt: &impl Abort,
    alloc: Global,
    front: &str,
    back: &str,
    rows: &[(&str, &str)],
) -> Result<(), Fail> {
    for row in rows {
        row_agrees(rt, alloc, (front, back), *row)?;
    }
    Ok(())
}

// Whether a line of a table is a row: it is none where it is empty or begins as a comment does.
fn is_row(line: &str) -> bool {
    !line.is_empty() && !line.starts_with("//")
}

// The same of the rows of a table, which has one in a line: a text, an arrow, and what is shown.
fn rows_agree(
    rt: &impl Abort,
    alloc: Global,
    front: &str,
    back: &str,
    table: &str,
) -> Result<(), Fail> {
    for line in table.lines() {
        if is_row(line) {
            let row = line.split_once(" => ").ok_or("no row")?;
            row_agrees(rt, alloc, (front, back), row)?;
        }
    }
    Ok(())
}

// What stands before the texts of a table and behind them, and the table.
const TABLES: &[(&str, &str, &str)] = &[
    ("int x = ", ";", expressions::ROWS),
    ("int f(void) { ", " }", statements::ROWS),
    ("", "", items::ROWS),
    ("", "", programs::ROWS),
];

#[test]
fn sources_are_read_or_refused_as_the_rows_say(rt: HostRuntime) -> Result<(), Fail> {
    for (front, back, rows) in TABLES {
        rows_agree(&rt, rt.alloc(), front, back, rows)?;
    }
    Ok(())
}

#[test]
fn no_tokens_are_a_unit_without_items(rt: HostRuntime) -> Result<(), Fail> {
    agrees(&rt, rt.alloc(), "", "", &[("", "1"), (" /* int */ ", "1")])
}

#[test]
fn the_least_place_where_no_unit_goes_on(rt: HostRuntime) -> Result<(), Fail> {
    agrees(
        &rt,
        rt.alloc(),
        "",
        "",
        &[
            ("int main(void) { return 0 }", "syntax 8"),
            ("int main(void) { return", "syntax 7"),
        ],
    )
}
