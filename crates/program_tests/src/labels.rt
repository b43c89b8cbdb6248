//! Which labels have one number, also as copies, and how a caller asks that counts nothing.
ghost use Rattle.std.specs.Prelude.{◌≡◌, ◌<◌, length};

use csub_core::{GlobalVar, Label, copy_call, copy_global, copy_label};
use edge_label::{LabelBook, Steps};
use program_words::{read_labels, read_program};
use std::alloc::{AllocError, Global};
use std::marker::Brand;
use std::sync::ledger::{Blank, Ledger};
use std::test::Fail;

/// 31 labels, each other than the ones before it: those without values, those with a value or another kind, operations,
/// calls of a function with one parameter and one argument, and the other labels that have values.
const DIFFERENT: &str =
    "entry end:nothing end:value end:main end:start eval getchar test getchar return return:char getchar return:int getchar eval putchar getchar \
    eval add:int 7 1 eval sub:int 7 1 eval add:int 7 const:unsigned:1 eval add:int 7 const:char:1 eval add:int 7 0 eval add:int 7 -1 eval add:int 7 -2 \
    call:f:int:1 member:x int value 5 call:g:int:1 member:x int value 5 call:f:int:1 member:y int value 5 call:f:int:1 member:x char value 5 \
    call:f:char:1 member:x int value 5 call:f:void:0 member:x int value 5 call:f:int:1 member:x int value 6 call:f:int:2 member:x int value 5 \
    jump exit 7 switch_value getchar init local:x:1 int one 5 init local:x:1 array:2 int list:2 one 5 one read element global:a array:2 int 1";

/// The numbers that a book gives to labels.
fn numbers_of(
    alloc: Global,
    book: &mut LabelBook,
    labels: &[Label],
) -> Result<Vec<u32>, AllocError> {
    let mut numbers = Vec::new(alloc);
    for label in labels {
        numbers.push(book.intern(label, &[])?)?;
    }
    Ok(numbers)
}

/// A copy of a label; that of a call is a copy of its parts.
fn copied(alloc: Global, label: &Label) -> Result<Label, AllocError> {
    match label {
        Label::Call(call) => Ok(Label::Call(copy_call(alloc, call)?)),
        _ => copy_label(alloc, label),
    }
}

/// Copies of labels.
fn copies_of(alloc: Global, labels: &[Label]) -> Result<Vec<Label>, AllocError> {
    let mut copies = Vec::new(alloc);
    for label in labels {
        copies.push(copied(alloc, label)?)?;
    }
    Ok(copies)
}

/// The numbers that a book gives to a new build of these labels.
fn numbers(alloc: Global, book: &mut LabelBook) -> Result<Vec<u32>, Fail> {
    let labels = read_labels(alloc, DIFFERENT)?;
    Ok(numbers_of(alloc, book, &labels)?)
}

/// The numbers that a book gives to copies of these labels.
fn numbers_of_copies(alloc: Global, book: &mut LabelBook) -> Result<Vec<u32>, Fail> {
    let labels = read_labels(alloc, DIFFERENT)?;
    let copies = copies_of(alloc, &labels)?;
    Ok(numbers_of(alloc, book, &copies)?)
}

/// The numbers of two builds of these labels, and those of copies.
fn thrice(alloc: Global, book: &mut LabelBook) -> Result<[Vec<u32>; 3], Fail> {
    let old = numbers(alloc, book)?;
    let new = numbers(alloc, book)?;
    let copies = numbers_of_copies(alloc, book)?;
    Ok([old, new, copies])
}

/// The same in a new book. It is dropped here alone, since each way to drop one takes long to prove.
fn thrice_anew(alloc: Global) -> Result<[Vec<u32>; 3], Fail> {
    let mut book = LabelBook::new(alloc);
    thrice(alloc, &mut book)
}

// Labels that differ in one part have different numbers, given from 0 on; equal ones of a second build have the same, and so
// have copies.
#[test]
fn a_label_has_the_number_of_its_equal_and_of_no_other(rt: HostRuntime) -> Result<(), Fail> {
    let [old, new, copies] = thrice_anew(rt.alloc())?;
    assert_eq!(rt; old.len(), 31);
    for (place, number) in old.iter().enumerate() {
        assert!(rt; *number as usize == place, "label {place}");
    }
    assert!(rt; new.as_slice() == old.as_slice());
    assert!(rt; copies.as_slice() == old.as_slice());
    Ok(())
}

/// Copies of objects of file scope.
fn copied_globals(alloc: Global, globals: &[GlobalVar]) -> Result<Vec<GlobalVar>, AllocError> {
    let mut copies = Vec::new(alloc);
    for global in globals {
        copies.push(copy_global(alloc, global)?)?;
    }
    Ok(copies)
}

/// The numbers of `putchar(k)` beside `int j` and `int k` with these contents, and beside copies of both.
fn number_beside(
    alloc: Global,
    book: &mut LabelBook,
    label: &Label,
    other: i64,
    initial: i64,
) -> Result<[u32; 2], Fail> {
    let text = format!(in alloc; "start main {{ }} static:j:{other} int static:k:{initial} int")?;
    let program = read_program(alloc, text.as_str())?.ok_or("refused")?;
    let number = book.intern(label, program.globals())?;
    let copies = copied_globals(alloc, program.globals())?;
    Ok([number, book.intern(label, &copies)?])
}

/// The numbers of `putchar(k)` beside `int j` and `int k` with the contents of each row, each with that beside copies.
fn numbers_beside(
    alloc: Global,
    book: &mut LabelBook,
    rows: &[(i64, i64)],
) -> Result<Vec<u32>, Fail> {
    let labels = read_labels(alloc, "eval putchar read global:k int")?;
    let label = labels.first().ok_or("no label")?;
    let mut numbers = Vec::new(alloc);
    for &(other, initial) in rows {
        numbers.extend_from_slice(&number_beside(alloc, book, label, other, initial)?)?;
    }
    Ok(numbers)
}

/// The same in a new book.
fn numbers_anew(alloc: Global, rows: &[(i64, i64)]) -> Result<Vec<u32>, Fail> {
    let mut book = LabelBook::new(alloc);
    numbers_beside(alloc, &mut book, rows)
}

// A label holds the initial contents of the objects that it names, and of no others.
#[test]
fn a_label_has_the_contents_of_what_it_names(rt: HostRuntime) -> Result<(), Fail> {
    let numbers = numbers_anew(rt.alloc(), &[(1, 1), (1, 2), (2, 1), (2, 2)])?;
    assert_eq!(rt; numbers.as_slice(), [0, 0, 1, 1, 0, 0, 1, 1].as_slice());
    Ok(())
}

/// What is said of a label and its equal, and of it and another one.
fn ask<L: Ledger>(
    book: &LabelBook,
    label: u32,
    equal: u32,
    other: u32,
    blank: Blank,
) -> (bool, bool)
    requires name { blank.name ≡ L.name }
    requires parts { blank.parts ≡ L.parts }
    requires some { 0 < blank.parts }
    requires label_given { label < length book.now }
    requires equal_given { equal < length book.now }
    requires other_given { other < length book.now }
{
    let mut steps: Steps<L> = Steps::new(blank);
    let first = book.same(label, equal, &mut steps);
    let second = book.same(label, other, &mut steps);
    (first, second)
}

/// What is said of two equal labels, and of one of them and another one.
fn asked(book: &mut LabelBook, label: &Label, other: &Label) -> Result<(bool, bool), Fail> {
    let first = book.intern(label, &[])?;
    let second = book.intern(other, &[])?;
    let again = book.intern(label, &[])?;
    Ok(ask::<Brand>(book, first, again, second, Blank::new(1)))
}

/// The same of the entries of functions, and of an entry and a `return`, in a new book.
fn asked_anew(alloc: Global) -> Result<(bool, bool), Fail> {
    let labels = read_labels(alloc, "entry return")?;
    let [entry, other] = labels.as_slice() else {
        return Err("not two labels")?;
    };
    let mut book = LabelBook::new(alloc);
    asked(&mut book, entry, other)
}

// A caller that counts nothing names the ledger itself.
#[test]
fn the_same_is_said_of_equal_labels_alone(rt: HostRuntime) -> Result<(), Fail> {
    assert!(rt; asked_anew(rt.alloc())? == (true, false));
    Ok(())
}
