//! Labels with their numbers.
ghost use Rattle.std.specs.Prelude.{◌≡◌, ◌↔◌, ◌+◌, ◌<◌, ◌≤◌, List, [], IsTrue, IfOk, OnOk, OnErr, length, map, ℕ};
ghost use Rattle.csub_semantics.specs.Types.{GlobalTree, global_tree};
ghost use Rattle.csub_semantics.specs.Labels.{label_tree, PointLabel};
ghost use Rattle.edge_label.specs.Numbers.{HasNumber, HaveNumbers, KeepsNumbers, AddsOnly, whole};
ghost use Rattle.edge_label.specs.Indices.{IsIndex};
ghost use Rattle.edge_label.specs.Known.{AreTyped};
ghost use Rattle.edge_label.specs.Tables.{AreTypeNumbers, types_of, label_in, IsCode, IsBook, IsInterned, Grows};
ghost use Rattle.edge_label.specs.declared.table.Tables.{Tables};
ghost use Rattle.edge_label.specs.Uses.{AreDeclared, standing_tree};

use crate::globals::{GlobalNumbers, number_globals, push_numbers};
use crate::standing::Standing;
use crate::steps::Steps;
use crate::table::{CodeTable, Tables};
use crate::types::{Typed, number_all_types, number_types};
use csub_semantics::{GlobalVar, Label};
use indexmap::IndexSet;
use label_code::{global_names, push_label};
use std::alloc::{AllocError, Global};
use std::marker::Model;
use std::sync::ledger::Ledger;

/// Labels with their numbers, which are given from 0 on. Contracts see the list of the labels.
pub struct LabelBook {
    alloc: Global,
    tables: Tables,
    codes: IndexSet<Vec<u64>>,
}

impl Drop for LabelBook {
    fn drop(self) {
        let LabelBook {
            alloc: _,
            tables: _,
            codes: _,
        } = self;
    }
}

impl Model for LabelBook {
    ghost use Rattle.std.specs.Prelude.{List, map};
    ghost use Rattle.csub_semantics.specs.Labels.{PointLabel};
    ghost use Rattle.edge_label.specs.Stored.{stored_labels};
    ghost use Rattle.edge_label.specs.Tables.{label_in, IsBook};

    ghost Value = { List PointLabel };

    ghost coded = { stored_labels };

    ghost view = { λ book. map (label_in book.tables) (map (λ code. code.items) book.codes.keys) };

    ghost invariant = { λ book. IsBook book.tables (map (λ code. code.items) book.codes.keys) };
}

impl LabelBook {
    /// A book that has given no number.
    pub fn new(alloc: Global) -> LabelBook
        ensures { result ≡ [] }
    {
        LabelBook {
            alloc,
            tables: Tables {
                structs: CodeTable::new(alloc),
                parts: CodeTable::new(alloc),
            },
            codes: IndexSet::new(alloc),
        }
    }

    /// The number of a whole label, which is the label's tree and those of the globals that it names: the one that it
    /// has, or the next one. An `Err` is want of memory or of numbers, of which there are 2^32 - 1; the labels are then
    /// as before.
    ///
    /// It goes over the types and the contents of all globals, and over the members of each struct wherever it stands.
    /// Whoever numbers more than one label calls [`LabelBook::intern_all`].
    pub fn intern(&mut self, label: &Label, globals: &[GlobalVar]) -> Result<u32, AllocError>
        ensures number { IfOk result (λ n. HasNumber self.new n (whole (map global_tree globals.now) (label_tree label.now))) }
        ensures only { IfOk result (λ n. (m : ℕ) → HasNumber self.new m (whole (map global_tree globals.now) (label_tree label.now)) → m ≡ n) }
        ensures given { IfOk result (λ n. n < length self.new) }
        ensures keeps { OnOk result (KeepsNumbers self.old self.new) }
        ensures adds { OnOk result (AddsOnly self.old self.new (whole (map global_tree globals.now) (label_tree label.now))) }
        ensures grows { length self.old ≤ length self.new }
        ensures err { OnErr result (self.new ≡ self.old) }
    {
        let types = number_types(self.alloc, &mut self.tables, label)?;
        let numbers = number_globals(self.alloc, &mut self.tables, false, globals)?;
        intern_code(self.alloc, &mut self.codes, label, &types, &numbers)
    }

    /// The numbers of the whole labels of a program, in the order of the labels, as [`LabelBook::intern`] gives them.
    /// The members of a struct are gone over once for each tag in the labels, and once for each in the globals; the
    /// type and the contents of a global once, the parameters of a callee once, and the type of an object once for each
    /// name in a function, where each struct takes a look-up of its tag. Beside that it takes a look-up for each object
    /// and each callee that a label names. At an `Err` some of the labels may have got a number.
    pub fn intern_all(
        &mut self,
        labels: &[Standing<'_>],
        globals: &[GlobalVar],
    ) -> Result<Vec<u32>, AllocError>
        requires declared { AreDeclared (map standing_tree labels.now) (map global_tree globals.now) }
        ensures numbers { IfOk result (λ row. HaveNumbers self.new row.items (map (λ s. whole (map global_tree globals.now) (label_tree s.label.now)) labels.now)) }
        ensures keeps { KeepsNumbers self.old self.new }
    {
        let typed = number_all_types(self.alloc, &mut self.tables, labels)?;
        let numbers = number_globals(self.alloc, &mut self.tables, true, globals)?;
        intern_codes(self.alloc, &mut self.codes, &typed, &numbers)
    }

    /// Whether two numbers that this book gave have equal labels. It counts one step, and takes no memory.
    pub fn same<L: Ledger>(&self, a: u32, b: u32, steps: &mut Steps<L>) -> bool
        requires a_given { a < length self.now }
        requires b_given { b < length self.now }
        ensures equal { (x y : PointLabel) → HasNumber self.now a x → HasNumber self.now b y → IsTrue result ↔ (x ≡ y) }
        ensures cost { steps.new ≡ steps.old + 1 }
    {
        // Why equal labels have one number: no code stands twice in the book, as the contract of its length says.
        let _count = self.codes.len();
        steps.tick();
        a == b
    }
}

/// The code of a whole label, by the numbers of its types and of the globals. An `Err` is want of memory.
fn code_of(
    alloc: Global,
    label: &Label,
    types: &[u64],
    numbers: &GlobalNumbers<'_>,
) -> Result<Vec<u64>, AllocError>
    ensures { IfOk result (λ code. (tables : Tables) (globals : List GlobalTree) → AreTypeNumbers tables types.now (types_of (label_tree label.now)) →
        IsIndex tables globals numbers.now.by_name.entries → IsCode tables (whole globals (label_tree label.now)) code.items) }
{
    let names = global_names(alloc, label)?;
    let mut code = Vec::new(alloc);
    push_label(&mut code, label)?;
    code.extend_from_slice(types)?;
    push_numbers(&mut code, &names, numbers)?;
    Ok(code)
}

/// The number of the code of a whole label: the one that it has, or the next one. An `Err` is want of memory or of
/// numbers; the codes are then as before.
fn intern_code(
    alloc: Global,
    codes: &mut IndexSet<Vec<u64>>,
    label: &Label,
    types: &[u64],
    numbers: &GlobalNumbers<'_>,
) -> Result<u32, AllocError>
    ensures interned { IfOk result (λ n. (tables : Tables) (globals : List GlobalTree) → AreTypeNumbers tables types.now (types_of (label_tree label.now)) →
        IsIndex tables globals numbers.now.by_name.entries → IsBook tables (map (λ code. code.items) codes.old.keys) →
        IsInterned tables (map (λ code. code.items) codes.old.keys) (map (λ code. code.items) codes.new.keys) n (whole globals (label_tree label.now))) }
    ensures err { OnErr result (codes.new.keys ≡ codes.old.keys) }
{
    if codes.len() >= 4_294_967_295 {
        return Err(AllocError);
    }
    let code = code_of(alloc, label, types, numbers)?;
    let (number, _) = codes.insert_full(code)?;
    Ok(number as u32)
}

/// The numbers of the codes of whole labels, in the order of the labels. An `Err` is want of memory or of numbers.
fn intern_codes(
    alloc: Global,
    codes: &mut IndexSet<Vec<u64>>,
    labels: &[Typed<'_>],
    numbers: &GlobalNumbers<'_>,
) -> Result<Vec<u32>, AllocError>
    ensures numbers { IfOk result (λ row. (tables : Tables) (globals : List GlobalTree) → AreTyped tables labels.now →
        IsIndex tables globals numbers.now.by_name.entries → IsBook tables (map (λ code. code.items) codes.old.keys) →
        HaveNumbers (map (label_in tables) (map (λ code. code.items) codes.new.keys)) row.items (map (λ t. whole globals (label_tree t.label.now)) labels.now)) }
    ensures grows { (tables : Tables) (globals : List GlobalTree) → AreTyped tables labels.now →
        IsIndex tables globals numbers.now.by_name.entries → IsBook tables (map (λ code. code.items) codes.old.keys) →
        Grows tables (map (λ code. code.items) codes.old.keys) (map (λ code. code.items) codes.new.keys) }
{
    let mut row = Vec::new(alloc);
    for typed in labels {
        let number = intern_code(alloc, codes, typed.label, &typed.types, numbers)?;
        row.push(number)?;
    }
    Ok(row)
}
