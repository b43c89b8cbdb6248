//! Declared types, and the members of structs.
ghost use Rattle.std.specs.Prelude.{◌≡◌, ◌↔◌, IsTrue, IsSome, IfOk, IfSome, map, option_map};
ghost use Rattle.csub_objects.specs.Meaning.{type_tree, member_tree};
ghost use Rattle.csub_objects.specs.Types.{HaveDifferentNames, HaveArrays, IsCapped, IsCappedSome, find_cell, find_member};
ghost use Rattle.csub_objects.specs.Types.{member_cells, member_levels, members_of};

use crate::make::{cells_of, firsts_of, have_arrays, levels_of, names_of};
use crate::names::NameSet;
use csub_text::Text;
use csub_types::IntKind;
use std::alloc::{AllocError, Global};
use std::marker::Model;
use std::sync::Arc;

/// A declared type (C11 6.2.5).
#[cycle(types)]
pub enum CType {
    /// `char`, `int` or `unsigned int`.
    Num(IntKind),
    /// An array: the type of its elements, and how many there are.
    Array(Element, u32),
    /// A struct: its tag and its members.
    Struct(Text, Members),
    /// An array parameter, which refers to elements of this type (C11 6.7.6.3p7).
    Loose(Element),
}

impl Drop for CType {
    #[cycle(drop)]
    fn drop(self) {
        match self {
            CType::Num(_) => {}
            CType::Array(_, _) => {}
            CType::Struct(_, _) => {}
            CType::Loose(_) => {}
        }
    }
}

/// A parameter or a member: its name and its declared type.
#[cycle(types)]
pub struct Member {
    /// The declared name.
    pub name: Text,
    /// The declared type.
    pub ctype: CType,
}

impl Drop for Member {
    #[cycle(drop)]
    fn drop(self) {
        let Member { name: _, ctype: _ } = self;
    }
}

/// The type of elements, shared. Contracts see the tree of the type.
#[cycle(types)]
pub struct Element {
    shared: Arc<CType, Global>,
}

impl Drop for Element {
    #[cycle(drop)]
    fn drop(self) {
        let Element { shared: _ } = self;
    }
}

/// The members of a struct, shared, with what is asked of them again and again, made once. Contracts see the list of
/// the members.
#[cycle(types)]
pub struct Members {
    shared: Arc<MemberList, Global>,
}

impl Drop for Members {
    #[cycle(drop)]
    fn drop(self) {
        let Members { shared: _ } = self;
    }
}

/// Members in order, and beside them their names, each one's first cell, the number of all cells (this and the former
/// are 65,537 where there are more than 65,536), how many structs stand inside each other, and whether arrays are
/// within their limits.
#[derive(Drop)]
#[cycle(types)]
struct MemberList {
    items: Vec<Member>,
    names: NameSet,
    firsts: Vec<u64>,
    cells: u64,
    levels: u64,
    arrays: bool,
}

impl Model for Element {
    ghost use Rattle.csub_objects.specs.Types.{TypeTree};
    ghost use Rattle.csub_objects.specs.Codes.{type_code, type_size};

    ghost Value = { TypeTree };

    ghost coded = { type_code };

    ghost use Rattle.csub_objects.specs.Meaning.{type_tree};

    ghost view = { λ a. type_tree a.shared.value };

    ghost size = { type_size };

    ghost use Rattle.csub_objects.specs.Falls.{element_falls};

    ghost size_decreases = { λ a h. element_falls a };
}

impl Model for Members {
    ghost use Rattle.std.specs.Prelude.{List, map};
    ghost use Rattle.csub_objects.specs.Types.{MemberTree};
    ghost use Rattle.csub_objects.specs.Codes.{members_code, list_size};

    ghost Value = { List MemberTree };

    ghost coded = { members_code };

    ghost use Rattle.csub_objects.specs.Meaning.{member_tree};
    ghost use Rattle.csub_objects.specs.Names.{IsKept};

    ghost view = { λ a. map member_tree a.shared.value.items.items };

    ghost invariant = { λ a. IsKept (map member_tree a.shared.value.items.items) a.shared.value.names a.shared.value.firsts.items a.shared.value.cells a.shared.value.levels a.shared.value.arrays };

    ghost size = { list_size };

    ghost use Rattle.csub_objects.specs.Falls.{members_fall};

    ghost size_decreases = { λ a h. members_fall a };
}

impl Element {
    /// A type as that of elements. An `Err` is want of memory.
    pub fn new(alloc: Global, ctype: CType) -> Result<Element, AllocError>
        ensures { IfOk result (λ element. element ≡ type_tree ctype) }
    {
        let shared = Arc::new(alloc, ctype)?;
        Ok(Element { shared })
    }

    /// The type.
    pub fn ctype(&self) -> &CType
        ensures { type_tree result.now ≡ self.now }
    {
        &self.shared
    }

    /// The same type, shared: it takes constant time and no memory. An `Err` is a full count of those that share it.
    pub fn copy(&self) -> Result<Element, AllocError>
        ensures { IfOk result (λ element. element ≡ self.now) }
    {
        let shared = Arc::try_clone(&self.shared)?;
        Ok(Element { shared })
    }
}

impl Members {
    /// The members in this order, and `None` exactly where two of them have one name; they are dropped then. It takes
    /// a few passes over them and a hash of each name. An `Err` is want of memory.
    pub fn make(alloc: Global, items: Vec<Member>) -> Result<Option<Members>, AllocError>
        ensures exact { IfOk result (λ made. IsSome made ↔ HaveDifferentNames (map member_tree items.items)) }
        ensures value { IfOk result (λ made. IfSome made (λ members. members ≡ map member_tree items.items)) }
    {
        let Some(names) = names_of(alloc, items.as_slice())? else {
            return Ok(None);
        };
        let firsts = firsts_of(alloc, items.as_slice())?;
        let cells = cells_of(items.as_slice());
        let levels = levels_of(items.as_slice());
        let arrays = have_arrays(items.as_slice());
        let list = MemberList {
            items,
            names,
            firsts,
            cells,
            levels,
            arrays,
        };
        let shared = Arc::new(alloc, list)?;
        Ok(Some(Members { shared }))
    }

    /// The members in order. Their names differ.
    pub fn items(&self) -> &[Member]
        ensures items { map member_tree result.now ≡ self.now }
        ensures names { HaveDifferentNames self.now }
    {
        self.shared.items.as_slice()
    }

    /// The same members, shared: it takes constant time and no memory. An `Err` is a full count of those that share them.
    pub fn copy(&self) -> Result<Members, AllocError>
        ensures { IfOk result (λ members. members ≡ self.now) }
    {
        let shared = Arc::try_clone(&self.shared)?;
        Ok(Members { shared })
    }

    /// The member of a name, found by a hash.
    pub fn find(&self, name: &[u8]) -> Option<&Member>
        ensures { option_map (λ m. type_tree m.now.ctype) result ≡ find_member name.now (members_of self.now) }
    {
        let place = self.shared.names.find(name)?;
        Some(&self.shared.items[place])
    }

    /// The first cell of the member of a name, 65,537 where more than 65,536 are before it; found by a hash.
    pub fn first_cell(&self, name: &[u8]) -> Option<u64>
        ensures some { IfSome result (λ cell. IsCappedSome cell (find_cell name.now (members_of self.now))) }
        ensures exact { IsSome result ↔ IsSome (find_cell name.now (members_of self.now)) }
    {
        let place = self.shared.names.find(name)?;
        Some(self.shared.firsts[place])
    }

    /// How many cells the members have, 65,537 where there are more than 65,536.
    pub fn cells(&self) -> u64
        ensures { IsCapped result (member_cells (members_of self.now)) }
    {
        self.shared.cells
    }

    /// How many structs stand inside each other in the members, 65,537 where there are more than 65,536.
    pub fn levels(&self) -> u64
        ensures { IsCapped result (member_levels (members_of self.now)) }
    {
        self.shared.levels
    }

    /// Whether the arrays in the members are within their limits.
    pub fn have_arrays(&self) -> bool
        ensures { IsTrue result ↔ HaveArrays (members_of self.now) }
    {
        self.shared.arrays
    }
}
