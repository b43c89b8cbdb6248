//! Laws of resolution: the program of a source that breaks no rule and passes no limit is valid.
//!
//! The crate has proofs alone, which crates above cite: `proofs/LawsText` has the law for a source that the tokens of a text
//! spell (`specs/Texts`). `LawsValid` has it for every tree, and asks three things beside, which the rules don't say of trees:
//! that no function is named `#start` (`specs/Names`), that literals are in their ranges, `case` and `default` stand among the
//! lines of a `switch`, and a `for` begins with a declaration, an expression or nothing (`specs/Written`), and that no list of
//! statements is longer than a source may be (`specs/Short`). `LawsSpelled`, `LawsWritten` and `LawsShort` show them, in this
//! order, of what the tokens of a text spell.
//!
//! `LawsLimits` says what the limits give; `LawsFunctions`, that `#start` stands first, that `main` is there as it has to be, and
//! that the names of functions differ; `LawsGlobals`, what the objects of file scope have; `LawsObjects`, that two objects of a
//! function differ; `LawsTypes`, which types objects have, and that structs with one tag have the same members; `LawsBodies`,
//! that bodies are valid and their labels differ. `LawsFields` puts these together.
#![tactic(auto)]
