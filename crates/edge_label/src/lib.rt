//! Numbers for whole labels: what is done at two points is the same exactly where the numbers of their labels are.
//!
//! A whole label is a label's tree and, for each object of file scope that the tree names, its name, type and initial
//! contents. [`LabelBook`] gives the numbers. What is promised: a whole label keeps the one number that it was given, and
//! a refused label changes nothing ([`LabelBook::intern`]; [`LabelBook::intern_all`] numbers the labels of a program, in
//! which a name stands with the type of its declaration and a tag with the members of its own, and goes over the contents
//! of the globals once, and over the members of each struct once for the labels and once for the globals); two numbers of
//! one book are the same exactly where their whole labels are equal, and the question counts one step and takes no memory
//! ([`LabelBook::same`]). [`Steps`] is that count, which takes no bytes. In contracts a book is the list of its whole
//! labels, in the order of their numbers.
//!
//! `specs/Numbers` has the words of these contracts, and `Uses` which names have their declared types; the names in a label
//! with their types are those of `label_code`'s `Uses`, and which globals a tree names stands in `csub_semantics`. A book
//! itself keeps a code of each label, a list of numbers: that of the bare label (`label_code`), with the numbers of its types
//! and globals in a table behind it (`Tables`), where each type and each global stands once; in a global the number of its
//! type there stands in the place of the type, and in a type a number in the place of each struct, that of the struct in a
//! table of structs (`Structs`). `Fills` puts the types back into a bare label; `Indices` says what an index of globals keeps,
//! `Known` what is kept of the types of names and of the structs of tags, and `Stored` how codes stand for labels. Laws for
//! proofs above stand in `proofs/LawsNumbers`: a book has each label once, so its numbers are equal exactly where the labels
//! are.
#![tactic(auto)]

pub mod book;
mod globals;
pub mod standing;
pub mod steps;
mod structs;
mod table;
mod types;

pub use book::LabelBook;
pub use standing::Standing;
pub use steps::Steps;
