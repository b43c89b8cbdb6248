//! Programs written in words: the ground of the tests of all that takes a program, also of programs that no source in C
//! gives, since they are not valid.
//!
//! A text is words with spaces between them, each before its operands, as in `while test getchar { line eval 1 }`.
//! Behind the name of a word its own fields stand after colons: names, numbers, kinds (`char`, `int` or `unsigned`).
//!
//! | Words | Stand for |
//! |---|---|
//! | `char`, `int`, `unsigned`, `array:LENGTH TYPE`, `loose TYPE`, `struct:TAG:COUNT MEMBER..` | types; `loose` is that of an array parameter |
//! | `member:NAME TYPE` | a member of a struct, or a parameter |
//! | `global:NAME TYPE`, `local:NAME:NUMBER TYPE`, `element PLACE VALUE`, `dot:NAME PLACE` | places |
//! | `5`, `const:KIND:5`, `temp:NUMBER:KIND`, `getchar`, `putchar VALUE`, `read PLACE`, `set PLACE VALUE`, `minus:KIND VALUE`, `add:KIND VALUE VALUE`, `sub:KIND VALUE VALUE` | values; `5` is an `int` |
//! | `one VALUE`, `list:COUNT INITIALISER..` | initialisers |
//! | `value VALUE`, `row PLACE` | arguments |
//! | `eval VALUE`, `test VALUE`, `switch_value VALUE`, `return`, `return:KIND VALUE`, `exit VALUE`, `init PLACE INITIALISER`, `jump`, `entry`, `end:RULE`, `call:NAME:RESULT:TEMPORARY MEMBER.. ARGUMENT..` | parts of one point; `jump` is that of a `goto` |
//! | `at:BYTE PART` | the part, with its place in a source |
//! | `line PART`, `lines:COUNT PART..`, `block BLOCK` | statements without others inside, and blocks as statements |
//! | `if PART BLOCK`, `choose PART BLOCK BLOCK`, `while PART BLOCK`, `do BLOCK PART`, `for:COUNT:COUNT PART.. PART PART.. BLOCK`, `switch PART BLOCK`, `case:VALUE`, `default`, `break`, `continue`, `goto:NAME PART`, `mark:NAME STATEMENT` | the other statements |
//! | `object:NAME:NUMBER TYPE` | a local |
//! | `function:NAME:RESULT:TEMPORARIES MEMBER.. OBJECT.. BLOCK`, `main MEMBER.. OBJECT.. BLOCK`, `start` | functions; a `main` gives an `int` and has no temporaries, and `start` is `#start`, which calls it |
//! | `static:NAME:NUMBER:.. TYPE` | an object of file scope with the contents of its cells |
//!
//! A `BLOCK` is `{ STATEMENT.. }`; a `RESULT` is a kind or `void`; a `TEMPORARY` is its number, or 0 for none; a `RULE`
//! is `nothing`, `value`, `main` or `start`. Nothing is looked at but the words: whether a program is valid says
//! [`csub_decisions::MakeProgram`].
#![tactic(auto)]

mod error;
mod fields;
mod functions;
mod lists;
mod parts;
mod reading;
mod statements;
mod types;
mod values;

pub use error::Unread;
pub use reading::{accepts, read_labels, read_program};
