//! The text that every file and every report of this repository is made of: lines, each ended by one
//! newline byte; words on a line, separated by one space; decimal numbers without a sign or a leading
//! zero; bytes in lower-case hexadecimal, or `-` where there are none.
//!
//! Writing and reading are exact against one definition each, in both directions: what a `push_` call
//! appends is what the `read_` call beside it reads back, and a `read_` call refuses every other text.
//! `push_decimal`, `push_signed`, `read_decimal` and `read_signed` promise that of `decimal` and
//! `signed_decimal`; `push_hex`, `read_hex` and `read_digest` of `encode_lower`; `push_bytes_or_dash`
//! and `read_bytes_or_dash` of `bytes_or_dash`. `cut_word` gives the pieces of a line between its
//! spaces one by one, and `cut_line` the lines of a text. Each call goes over its text once.
//!
//! Most lines are a word and a value: `push_text_line`, `push_number_line`, `push_bytes_line` and
//! `push_digest_line` write them, `cut_value`, `read_number_line`, `read_bytes_line` and
//! `read_digest_line` read them off the front of a text, by `specs/Values`.
//!
//! Proofs above cite `proofs/Laws` (words and lines), `proofs/LawsOfNumbers` (decimal digits),
//! `proofs/LawsOfValues` (lines of a word and a value), `proofs/LawsOfTexts` (texts of many lines,
//! written or read line by line) and `proofs/LawsOfDigests` (what SHA-256 gives is a digest).
#![tactic(auto)]

mod bytes;
mod hexadecimal;
mod lines;
mod numbers;
mod value_lines;
mod values;
mod words;

pub use bytes::{bytes_or_dash_length, push_bytes_or_dash, read_bytes_or_dash};
pub use hexadecimal::{push_hex, read_digest, read_hex};
pub use lines::{Line, cut_line};
pub use numbers::{decimal_length, push_decimal, push_signed, read_decimal, read_signed};
pub use value_lines::{push_bytes_line, push_digest_line, push_number_line, push_text_line};
pub use values::{
    DigestLine, Value, cut_value, read_bytes_line, read_digest_line, read_number_line,
};
pub use words::{Word, cut_word};
