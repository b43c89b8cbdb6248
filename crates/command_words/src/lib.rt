//! The words of the command line.
//!
//! Which words are which command is said by `command_of` of `specs/Words`; [`read_words`] gives that command, and `None`
//! exactly where the words are none. It reads the command's name itself, and the words behind it by clap.
#![tactic(auto)]

pub mod command;
mod numbers;
mod reading;
mod rest;

pub use command::{Command, Files};
pub use reading::read_words;
