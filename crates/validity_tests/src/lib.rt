//! Tests of which programs are valid: for each rule of validity a program that breaks it alone, beside a valid one. The
//! programs are written in words (`program_words`).
#![tactic(auto)]

#[cfg(test)]
mod accepting;
#[cfg(test)]
mod arrays;
#[cfg(test)]
mod functions;
#[cfg(test)]
mod globals;
#[cfg(test)]
mod jumps;
#[cfg(test)]
mod lists;
#[cfg(test)]
mod places;
