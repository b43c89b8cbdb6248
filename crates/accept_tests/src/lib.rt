//! Tests of whole sources in C text: which rule they break first, and where, and what the program shows of no source: machines by
//! themselves, places of parts, points, and how many questions a walk asks. What is expected is what C says, or the language where
//! C leaves a choice. They stand above what they test, since a crate's tests are proved together with the whole crate.
#![tactic(auto)]

#[cfg(test)]
mod machines;
#[cfg(test)]
mod parts;
#[cfg(test)]
mod refusals;
#[cfg(test)]
mod rules;
#[cfg(test)]
mod sources;
#[cfg(test)]
mod walks;
#[cfg(test)]
mod word_counter;
