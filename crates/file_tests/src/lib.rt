//! Tests of what no contract says of the crates of texts, rows, certificates, suites, histories, selections, orders and the
//! outside: worked texts with digests of an outside tool, each limit of a format with its next, and that calls succeed with
//! ample memory. They stand here since a crate's tests are proved together with the whole crate.
#![tactic(auto)]

#[cfg(test)]
mod disk;
#[cfg(test)]
mod histories;
#[cfg(test)]
mod numbers;
#[cfg(test)]
mod orders;
#[cfg(test)]
mod outside;
#[cfg(test)]
mod row_of_numbers;
#[cfg(test)]
mod rows;
#[cfg(test)]
mod suites;
#[cfg(test)]
mod texts;
#[cfg(test)]
mod words;
