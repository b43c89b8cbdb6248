//! Tests of the whole command over files in memory: how many tests it runs, how many at a time, and what it does where a file or
//! the output fails. What a user can see of the program is shown by the folder `cases`.
#![tactic(auto)]

#[cfg(test)]
mod carried;
#[cfg(test)]
mod faults;
#[cfg(test)]
mod files;
#[cfg(test)]
mod reruns;
#[cfg(test)]
mod script;
#[cfg(test)]
mod word_counter;
#[cfg(test)]
mod workers;
