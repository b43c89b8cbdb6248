//! Tests of what is made of programs: the graph, the numbers of labels, the reasons of the facts of walks and parts of these
//! facts, the images of edges, and that programs and graphs go between threads. The programs are written in words
//! (`program_words`).
#![tactic(auto)]

#[cfg(test)]
mod graphs;
#[cfg(test)]
mod images;
#[cfg(test)]
mod labels;
#[cfg(test)]
mod reasons;
#[cfg(test)]
mod switches;
#[cfg(test)]
mod threads;
#[cfg(test)]
mod trimming;
#[cfg(test)]
mod walks;
