//! The tests of the libraries: what no clause of a contract says, on values that come from outside.
//!
//! A clause says what a call answers, whatever it is given. These tests say that the definitions
//! behind the clauses mean what the formats mean, that calls end with Ok, and what the texts of
//! faults are. Their values are worked by hand from the rules, or are another program's:
//! `sha256sum`'s for digests.
//!
//! `texts` has the worked texts: each with its messages, its regular spelling, its table and its
//! files, which are split, spelled, listed, rewritten and delivered. `sources` and `writers` have
//! what is read and written through, with their faults. `rows` has how a row is compared: one that
//! fails says its name, what was got and what was wanted. Each other file has the rows of what it
//! is named for. `refusals` makes each call again after an allocation that failed; `examples` has
//! the libraries' examples.
//!
//! They have a crate of their own, since to build tests is to prove all of their crate once more. A
//! table is a constant slice, which the prover takes in one step; an array in a body costs it a
//! step for each cell.
#![tactic(auto)]

#[cfg(test)]
mod bases;
#[cfg(test)]
mod calls;
#[cfg(test)]
mod commands;
#[cfg(test)]
mod converting;
#[cfg(test)]
mod cuts;
#[cfg(test)]
mod disk_folder;
#[cfg(test)]
mod disturbed;
#[cfg(test)]
mod examples;
#[cfg(test)]
mod fault_texts;
#[cfg(test)]
mod file_calls;
#[cfg(test)]
mod flags;
#[cfg(test)]
mod from_lines;
#[cfg(test)]
mod history;
mod lines;
#[cfg(test)]
mod mem_folder;
#[cfg(test)]
mod mem_system;
#[cfg(test)]
mod messages;
#[cfg(test)]
mod pieces;
#[cfg(test)]
mod planning;
#[cfg(test)]
mod refusals;
#[cfg(test)]
mod rewriting;
#[cfg(test)]
mod rows;
#[cfg(test)]
mod runs;
#[cfg(test)]
mod scripts;
#[cfg(test)]
mod sources;
#[cfg(test)]
mod spelling;
#[cfg(test)]
mod splitting;
#[cfg(test)]
mod stops;
#[cfg(test)]
mod targets;
#[cfg(test)]
mod texts;
#[cfg(test)]
mod writers;
#[cfg(test)]
mod written;
