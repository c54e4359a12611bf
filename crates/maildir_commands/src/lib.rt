//! The commands of the program: their words, their input and output, and the status that each ends
//! with.
//!
//! [`start`] takes what a program is started with: its words, its streams and a [`Machine`]. [`run`]
//! does what the words after its own name say, and returns the status: 0 if it is done, 1 after a
//! [`Fault`], 2 if the words are wrong. [`run_killed`] is a command that is killed.
//! [`deliver`] delivers one source into a folder and syncs it.
//!
//! Proved: the words alone decide which command runs; with status 0 every message of every named
//! source is delivered, synced and reported, or every message is written to the output; each fault
//! is possible for its command, and its cause holds; of failed reads, writes and allocations no
//! cause is stated. [`laws`] has what any commands leave that follow one another, with power cuts
//! between them.
//!
//! ```rust
//! use maildir_commands::run;
//!
//! let mut input: &[u8] = b"From x\nabc";
//! let mut out = BufWriter::with_capacity(alloc, 4096, Vec::new(alloc))?;
//! let status = run(&mut machine, alloc, words, &mut input, &mut out, &mut err);
//! assert!(rt; status == 0);
//! ```
//!
//! Errors: [`Fault`] says why a command ended early; its line is written to standard error.
#![tactic(auto)]

mod command;
mod fault;
mod killed;
pub mod laws;
mod line;
mod machine;
mod program;
mod sources;

pub use fault::Fault;
pub use killed::{Killed, run_killed};
pub use machine::Machine;
pub use program::{run, start};
pub use sources::deliver;
