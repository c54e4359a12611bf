//! Mbox texts: reading their messages, and writing messages back (qmail's mbox(5), the format that
//! is called mboxrd).
//!
//! A [`Splitter`] is fed a text in pieces of any sizes and returns its messages in order;
//! [`split_all`] returns those of a text in memory. An [`Entry`] is one message: its From_ line,
//! and its body without the quoting and without the blank line at its end. [`write_entry`] writes a
//! message in its regular spelling. [`sender_of`], [`rest_of`] and [`build_from`] take From_ lines
//! apart and build them.
//!
//! Proved, with the definitions in `specs/`: a text has at most one list of messages, and has one
//! exactly if it is empty or begins with `From `; both readers return that list, however the text
//! is cut into pieces. What is written reads as the same messages, with the `\n` that a body lacked
//! at its end, so writing it again changes nothing. [`laws`] has what follows from the definitions
//! alone; `docs/RULES.md` states the format in prose.
//!
//! ```rust
//! use mbox_text::{split_all, write_entry};
//!
//! let mut out = Vec::new(alloc);
//! for entry in &split_all(alloc, b"From x\n>From a\nabc")? {
//!     assert!(rt; entry.body.as_slice() == b"From a\nabc".as_slice());
//!     write_entry(entry, &mut out)?;
//! }
//! assert!(rt; out.as_slice() == b"From x\n>From a\nabc\n\n".as_slice());
//! ```
//!
//! Errors: [`TextFault`] says why a call failed. Each function names the errors that it has; what
//! was appended or written by then is a prefix of what was to be.
#![tactic(auto)]

mod body;
mod build;
mod bytes;
mod entry;
mod fault;
mod from_line;
pub mod laws;
mod lines;
mod partial_message;
mod quoting;
mod sender;
mod split;
mod splitter;
mod write;

pub use build::build_from;
pub use bytes::Bytes;
pub use entry::Entry;
pub use fault::TextFault;
pub use from_line::is_from_line;
pub use quoting::is_quotable;
pub use sender::{rest_of, sender_of};
pub use split::split_all;
pub use splitter::Splitter;
pub use write::{write_bytes, write_entry};
