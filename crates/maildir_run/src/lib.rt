//! A run of the converter: delivers the messages of a mailbox that are missing in a Maildir.
//!
//! [`Folder`] is a Maildir by its four calls: list, write, place, remove. [`convert`] reads a
//! source, lists the folder, removes what earlier runs left in `tmp`, and writes and places each
//! message that has no file. [`plan`] returns these steps for given listings. [`rewrite`] and
//! [`list_text`] write the messages of a source, or a table of them, to an output. [`MemFolder`] is
//! a folder in memory.
//!
//! Proved of [`convert`], over any folder that does what [`Folder`] states, while mail readers move
//! and flag messages: starting from a folder where each message is missing or correctly delivered,
//! in one file of `new` or `cur` with exactly its bytes, every run leaves it so; after Ok each
//! message of the text is delivered; after an error the next run goes on from there. [`laws`] has
//! what any number of runs leaves; `docs/MODEL.md` states the model in prose.
//!
//! ```rust
//! use maildir_run::{MemFolder, convert};
//!
//! let mut folder = MemFolder::new(alloc);
//! let mut mailbox: &[u8] = b"From x\nabc";
//! let report = convert(alloc, &mut folder, &mut mailbox, 1000)?;
//! assert!(rt; report.messages == 1 && report.placed == 1);
//! ```
//!
//! Errors: [`RunFault`] says why a run ended early, and [`FolderFault`] why a call of a folder
//! failed.
#![tactic(auto)]

mod bases;
mod calls;
mod converting;
mod engine;
mod fault;
mod folder;
mod in_memory;
pub mod laws;
mod listings;
mod outputs;
mod planner;
mod printing;
mod reader;
mod report;
mod sweep;

pub use converting::convert;
pub use fault::RunFault;
pub use folder::{Folder, FolderFault, Sub};
pub use in_memory::mem_folder::MemFolder;
pub use in_memory::script::{Act, Mode, ScriptLine};
pub use outputs::rewriting::rewrite;
pub use outputs::table::list_text;
pub use planner::{Step, plan};
pub use report::Report;
