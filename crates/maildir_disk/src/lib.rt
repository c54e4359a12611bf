//! A Maildir on a file system, with what a power cut may leave of it.
//!
//! [`System`] is the file system by the calls that one Maildir needs, with what is assumed of
//! each: `maildir_calls` implements it over any file system's calls, `maildir_memory` in memory.
//! [`DiskFolder`] is a [`Folder`](maildir_run::Folder) over any such system: it syncs each file
//! before it is placed, lists a folder as it was at one moment, and syncs `new` and `cur` once
//! they were listed. [`DiskFolder::sync`] syncs the folders. After a failed sync of a folder it
//! makes no call of the system.
//!
//! Proved: if the system does what [`System`] assumes, each call of the folder has the effect that
//! it reports, also while mail readers are at work. [`cuts`] has what power cuts leave of runs and
//! syncs: a folder where each message is missing or correctly delivered stays so, and messages
//! delivered before a sync that succeeded survive. [`laws`] has why listings wait as long as they
//! do. `docs/MODEL.md` states the assumptions in prose.
//!
//! ```rust
//! use maildir_disk::DiskFolder;
//! use maildir_name::Place;
//! use maildir_run::{Folder, Sub};
//!
//! let mut folder = DiskFolder::new(system);
//! folder.write("v", b"abc")?;
//! folder.place("v", Place::New, "v")?;
//! folder.sync()?;
//! assert!(rt; folder.list(Sub::New)?.len() == 1);
//! ```
//!
//! Errors: [`FolderFault`](maildir_run::FolderFault) from the folder, and [`OpenFault`] from
//! opening one.
#![tactic(auto)]

pub mod cuts;
mod disk_folder;
mod faults;
pub mod laws;
mod one_moment;
mod system;
mod writing;

pub use disk_folder::DiskFolder;
pub use faults::{OpenFault, is_failed_allocation};
pub use system::System;
