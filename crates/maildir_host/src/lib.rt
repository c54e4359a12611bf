//! The machine that the program runs on: its files, its Maildirs, and the system calls that reach
//! them.
//!
//! [`Computer`] opens sources and Maildirs by their paths. [`Host`] has the machine's own calls, one
//! for each that [`Calls`](maildir_calls::Calls) asks for; a Maildir over them is a
//! [`MaildirAt`](maildir_calls::MaildirAt).
//!
//! This crate is trusted: no proof knows what these calls do to a disk. Besides making them it says
//! which paths they get, which fields of a stat(2) become the [`Facts`](maildir_calls::Facts), and
//! that a list of a folder has all of its entries, unless one fails. Which calls are made, in which
//! order, and what follows from what they answer is decided in `maildir_calls`, and proved there.
//! What is proved here is that the calls are safe and end. Of [`OpenAt`], which the program does
//! not use, it is also proved that a Maildir is opened at the path that was named, and that its
//! folder begins with no calls and no failures.
//!
//! ```rust
//! use maildir_disk::DiskFolder;
//! use maildir_host::OpenAt;
//! use maildir_run::{Folder, Sub};
//!
//! let mut folder = DiskFolder::open_at(&rt, rt.alloc(), path)?;
//! assert!(rt; folder.list(Sub::Cur)?.is_empty());
//! ```
//!
//! Errors: [`OpenFault`](maildir_disk::OpenFault) if a Maildir cannot be opened, or another program
//! holds its lock; the `io::Error` of a system call that failed.
#![tactic(auto)]

mod computer;
mod host;
mod open_at;

pub use computer::Computer;
pub use host::Host;
pub use open_at::OpenAt;
