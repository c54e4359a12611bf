//! The decisions between the calls of a file system: which calls are made, in which order, and
//! what follows from their answers.
//!
//! [`Calls`] is a file system by its calls. [`MaildirAt`] is the Maildir at a path, by the calls that
//! [`System`](maildir_disk::System) asks for, over any such file system: [`MaildirAt::open`] makes it
//! and its folders if they are missing, and locks it while it is open, if the file system has locks.
//!
//! Proved: each function makes exactly the calls that its contract lists, with what each answered, in
//! that order, and no other; and each decision is the one that its contract states.
//!
//! ```rust
//! use maildir_calls::{Facts, check_own};
//!
//! let found = Facts { mode: 0o100_600, links: 1, owner: 1000, device: 1, number: 2, seconds: 1, nanos: 0 };
//! assert!(rt; check_own(&found, 1000).is_ok());
//! assert!(rt; check_own(&found, 0).is_err());
//! ```
//!
//! Errors: those that the calls answered, and some of the kind `Other`, which the functions name.
#![tactic(auto)]

mod answers;
mod calls;
mod files;
mod maildir;
mod opening;
mod own;
mod paths;
mod stamps;
mod syncs;

pub use calls::Calls;
pub use files::{create_file, move_file, remove_file};
pub use maildir::MaildirAt;
pub use opening::{Held, open_folders};
pub use own::{Facts, check_own};
pub use paths::Paths;
pub use syncs::{sync_folder, sync_root};
