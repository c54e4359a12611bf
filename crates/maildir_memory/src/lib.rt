//! File systems and machines in memory: doubles for tests, and two of plain data that show that the
//! assumptions can be met.
//!
//! [`MemSystem`] is a Maildir in memory, for tests. Other programs may act within its calls, its
//! calls may fail, a sync may fail so that those after it keep nothing, its stamps may be coarse
//! ([`Stamps`]), and a power cut may leave any case of what was not synced. It logs the files that
//! its calls touch ([`Touched`]). [`MemMachine`] is a [`Machine`](maildir_commands::Machine) with
//! texts and such Maildirs. [`PlainSystem`] and [`PlainMachine`] are as small as they can be.
//! [`MemCalls`] answers each call of a file system as its script says (an [`Answer`]), and records
//! it (a [`MemCall`]).
//!
//! Proved: the two of plain data do what the traits that they implement state, so what is assumed
//! there can be met; and so can what is assumed of any commands that follow one another
//! ([`PlainMachine::losing`]). [`MemCalls`] has each call on record with its answer, as long as
//! there is memory for that.
//!
//! ```rust
//! use maildir_disk::DiskFolder;
//! use maildir_memory::{MemSystem, Stamps};
//! use maildir_run::{Folder, MemFolder, Sub};
//!
//! let nobody = Vec::new(alloc);
//! let system = MemSystem::new(alloc, MemFolder::new(alloc), Stamps::Fine, clock, instant, nobody);
//! let mut folder = DiskFolder::new(system);
//! assert!(rt; folder.list(Sub::New)?.is_empty());
//! ```
//!
//! Errors: those of the traits that they implement.
#![tactic(auto)]

mod cases;
mod faults;
mod log;
mod mem_call;
mod mem_calls;
mod mem_machine;
mod mem_system;
mod plain_machine;
mod plain_system;
mod stamps;
mod turn_act;

pub use log::Touched;
pub use mem_call::{Handle, MemCall};
pub use mem_calls::{Answer, MemCalls};
pub use mem_machine::{MemMachine, NamedText};
pub use mem_system::{MemFile, MemSystem};
pub use plain_machine::PlainMachine;
pub use plain_system::PlainSystem;
pub use stamps::Stamps;
pub use turn_act::TurnAct;
