//! Names for the messages of a Maildir: the flags that the header of a body sets, and the folder
//! and name of its file.
//!
//! A [`Namer`] is given the bodies of a text in order and returns a [`Target`] for each. Its base
//! is the SHA-256 of the body in hexadecimal, a dot, and the number of bodies so far with that
//! digest; its place and name follow from the flags. So a text has the same names in every run, and
//! equal messages have a file each. [`is_converter_name`] recognizes these names.
//!
//! Proved, with the definitions in `specs/`: [`flags_of`] is `flags`; [`base_of`] and
//! [`is_converter_name`] are `base` and `is_converter_name`; after Ok, the targets so far are the
//! `targets` of the bodies so far. [`laws`] has what follows from the definitions alone: no two
//! messages of a text have the same base, even if two bodies have the same digest. `docs/RULES.md`
//! states the rules in prose.
//!
//! ```rust
//! use maildir_name::{Namer, Place};
//!
//! let mut namer = Namer::new(alloc);
//! let first = namer.target(b"Status: RO\n\nhello\n")?;
//! assert!(rt; first.place == Place::Cur);
//! assert!(rt; first.name.as_str().ends_with(".1:2,S"));
//! ```
//!
//! Errors: [`NameFault::OutOfMemory`] alone, if an allocation failed; the namer is then unchanged.
#![tactic(auto)]

mod fault;
mod flags;
pub mod laws;
mod name;
mod namer;
mod target;

pub use fault::NameFault;
pub use flags::{Flags, flags_of};
pub use name::{Name, base_of, is_converter_name};
pub use namer::Namer;
pub use target::{Place, Target};
