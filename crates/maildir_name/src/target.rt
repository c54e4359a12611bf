// The place and name under which a message is delivered.
ghost use Rattle.std.specs.Prelude.{◌≡◌, ◌<◌, ◌++◌, ◌∷◌, IfOk, OnOk, string_bytes};
ghost use Rattle.maildir_name.specs.Targets.{is_marked as marked, letter_if, letters, under_flags};

use crate::flags::Flags;
use crate::name::Name;
use std::alloc::{AllocError, Global};

/// The two folders of a Maildir in which a message is visible (maildir(5)).
#[derive(Clone, Copy, PartialEq, Eq)]
pub enum Place {
    /// `new`: messages that no reader has seen.
    New,
    /// `cur`: messages that a reader has seen, or that have flags.
    Cur,
}

/// Where a message is delivered: the place and the name of its file.
#[derive(Drop)]
pub struct Target {
    /// The unique name: the digits of the body's digest, a dot, and the occurrence number.
    pub base: Name,
    /// The folder in which the message becomes visible.
    pub place: Place,
    /// The name there: the base, and after it the info if the message has a flag.
    pub name: Name,
}

impl Target {
    /// The target of a base: in `cur` with info if a flag is set, otherwise in `new` under the base
    /// alone.
    pub(crate) fn under_flags(
        alloc: Global,
        base: String,
        flags: Flags,
    ) -> Result<Target, AllocError>
        ensures { IfOk result (λ target. target ≡ under_flags (string_bytes base) flags) }
    {
        let (place, name) = if is_marked(flags) {
            (Place::Cur, with_info(alloc, base.as_str(), flags)?)
        } else {
            (Place::New, String::from_str(alloc, base.as_str())?)
        };
        Ok(Target {
            base: Name::new(base),
            place,
            name: Name::new(name),
        })
    }
}

// Whether any flag is set.
fn is_marked(flags: Flags) -> bool
    ensures { result ≡ marked flags }
{
    flags.is_old || flags.flagged || flags.replied || flags.seen || flags.trashed
}

// A base with `:2,` and the letters of the flags that are set ("Using maildir format").
fn with_info(alloc: Global, base: &str, flags: Flags) -> Result<String, AllocError>
    ensures { IfOk result (λ name. string_bytes name ≡ base.now ++ 58 ∷ 50 ∷ 44 ∷ letters flags) }
{
    let mut name = String::from_str(alloc, base)?;
    name.push_str(":2,")?;
    push_if(&mut name, flags.flagged, 'F')?;
    push_if(&mut name, flags.replied, 'R')?;
    push_if(&mut name, flags.seen, 'S')?;
    push_if(&mut name, flags.trashed, 'T')?;
    Ok(name)
}

// Appends a letter, if its flag is set.
fn push_if(name: &mut String, is_set: bool, letter: char) -> Result<(), AllocError>
    requires { letter < 128 }
    ensures { OnOk result
        (string_bytes name.new ≡ string_bytes name.old ++ letter_if is_set letter) }
{
    if is_set {
        name.push(letter)?;
    }
    Ok(())
}
