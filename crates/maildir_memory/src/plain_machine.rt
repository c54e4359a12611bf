// A machine of plain data.
ghost use Rattle.std.specs.Prelude.{◌≡◌, ◌∷◌, [], Bool, IfOk, IfSome, List, None, Ok, Some, codes};
ghost use Rattle.std.specs.Option.{option_copied};
ghost use Rattle.maildir_commands.specs.Opening.{ClosesMaildir, OpensMaildir, OpensSource};
ghost use Rattle.maildir_commands.specs.Seen.{opened};
ghost use Rattle.maildir_disk.specs.Faults.{IsFailedAllocation};
ghost use Rattle.maildir_memory.specs.Histories.{CanHappen, CanHappenToOne, seen_machine};
ghost use Rattle.maildir_memory.specs.Plain.{machine_with};
ghost use Rattle.maildir_run.specs.Delivery.{Message};
ghost use Rattle.maildir_run.specs.Several.{IsText, Text};

use crate::plain_system::PlainSystem;
use maildir_commands::Machine;
use maildir_disk::{OpenFault, System};
use std::alloc::Global;
use std::io;
use std::time::{Instant, SystemTime};

/// A machine of plain data: each path names its text as a source, and its Maildir as a Maildir.
#[derive(Drop)]
pub struct PlainMachine<'a> {
    text: &'a [u8],
    // `None` while it is open
    maildir: Option<PlainSystem>,
}

impl<'a> PlainMachine<'a> {
    /// A machine with this text and an empty Maildir, which a power cut takes away.
    ///
    /// Commands can follow one another on it as is assumed of any commands: with a status 1, a
    /// power cut, and a deletion of the text's first message, which is delivered again before
    /// another cut. So they can also if a power cut may keep half of a rename, and, as is assumed of
    /// commands over one text, if nothing is deleted. An example is a text of two messages.
    pub fn losing(
        alloc: Global,
        text: &'a [u8],
        stamp: SystemTime,
        clock: SystemTime,
        instant: Instant,
    ) -> Self
        ensures has { (result.text.now ≡ text.now) × ¬ (result.maildir ≡ None) }
        ensures times { IfSome result.maildir (λ system.
            (system.stamp ≡ stamp) × (system.clock ≡ clock)) }
        ensures happens { (mailbox : Text) (gone : Message) (rest : List Message)
            (whole : Bool) → IsText mailbox → mailbox.messages ≡ gone ∷ rest →
            text.now ≡ mailbox.bytes → CanHappen mailbox gone whole result }
        ensures to_one { (mailbox : Text) (first : Message) (rest : List Message) →
            IsText mailbox → mailbox.messages ≡ first ∷ rest → text.now ≡ mailbox.bytes →
            CanHappenToOne mailbox result }
        ensures example { text.now ≡ codes "From a\n\nFrom b\n\n" → (mailbox : Text) ×
            (gone : Message) × (kept : Message) × (mailbox.messages ≡ gone ∷ kept ∷ []) ×
            ((whole : Bool) → CanHappen mailbox gone whole result) }
    {
        PlainMachine {
            text,
            maildir: Some(PlainSystem::new(alloc, stamp, clock, instant)),
        }
    }

    /// Its Maildir, unless it is open.
    pub fn maildir(&self) -> Option<&PlainSystem>
        ensures { option_copied result ≡ self.now.maildir }
    {
        self.maildir.as_ref()
    }
}

impl<'a> Machine for PlainMachine<'a> {
    ghost use Rattle.maildir_commands.proofs.Resting.{same_at};
    ghost use Rattle.maildir_memory.specs.Laws.{held_may_stay};

    type Source = &'a [u8];

    type Maildir = PlainSystem;

    ghost at = { λ machine. machine_with machine.text.now machine.maildir };

    ghost quiet_is_honest = { λ _ _ quiet. quiet };

    ghost fewer_honest = { λ _ _ _ _ honest. honest };

    ghost same_paths = { λ _ _ _ _ same. same };

    ghost same_maildir = { λ _ _ _ _ _. same_at };

    ghost may_stay = { λ machine _ _ _. held_may_stay machine.maildir };

    fn open_source(&mut self, _path: &str) -> io::Result<&'a [u8]>
        ensures opens { OpensSource (λ source. Some source.now)
            (λ error. ¬ IsFailedAllocation error) _path.now result (seen_machine self.old)
            (seen_machine self.new) }
        ensures answers { (result ≡ Ok self.old.text) × (self.new ≡ self.old) }
    {
        Ok(self.text)
    }

    fn open_maildir(&mut self, _path: &str) -> Result<PlainSystem, OpenFault>
        ensures opens { OpensMaildir (opened ⟦<PlainSystem as System>⟧) _path.now result
            (seen_machine self.old) (seen_machine self.new) }
        ensures answers { IfOk result (λ maildir. self.old.maildir ≡ Some maildir) }
        ensures rest { self.new ≡ record self.old { maildir = None } }
    {
        match self.maildir.take() {
            Some(maildir) => Ok(maildir),
            None => Err(OpenFault::Locked),
        }
    }

    fn close_maildir(&mut self, _path: &str, maildir: PlainSystem)
        ensures closes { ClosesMaildir _path.now (opened ⟦<PlainSystem as System>⟧ maildir)
            (seen_machine self.old) (seen_machine self.new) }
        ensures rest { self.new ≡ record self.old { maildir = Some maildir } }
    {
        self.maildir = Some(maildir);
    }
}
