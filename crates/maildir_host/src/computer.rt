// The machine of the program.
ghost use Rattle.std.specs.Prelude.{◌≡◌};
ghost use Rattle.maildir_commands.proofs.Resting.{same_at};
ghost use Rattle.maildir_commands.specs.Seen.{nothing_seen};

use crate::host::Host;
use maildir_calls::MaildirAt;
use maildir_commands::Machine;
use maildir_disk::OpenFault;
use std::alloc::Global;
use std::fs::File;
use std::rt::{Clock, Files};
use std::{fs, io};

/// The machine that the program runs on.
#[derive(Drop)]
pub struct Computer<'a, R> {
    rt: &'a R,
    alloc: Global,
}

impl<'a, R> Computer<'a, R> {
    /// The machine of this runtime.
    pub fn new(rt: &'a R, alloc: Global) -> Self
        ensures { (result.rt.now ≡ rt.now) × (result.alloc ≡ alloc) }
    {
        Computer { rt, alloc }
    }
}

// No proof knows what a real machine does, or what its files hold.
impl<'a, R: Files<File = File> + Clock> Machine for Computer<'a, R> {
    type Source = File;

    type Maildir = MaildirAt<Host<'a, R>, File>;

    ghost at = { λ _. nothing_seen };

    ghost quiet_is_honest = { λ _ _ quiet. quiet };

    ghost fewer_honest = { λ _ _ _ _ honest. honest };

    ghost same_paths = { λ _ _ _ _ same. same };

    ghost same_maildir = { λ _ _ _ _ _. same_at };

    ghost may_stay = { λ _ _ _ honest. absurd honest };

    fn open_source(&mut self, path: &str) -> io::Result<File> {
        fs::open(self.rt, path)
    }

    fn open_maildir(&mut self, path: &str) -> Result<MaildirAt<Host<'a, R>, File>, OpenFault> {
        let opened = MaildirAt::open(Host::new(self.rt, self.alloc), self.alloc, path);
        opened.map_err(|(_, fault)| fault)
    }

    fn close_maildir(&mut self, _path: &str, _maildir: MaildirAt<Host<'a, R>, File>) {}
}
