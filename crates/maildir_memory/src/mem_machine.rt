// A machine in memory.
ghost use Rattle.std.specs.Prelude.{◌≡◌, IfErr, IfOk, None, OnErr, OnOk, Option, Some};
ghost use Rattle.std.specs.Prelude.{false, string_cmp, true};
ghost use Rattle.std.specs.BTreeMap.{IsEmpty, IsUnchanged, get_by_text, insert_entry};
ghost use Rattle.std.specs.IoError.{error_kind};
ghost use Rattle.std.specs.Option.{option_copied, option_flatten};
ghost use Rattle.maildir_commands.proofs.Resting.{same_at};
ghost use Rattle.maildir_commands.specs.Opening.{ClosesMaildir, OpensMaildir, OpensSource};
ghost use Rattle.maildir_commands.specs.Seen.{nothing_seen, opened};
ghost use Rattle.maildir_disk.specs.Faults.{IsFailedAllocation};
ghost use Rattle.maildir_memory.specs.MemMachines.{Makes, Puts, has_text, opened_of, text_under};
ghost use Rattle.maildir_memory.specs.MemMachines.{without_slash};

use crate::mem_system::MemSystem;
use maildir_commands::Machine;
use maildir_disk::{OpenFault, System};
use maildir_run::FolderFault;
use std::alloc::{AllocFailed, Global};
use std::collections::BTreeMap;
use std::io;
use std::io::ErrorKind;

/// A text, with the word that names it.
#[derive(Clone, Copy)]
pub struct NamedText<'a> {
    /// The path that opens it, as it stands.
    pub name: &'a str,
    /// What a source of it gives.
    pub text: &'a [u8],
}

/// A machine in memory, with texts and with Maildirs, each under its own word. A slash at the end
/// of a Maildir's word makes no difference to [`Machine`]'s calls.
#[derive(Drop)]
pub struct MemMachine<'a> {
    alloc: Global,
    texts: &'a [NamedText<'a>],
    // `None` while it is open
    maildirs: BTreeMap<String, Option<MemSystem>>,
    // what the next missing Maildir is made of
    fresh: Option<MemSystem>,
}

impl<'a> MemMachine<'a> {
    /// A machine with these texts and no Maildir.
    pub fn new(alloc: Global, texts: &'a [NamedText<'a>]) -> Self
        ensures texts { result.texts.now ≡ texts.now }
        ensures none { IsEmpty result.maildirs × (result.fresh ≡ None) }
    {
        MemMachine {
            alloc,
            texts,
            maildirs: BTreeMap::new(alloc),
            fresh: None,
        }
    }

    /// The next Maildir that is missing is made of this one, which holds nothing. Until then a
    /// missing one is refused.
    pub fn make_of(&mut self, fresh: MemSystem)
        ensures { self.new ≡ record self.old { fresh = Some fresh } }
    {
        self.fresh = Some(fresh);
    }

    /// Puts a Maildir under a word.
    pub fn put(
        &mut self,
        word: String,
        maildir: MemSystem,
    ) -> Result<(), AllocFailed<(String, Option<MemSystem>)>>
        ensures put { OnOk result (self.new.maildirs.entries ≡
            insert_entry string_cmp self.old.maildirs.entries word (Some maildir)) }
        ensures refused { OnErr result (IsUnchanged self.old.maildirs self.new.maildirs) }
        ensures rest { self.new ≡ record self.old { maildirs = self.new.maildirs } }
    {
        self.maildirs.insert(word, Some(maildir))?;
        Ok(())
    }

    // Makes a Maildir that is missing, and opens it.
    fn make(&mut self, path: &str) -> Result<MemSystem, OpenFault>
        ensures makes { Makes path.now self.old result self.new }
        ensures rest { self.new ≡ record self.old { maildirs = self.new.maildirs; fresh = None } }
    {
        let Some(fresh) = self.fresh.take() else {
            return Err(OpenFault::Folder(FolderFault::Failed));
        };
        let Ok(word) = String::from_str(self.alloc, without_slash(path)) else {
            return Err(OpenFault::Folder(FolderFault::OutOfMemory));
        };
        let Ok(_) = self.maildirs.insert(word, None) else {
            return Err(OpenFault::Folder(FolderFault::OutOfMemory));
        };
        Ok(fresh)
    }

    /// The Maildir under a word.
    pub fn maildir(&self, word: &str) -> Option<&MemSystem>
        ensures { option_copied result ≡ option_flatten (get_by_text self.now.maildirs word.now) }
    {
        match self.maildirs.get(word) {
            Some(Some(maildir)) => Some(maildir),
            _ => None,
        }
    }
}

// The word without one slash at its end: a word names the same Maildir with it and without it.
fn without_slash(word: &str) -> &str
    ensures { result.now ≡ without_slash word.now }
{
    match word.strip_suffix('/') {
        Some(front) => front,
        None => word,
    }
}

// No proof says that it does as assumed: `PlainMachine` is proved to do so.
impl<'a> Machine for MemMachine<'a> {
    type Source = &'a [u8];

    type Maildir = MemSystem;

    ghost at = { λ _. nothing_seen };

    ghost quiet_is_honest = { λ _ _ quiet. quiet };

    ghost fewer_honest = { λ _ _ _ _ honest. honest };

    ghost same_paths = { λ _ _ _ _ same. same };

    ghost same_maildir = { λ _ _ _ _ _. same_at };

    ghost may_stay = { λ _ _ _ honest. absurd honest };

    fn open_source(&mut self, path: &str) -> io::Result<&'a [u8]>
        ensures opens { OpensSource (λ source. Some source.now)
            (λ error. ¬ IsFailedAllocation error) path.now result nothing_seen nothing_seen }
        ensures text { IfOk result (λ source. source.now ≡ text_under self.old.texts.now path.now) }
        ensures there { OnOk result (has_text self.old.texts.now path.now ≡ true) }
        ensures missing { IfErr result (λ error. (error_kind error ≡ ErrorKind.NotFound)
            × (has_text self.old.texts.now path.now ≡ false)) }
        ensures rest { self.new ≡ self.old }
    {
        let texts = self.texts;
        for named in texts {
            if named.name == path {
                return Ok(named.text);
            }
        }
        Err(io::Error::from(ErrorKind::NotFound))
    }

    fn open_maildir(&mut self, path: &str) -> Result<MemSystem, OpenFault>
        ensures opens { OpensMaildir (opened ⟦<MemSystem as System>⟧) path.now result nothing_seen
            nothing_seen }
        ensures there { (slot : Option MemSystem) →
            get_by_text self.old.maildirs (without_slash path.now) ≡ Some slot →
            (result ≡ opened_of slot) × (self.new.fresh ≡ self.old.fresh)
            × Puts path.now None (get_by_text self.old.maildirs) (get_by_text self.new.maildirs) }
        ensures missing { get_by_text self.old.maildirs (without_slash path.now) ≡ None →
            Makes path.now self.old result self.new }
        ensures texts { self.new.texts ≡ self.old.texts }
    {
        let Some(slot) = self.maildirs.get_mut(without_slash(path)) else {
            return self.make(path);
        };
        match slot.take() {
            Some(maildir) => Ok(maildir),
            None => Err(OpenFault::Locked),
        }
    }

    fn close_maildir(&mut self, path: &str, maildir: MemSystem)
        ensures closes { ClosesMaildir path.now (opened ⟦<MemSystem as System>⟧ maildir) nothing_seen
            nothing_seen }
        ensures there { (slot : Option MemSystem) →
            get_by_text self.old.maildirs (without_slash path.now) ≡ Some slot →
            Puts path.now (Some maildir) (get_by_text self.old.maildirs)
            (get_by_text self.new.maildirs) }
        ensures missing { get_by_text self.old.maildirs (without_slash path.now) ≡ None →
            get_by_text self.new.maildirs ≡ get_by_text self.old.maildirs }
        ensures rest { self.new ≡ record self.old { maildirs = self.new.maildirs } }
    {
        if let Some(slot) = self.maildirs.get_mut(without_slash(path)) {
            *slot = Some(maildir);
        }
    }
}
