// A Maildir of plain data.
ghost use Rattle.std.specs.Prelude.{◌≡◌, ◌≤◌, ◌⊎◌, IfErr, IfOk, IsNone, IsOk, IsSome, None, Ok};
ghost use Rattle.std.specs.Prelude.{OnErr, OnOk, length};
ghost use Rattle.std.specs.Prelude.{true};
ghost use Rattle.std.specs.FinMap.{get};
ghost use Rattle.std.specs.IoError.{error_kind};
ghost use Rattle.std.specs.declared.io.ErrorKind.TheVariants.{NotFound};
ghost use Rattle.maildir_disk.specs.Placing.{WasGone};
ghost use Rattle.maildir_disk.specs.PowerCuts.{KeepsHeld, KeepsNames};
ghost use Rattle.maildir_disk.specs.SeenSystem.{AppendsToFile, Asks, Looks, MakesFile, ReadsClock};
ghost use Rattle.maildir_disk.specs.SeenSystem.{ReadsFolder, ReadsStamp, TakesFromTmp};
ghost use Rattle.maildir_run.specs.Calls.Call.{Placing, Removing};
ghost use Rattle.maildir_run.specs.Cuts.{Follows};
ghost use Rattle.maildir_run.specs.Files.{Files, Honestly};
ghost use Rattle.maildir_run.specs.Folders.{folder_of_place};
ghost use Rattle.maildir_run.specs.MemFolder.{HasNoScript, SameScript, files_of};
ghost use Rattle.maildir_memory.specs.Plain.{IsNew, Keeps, found_in, kept_in, opened_as};
ghost use Rattle.maildir_memory.specs.Plain.{seen_plain};

use crate::faults::error_of;
use crate::log::{Touched, touch};
use crate::mem_system::{MemFile, joined};
use maildir_disk::System;
use maildir_name::Place;
use maildir_run::{Folder, MemFolder, Sub};
use std::alloc::Global;
use std::io;
use std::io::ErrorKind;
use std::time::{Duration, Instant, SystemTime};

/// A Maildir of plain data: its files, and its files as they were when something of it was last
/// synced. A power cut leaves one of the two. No other program acts within its calls, its clocks
/// stand still, and a write takes half of its bytes. A call fails only if memory runs out, or if
/// the file that it is to move is gone.
#[derive(Drop)]
pub struct PlainSystem {
    alloc: Global,
    folder: MemFolder,
    // the files when something was last synced; `None` if nothing was changed since
    durable: Option<MemFolder>,
    is_rooted: bool,
    // the files that its calls touched
    log: Vec<Touched>,
    // when each of the three folders was last changed
    stamp: SystemTime,
    clock: SystemTime,
    instant: Instant,
}

impl PlainSystem {
    /// A Maildir without files, which a power cut takes away. Its folders have this stamp.
    pub fn new(alloc: Global, stamp: SystemTime, clock: SystemTime, instant: Instant) -> Self
        ensures fresh { IsNew result }
        ensures times { (result.stamp ≡ stamp) × (result.clock ≡ clock) }
    {
        PlainSystem {
            alloc,
            folder: MemFolder::new(alloc),
            durable: None,
            is_rooted: false,
            log: Vec::new(alloc),
            stamp,
            clock,
            instant,
        }
    }

    /// The files as they are.
    pub fn folder(&self) -> &MemFolder
        ensures { result.now ≡ self.now.folder }
    {
        &self.folder
    }

    // Syncs all files, for which it needs no memory.
    fn sync(&mut self)
        ensures { self.new ≡ record self.old { durable = None } }
    {
        self.durable = None;
    }
}

// Keeps files that are about to change, as a power cut may leave them. Those of the last sync stay
// if they are kept.
fn keep(durable: &mut Option<MemFolder>, folder: &MemFolder) -> io::Result<()>
    ensures kept { OnOk result ((changed : Files) →
        kept_in durable.new changed ≡ kept_in durable.old (files_of folder.now)) }
    ensures refused { OnErr result (durable.new ≡ durable.old) }
    ensures causes { IfErr result (λ error.
        (error_kind error ≡ ErrorKind.OutOfMemory) × (durable.old ≡ None)) }
{
    match durable {
        Some(_) => Ok(()),
        None => match folder.copy() {
            Ok(copy) => {
                *durable = Some(copy);
                Ok(())
            }
            Err(fault) => Err(error_of(fault)),
        },
    }
}

impl System for PlainSystem {
    ghost use Rattle.std.proofs.Common.{inl, refl};

    type File = MemFile;

    ghost at = { seen_plain };

    ghost name_of = { opened_as };

    ghost is_current = { λ _ _. Unit {0} };

    ghost quiet_is_honest = { λ _ _ quiet. quiet };

    ghost fewer_honest = { λ _ _ _ _ honest. honest };

    ghost may_stay = { λ _ _ _. inl refl };

    fn names(&mut self, sub: Sub) -> io::Result<Vec<String>>
        ensures reads { ReadsFolder sub (seen_plain self.old) result (seen_plain self.new) }
        ensures causes { HasNoScript self.old.folder →
            IfErr result (λ error. error_kind error ≡ ErrorKind.OutOfMemory) }
        ensures script { SameScript self.old.folder self.new.folder }
        ensures rest { self.new ≡ record self.old { folder = self.new.folder } }
    {
        match self.folder.list(sub) {
            Ok(names) => Ok(names),
            Err(fault) => Err(error_of(fault)),
        }
    }

    fn stamp(&mut self, _sub: Sub) -> io::Result<SystemTime>
        ensures reads { ReadsStamp _sub (seen_plain self.old) result (seen_plain self.new) }
        ensures answers { (result ≡ Ok self.old.stamp) × (self.new ≡ self.old) }
    {
        Ok(self.stamp)
    }

    fn now(&mut self) -> io::Result<SystemTime>
        ensures reads { ReadsClock (seen_plain self.old) result (seen_plain self.new) }
        ensures answers { (result ≡ Ok self.old.clock) × (self.new ≡ self.old) }
    {
        Ok(self.clock)
    }

    fn instant(&mut self) -> io::Result<Instant>
        ensures looks { Looks (seen_plain self.old) (seen_plain self.new) }
        ensures answers { (result ≡ Ok self.old.instant) × (self.new ≡ self.old) }
    {
        Ok(self.instant)
    }

    fn sleep(&mut self, _pause: Duration)
        ensures looks { Looks (seen_plain self.old) (seen_plain self.new) }
        ensures rest { self.new ≡ self.old }
    {}

    fn create(&mut self, name: &str) -> io::Result<MemFile>
        ensures makes { MakesFile name.now (seen_plain self.old) result (seen_plain self.new) }
        ensures name { Honestly (seen_plain self.old).honest (λ _.
            IfOk result (λ file. opened_as file ≡ name.now)) }
        ensures current { Honestly (seen_plain self.old).honest (λ _.
            IfOk result (λ file. Unit {0})) }
        ensures causes { HasNoScript self.old.folder →
            IfErr result (λ error. error_kind error ≡ ErrorKind.OutOfMemory) }
        ensures keeps { Keeps self.old self.new }
    {
        let file = MemFile {
            name: String::from_str(self.alloc, name)?,
        };
        touch(&mut self.log, self.alloc, Sub::Tmp, name)?;
        keep(&mut self.durable, &self.folder)?;
        match self.folder.write(name, &[]) {
            Ok(()) => Ok(file),
            Err(fault) => Err(error_of(fault)),
        }
    }

    fn append(&mut self, file: &mut MemFile, bytes: &[u8]) -> io::Result<usize>
        ensures most { IfOk result (λ n. n ≤ length bytes.now) }
        ensures appends { AppendsToFile (opened_as file.old) (Unit {0}) bytes.now
            (seen_plain self.old) result (seen_plain self.new) }
        ensures name { opened_as file.new ≡ opened_as file.old }
        ensures current { Honestly (seen_plain self.old).honest (λ _. Unit {0} → Unit {0}) }
        ensures causes { HasNoScript self.old.folder →
            IfErr result (λ error. (error_kind error ≡ ErrorKind.OutOfMemory)
            × IsSome (get (files_of self.old.folder).tmp (opened_as file.old))) }
        ensures keeps { Keeps self.old self.new }
    {
        let taken = bytes.len() - bytes.len() / 2;
        let Some(held) = self.folder.bytes_of(Sub::Tmp, file.name.as_str()) else {
            return Ok(taken);
        };
        let holds = joined(self.alloc, held, &bytes[..taken])?;
        keep(&mut self.durable, &self.folder)?;
        match self.folder.write(file.name.as_str(), &holds) {
            Ok(()) => Ok(taken),
            Err(fault) => Err(error_of(fault)),
        }
    }

    fn sync_file(&mut self, _file: &MemFile) -> io::Result<()>
        ensures looks { Looks (seen_plain self.old) (seen_plain self.new) }
        ensures kept { Honestly (seen_plain self.old).honest (λ spared. Unit {0} →
            OnOk result (KeepsHeld spared (opened_as _file.now) (files_of self.new.folder)
            (found_in self.new))) }
        ensures syncs { IsOk result × (self.new ≡ record self.old { durable = None }) }
    {
        self.sync();
        Ok(())
    }

    fn rename(&mut self, name: &str, place: Place, target: &str) -> io::Result<()>
        ensures places { TakesFromTmp (Placing name.now place target.now) (seen_plain self.old)
            result (seen_plain self.new) }
        ensures gone { Honestly (seen_plain self.old).honest (λ spared.
            IfErr result (λ error. error_kind error ≡ NotFound →
            WasGone spared name.now (Placing name.now place target.now)
            (files_of self.old.folder) (files_of self.new.folder))) }
        ensures causes { HasNoScript self.old.folder →
            IfErr result (λ error. (error_kind error ≡ ErrorKind.OutOfMemory)
            ⊎ ((error_kind error ≡ NotFound)
            × IsNone (get (files_of self.old.folder).tmp name.now))) }
        ensures keeps { Keeps self.old self.new }
    {
        touch(&mut self.log, self.alloc, Sub::Tmp, name)?;
        touch(&mut self.log, self.alloc, Sub::of_place(place), target)?;
        keep(&mut self.durable, &self.folder)?;
        match self.folder.place(name, place, target) {
            Ok(()) => Ok(()),
            Err(fault) => Err(error_of(fault)),
        }
    }

    fn unlink(&mut self, name: &str) -> io::Result<()>
        ensures removes { TakesFromTmp (Removing name.now) (seen_plain self.old) result
            (seen_plain self.new) }
        ensures causes { HasNoScript self.old.folder →
            IfErr result (λ error. error_kind error ≡ ErrorKind.OutOfMemory) }
        ensures keeps { Keeps self.old self.new }
    {
        touch(&mut self.log, self.alloc, Sub::Tmp, name)?;
        keep(&mut self.durable, &self.folder)?;
        match self.folder.remove(name) {
            Ok(()) => Ok(()),
            Err(fault) => Err(error_of(fault)),
        }
    }

    fn sync_folder(&mut self, _place: Place) -> io::Result<()>
        ensures asks { Asks (seen_plain self.old) result (seen_plain self.new) }
        ensures names { Honestly (seen_plain self.old).honest (λ spared.
            OnOk result
            (Follows (λ before left.
            KeepsNames spared (folder_of_place _place) (files_of self.old.folder) before
            (files_of self.new.folder) left)
            (found_in self.old) (found_in self.new))) }
        ensures syncs { IsOk result × (self.new ≡ record self.old { durable = None }) }
    {
        self.sync();
        Ok(())
    }

    fn sync_root(&mut self) -> io::Result<()>
        ensures asks { Asks (seen_plain self.old) result (seen_plain self.new) }
        ensures rooted { Honestly (seen_plain self.old).honest (λ _.
            OnOk result (seen_plain self.new).rooted) }
        ensures syncs { IsOk result
            × (self.new ≡ record self.old { durable = None; is_rooted = true }) }
    {
        self.is_rooted = true;
        self.sync();
        Ok(())
    }
}
