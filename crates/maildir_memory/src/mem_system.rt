// The system calls of a Maildir in memory.
ghost use Rattle.std.specs.Prelude.{◌≡◌, ◌++◌, [], IfErr, IfOk, false, true};
ghost use Rattle.std.specs.IoError.{error_kind};
ghost use Rattle.std.specs.declared.io.ErrorKind.TheVariants.{OutOfMemory};
ghost use Rattle.maildir_disk.specs.SeenSystem.{no_system};
ghost use Rattle.maildir_run.specs.MemFolder.{IsQuiet, files_of};

use crate::cases::{Cases, Change};
use crate::faults::error_of;
use crate::log::{Touched, touch};
use crate::stamps::{Stamps, begin, stamp_at};
use crate::turn_act::TurnAct;
use maildir_disk::System;
use maildir_name::Place;
use maildir_run::{Folder, MemFolder, Sub};
use std::alloc::Global;
use std::io;
use std::time::{Duration, Instant, SystemTime};

mod cuts;
mod turns;

/// A file of `tmp` in memory that is open for writing.
#[derive(Drop)]
pub struct MemFile {
    pub(crate) name: String,
}

/// A Maildir in memory, with clocks. Each call but `rename` and `unlink` pops one turn and performs
/// its acts, which are other programs'. A listing of a folder that changes meanwhile returns no
/// names, and a write takes half of its bytes.
///
/// After [`lose`](MemSystem::lose), a power cut may lose each change that was not synced: a file
/// that was made, the appended bytes after any prefix, a rename, half of another program's act.
/// Until the Maildir is synced, it may lose all of it.
#[derive(Drop)]
pub struct MemSystem {
    alloc: Global,
    folder: MemFolder,
    stamps: Stamps,
    clock: SystemTime,
    instant: Instant,
    // the stamp of each of the three folders
    stamp: SystemTime,
    turns: Vec<Vec<TurnAct>>,
    // what a power cut may leave, besides the files as they are
    cases: Cases,
    is_rooted: bool,
    // how many calls work, before each one fails
    calls_left: u64,
    // how many syncs of folders work, before one fails
    syncs_left: u64,
    sync_failed: bool,
    // the files that its calls touched
    log: Vec<Touched>,
}

impl MemSystem {
    /// A Maildir that was last changed at this time of its clock. A power cut loses nothing of it.
    pub fn new(
        alloc: Global,
        mut folder: MemFolder,
        stamps: Stamps,
        clock: SystemTime,
        instant: Instant,
        turns: Vec<Vec<TurnAct>>,
    ) -> Self
        ensures folder { (files_of result.folder ≡ files_of folder) × IsQuiet result.folder }
        ensures keeps { (result.cases.folders.items ≡ []) × (result.cases.room ≡ 0) }
        ensures untouched { result.log.items ≡ [] }
        ensures rest { result ≡ record {
          alloc = alloc;
          folder = result.folder;
          stamps = stamps;
          clock = clock;
          instant = instant;
          stamp = clock;
          turns = turns;
          cases = result.cases;
          is_rooted = true;
          calls_left = 18446744073709551615;
          syncs_left = 18446744073709551615;
          sync_failed = false;
          log = result.log;
        } }
    {
        folder.script(Vec::new(alloc), None);
        MemSystem {
            alloc,
            folder,
            stamps,
            clock,
            instant,
            stamp: clock,
            turns,
            cases: Cases::none(alloc),
            is_rooted: true,
            calls_left: u64::MAX,
            syncs_left: u64::MAX,
            sync_failed: false,
            log: Vec::new(alloc),
        }
    }

    /// This many calls work, and from then on each one fails without effect. Sleeping is no call.
    pub fn fail_after(&mut self, calls: u64)
        ensures { self.new ≡ record self.old { calls_left = calls } }
    {
        self.calls_left = calls;
    }

    /// This many syncs of folders work. The next one fails, and each after it returns Ok but keeps
    /// nothing, as Linux reports a writeback error once.
    pub fn fail_sync_after(&mut self, syncs: u64)
        ensures { self.new ≡ record self.old { syncs_left = syncs } }
    {
        self.syncs_left = syncs;
    }

    // Whether a sync keeps what it is asked for.
    fn is_kept(&mut self) -> io::Result<bool> {
        if self.sync_failed {
            return Ok(false);
        }
        let outcome = begin(&mut self.syncs_left);
        self.sync_failed = outcome.is_err();
        outcome.map(|()| true)
    }

    /// The files as they are.
    pub fn folder(&self) -> &MemFolder
        ensures { result.now ≡ self.now.folder }
    {
        &self.folder
    }

    /// The files that its calls touched until now, in order.
    pub fn touched(&self) -> &[Touched]
        ensures { result.now ≡ self.now.log.items }
    {
        self.log.as_slice()
    }
}

// No proof says that it does as assumed: `PlainSystem` is proved to do so.
impl System for MemSystem {
    type File = MemFile;

    ghost at = { λ _. no_system };

    ghost name_of = { λ _. [] };

    ghost is_current = { λ _ _. ⊥ };

    ghost quiet_is_honest = { λ _ _ quiet. quiet };

    ghost fewer_honest = { λ _ _ _ _ honest. honest };

    ghost may_stay = { λ _ _ honest. honest };

    fn names(&mut self, sub: Sub) -> io::Result<Vec<String>> {
        let stamp = self.stamp;
        let names = self.folder.list(sub).map_err(error_of)?;
        self.pass_shortly()?;
        match self.stamp.duration_since(stamp) {
            Ok(later) if !later.is_zero() => Ok(Vec::new(self.alloc)),
            _ => Ok(names),
        }
    }

    fn stamp(&mut self, _sub: Sub) -> io::Result<SystemTime> {
        let stamp = self.stamp;
        self.pass_shortly()?;
        Ok(stamp)
    }

    fn now(&mut self) -> io::Result<SystemTime> {
        self.pass_shortly()?;
        Ok(self.clock)
    }

    fn instant(&mut self) -> io::Result<Instant> {
        self.pass_shortly()?;
        Ok(self.instant)
    }

    fn sleep(&mut self, pause: Duration) {
        let _ = self.pass(pause);
    }

    fn create(&mut self, name: &str) -> io::Result<MemFile> {
        let file = MemFile {
            name: String::from_str(self.alloc, name)?,
        };
        self.pass_shortly()?;
        touch(&mut self.log, self.alloc, Sub::Tmp, name)?;
        self.cases
            .may_lose(&self.folder, &Change::Make(name))
            .map_err(error_of)?;
        self.stamp = stamp_at(self.clock, self.stamps);
        self.folder.write(name, &[]).map_err(error_of)?;
        Ok(file)
    }

    fn append(&mut self, file: &mut MemFile, bytes: &[u8]) -> io::Result<usize> {
        self.pass_shortly()?;
        let taken = bytes.len() - bytes.len() / 2;
        let Some(held) = self.folder.bytes_of(Sub::Tmp, file.name.as_str()) else {
            return Ok(taken);
        };
        let before = held.len();
        let holds = joined(self.alloc, held, &bytes[..taken])?;
        self.cases
            .may_lose_bytes(&self.folder, file.name.as_str(), &holds, before)
            .map_err(error_of)?;
        self.folder
            .write(file.name.as_str(), &holds)
            .map_err(error_of)?;
        Ok(taken)
    }

    fn sync_file(&mut self, file: &MemFile) -> io::Result<()> {
        self.pass_shortly()?;
        self.cases.keep_file(&self.folder, file.name.as_str());
        Ok(())
    }

    fn rename(&mut self, name: &str, place: Place, target: &str) -> io::Result<()> {
        begin(&mut self.calls_left)?;
        touch(&mut self.log, self.alloc, Sub::Tmp, name)?;
        touch(&mut self.log, self.alloc, Sub::of_place(place), target)?;
        self.cases
            .may_lose(&self.folder, &Change::Place(name, place, target))
            .map_err(error_of)?;
        self.stamp = stamp_at(self.clock, self.stamps);
        self.folder.place(name, place, target).map_err(error_of)
    }

    fn unlink(&mut self, name: &str) -> io::Result<()> {
        begin(&mut self.calls_left)?;
        touch(&mut self.log, self.alloc, Sub::Tmp, name)?;
        self.cases
            .may_lose(&self.folder, &Change::Remove(name))
            .map_err(error_of)?;
        self.stamp = stamp_at(self.clock, self.stamps);
        self.folder.remove(name).map_err(error_of)
    }

    fn sync_folder(&mut self, place: Place) -> io::Result<()> {
        self.pass_shortly()?;
        if self.is_kept()? {
            self.cases.keep_names(&self.folder, Sub::of_place(place));
        }
        Ok(())
    }

    fn sync_root(&mut self) -> io::Result<()> {
        self.pass_shortly()?;
        if self.is_kept()? {
            self.is_rooted = true;
        }
        Ok(())
    }
}

pub(crate) fn joined(alloc: Global, prefix: &[u8], rest: &[u8]) -> io::Result<Vec<u8>>
    ensures joins { IfOk result (λ bytes. bytes.items ≡ prefix.now ++ rest.now) }
    ensures causes { IfErr result (λ error. error_kind error ≡ OutOfMemory) }
{
    let mut bytes = Vec::from_slice(alloc, prefix)?;
    bytes.extend_from_slice(rest)?;
    Ok(bytes)
}
