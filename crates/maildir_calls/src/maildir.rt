// A Maildir that is open.
ghost use Rattle.std.specs.Prelude.{◌≡◌, ◌≤◌, ◌∷◌, [], IfErr, IfOk, length, string_bytes};
ghost use Rattle.maildir_run.specs.Calls.Call.{Placing, Removing};
ghost use Rattle.maildir_run.specs.Folders.{folder_of_place};
ghost use Rattle.maildir_disk.specs.SeenSystem.{AppendsToFile, Asks, Looks, MakesFile, TakesFromTmp};
ghost use Rattle.maildir_disk.specs.SeenSystem.{ReadsClock, ReadsFolder, ReadsStamp, no_system};
ghost use Rattle.maildir_calls.specs.Files.{CreatesFile, MovesFile, RemovesFile};
ghost use Rattle.maildir_calls.specs.Made.{MakesCall, Traces, listed};
ghost use Rattle.maildir_calls.specs.Made.Made.{ClockRead, InstantRead, Listed, Synced, Waited};
ghost use Rattle.maildir_calls.specs.Made.Made.{Written};
ghost use Rattle.maildir_calls.specs.Maildirs.{IsOpenAt, OrNoMemory, TellsStamp};
ghost use Rattle.maildir_calls.specs.Opening.{OpensAtPath};
ghost use Rattle.maildir_calls.specs.Paths.{file_at, folder_at, parent_at};
ghost use Rattle.maildir_calls.specs.Syncs.{SyncsFolder, SyncsRoot};

use crate::calls::Calls;
use crate::files::{create_file, move_file, remove_file};
use crate::opening::{Held, open_folders};
use crate::paths::Paths;
use crate::stamps::time_of_change;
use crate::syncs::{sync_folder, sync_root};
use maildir_disk::{OpenFault, System};
use maildir_name::Place;
use maildir_run::{FolderFault, Sub};
use std::alloc::Global;
use std::io;
use std::time::{Duration, Instant, SystemTime};

/// One open Maildir: the calls that `System` asks for, made of the calls of a file system.
#[derive(Drop)]
pub struct MaildirAt<C, F> {
    calls: C,
    paths: Paths,
    held: Held<F>,
}

impl<C: Calls + Drop> MaildirAt<C, C::File> {
    /// Opens the Maildir at `path`. The folder, and `tmp`, `new` and `cur` in it, are made with
    /// mode 0700 if they are missing. The parent of `path` must exist. If the folder is made, it
    /// must also be possible to open the parent, so that it can be synced. The folder stays locked
    /// while it is open, if the file system has locks for folders.
    ///
    /// Errors: [`OpenFault::Locked`] if another program holds the lock; nothing in the folder was
    /// read or changed. [`FolderFault::Failed`] if the Maildir cannot be opened to be locked, and
    /// then nothing in it was changed; or if one of the four is no folder and cannot be made.
    /// Folders that were made stay, except a Maildir whose parent cannot be opened.
    /// [`FolderFault::OutOfMemory`] if an allocation failed. The calls are returned beside the fault.
    pub fn open(mut calls: C, alloc: Global, path: &str) -> Result<Self, (C, OpenFault)>
        ensures opens { IfOk result (IsOpenAt path.now (C.trace calls) (λ made. C.trace made)) }
        ensures fails { IfErr result (λ failed.
            Traces (OpensAtPath path.now (Err failed.1)) (C.trace calls) (C.trace failed.0)) }
        ensures not_absent { IfErr result
            (λ failed. ¬ (failed.1 ≡ OpenFault.Folder FolderFault.Absent)) }
    {
        let paths = match Paths::new(alloc, path) {
            Ok(paths) => paths,
            Err(_) => return Err((calls, OpenFault::Folder(FolderFault::OutOfMemory))),
        };
        match open_folders(&mut calls, &paths) {
            Ok(held) => Ok(MaildirAt { calls, paths, held }),
            Err(fault) => Err((calls, fault)),
        }
    }

    /// Returns the calls.
    pub fn into_calls(self) -> C
        ensures { result ≡ self.calls }
    {
        self.calls
    }
}

// No proof knows what a file system does. Proved is only which calls are made.
impl<C: Calls> System for MaildirAt<C, C::File> {
    type File = C::File;

    ghost at = { λ _. no_system };

    ghost name_of = { λ _. [] };

    ghost is_current = { λ _ _. ⊥ };

    ghost quiet_is_honest = { λ _ _ quiet. quiet };

    ghost fewer_honest = { λ _ _ _ _ honest. honest };

    ghost may_stay = { λ _ _ honest. honest };

    fn names(&mut self, sub: Sub) -> io::Result<Vec<String>>
        ensures reads { ReadsFolder sub no_system result no_system }
        ensures kept { self.new ≡ record self.old { calls = self.new.calls } }
        ensures calls { Traces (OrNoMemory result (λ old new.
            new ≡ Listed (folder_at (string_bytes self.old.paths.root) sub) (listed result) ∷ old))
            (C.trace self.old.calls) (C.trace self.new.calls) }
    {
        let path = self.paths.folder(sub)?;
        self.calls.list(path.as_str())
    }

    #[tactic(auto, unfolding(crate::specs::Maildirs::TellsStamp))]
    fn stamp(&mut self, sub: Sub) -> io::Result<SystemTime>
        ensures reads { ReadsStamp sub no_system result no_system }
        ensures kept { self.new ≡ record self.old { calls = self.new.calls } }
        ensures calls { Traces (OrNoMemory result
            (TellsStamp (folder_at (string_bytes self.old.paths.root) sub) result))
            (C.trace self.old.calls) (C.trace self.new.calls) }
    {
        let path = self.paths.folder(sub)?;
        let found = self.calls.look(path.as_str())?;
        time_of_change(&found)
    }

    fn now(&mut self) -> io::Result<SystemTime>
        ensures reads { ReadsClock no_system result no_system }
        ensures kept { self.new ≡ record self.old { calls = self.new.calls } }
        ensures calls { MakesCall (ClockRead result) (C.trace self.old.calls)
            (C.trace self.new.calls) }
    {
        self.calls.now()
    }

    fn instant(&mut self) -> io::Result<Instant>
        ensures looks { Looks no_system no_system }
        ensures kept { self.new ≡ record self.old { calls = self.new.calls } }
        ensures calls { MakesCall (InstantRead result) (C.trace self.old.calls)
            (C.trace self.new.calls) }
    {
        self.calls.instant()
    }

    fn sleep(&mut self, pause: Duration)
        ensures looks { Looks no_system no_system }
        ensures kept { self.new ≡ record self.old { calls = self.new.calls } }
        ensures calls { MakesCall (Waited pause) (C.trace self.old.calls) (C.trace self.new.calls) }
    {
        self.calls.sleep(pause);
    }

    fn create(&mut self, name: &str) -> io::Result<C::File>
        ensures makes { MakesFile name.now no_system result no_system }
        ensures kept { self.new ≡ record self.old { calls = self.new.calls } }
        ensures calls { let root = string_bytes self.old.paths.root in
            Traces (OrNoMemory result
            (CreatesFile (folder_at root Sub.Tmp) (file_at root Sub.Tmp name.now) result))
            (C.trace self.old.calls) (C.trace self.new.calls) }
    {
        let folder = self.paths.folder(Sub::Tmp)?;
        let path = self.paths.file(Sub::Tmp, name)?;
        create_file(&mut self.calls, folder.as_str(), path.as_str())
    }

    fn append(&mut self, file: &mut C::File, bytes: &[u8]) -> io::Result<usize>
        ensures most { IfOk result (λ n. n ≤ length bytes.now) }
        ensures appends { AppendsToFile [] ⊥ bytes.now no_system result no_system }
        ensures kept { self.new ≡ record self.old { calls = self.new.calls } }
        ensures calls { MakesCall (Written file.old bytes.now result) (C.trace self.old.calls)
            (C.trace self.new.calls) }
    {
        self.calls.write(file, bytes)
    }

    fn sync_file(&mut self, file: &C::File) -> io::Result<()>
        ensures looks { Looks no_system no_system }
        ensures kept { self.new ≡ record self.old { calls = self.new.calls } }
        ensures calls { MakesCall (Synced file.now result) (C.trace self.old.calls)
            (C.trace self.new.calls) }
    {
        self.calls.sync(file)
    }

    fn rename(&mut self, name: &str, place: Place, target: &str) -> io::Result<()>
        ensures places { TakesFromTmp (Placing name.now place target.now) no_system result
            no_system }
        ensures kept { self.new ≡ record self.old { calls = self.new.calls } }
        ensures calls { let root = string_bytes self.old.paths.root in
            Traces (OrNoMemory result
            (MovesFile (file_at root Sub.Tmp name.now)
            (file_at root (folder_of_place place) target.now) result))
            (C.trace self.old.calls) (C.trace self.new.calls) }
    {
        let from = self.paths.file(Sub::Tmp, name)?;
        let to = self.paths.file(Sub::of_place(place), target)?;
        move_file(&mut self.calls, from.as_str(), to.as_str())
    }

    fn unlink(&mut self, name: &str) -> io::Result<()>
        ensures removes { TakesFromTmp (Removing name.now) no_system result no_system }
        ensures kept { self.new ≡ record self.old { calls = self.new.calls } }
        ensures calls { Traces (OrNoMemory result
            (RemovesFile (file_at (string_bytes self.old.paths.root) Sub.Tmp name.now) result))
            (C.trace self.old.calls) (C.trace self.new.calls) }
    {
        let path = self.paths.file(Sub::Tmp, name)?;
        remove_file(&mut self.calls, path.as_str())
    }

    fn sync_folder(&mut self, place: Place) -> io::Result<()>
        ensures asks { Asks no_system result no_system }
        ensures kept { self.new ≡ record self.old { calls = self.new.calls } }
        ensures calls { Traces (OrNoMemory result
            (SyncsFolder (folder_at (string_bytes self.old.paths.root) (folder_of_place place))
            result)) (C.trace self.old.calls) (C.trace self.new.calls) }
    {
        let path = self.paths.folder(Sub::of_place(place))?;
        sync_folder(&mut self.calls, path.as_str())
    }

    fn sync_root(&mut self) -> io::Result<()>
        ensures asks { Asks no_system result no_system }
        ensures kept { self.new ≡ record self.old { calls = self.new.calls } }
        ensures calls { let root = string_bytes self.old.paths.root in
            Traces (OrNoMemory result
            (SyncsRoot root (parent_at root) self.old.held.parent result))
            (C.trace self.old.calls) (C.trace self.new.calls) }
    {
        let above = self.paths.parent()?;
        sync_root(
            &mut self.calls,
            self.paths.root(),
            above.as_str(),
            &self.held.parent,
        )
    }
}
