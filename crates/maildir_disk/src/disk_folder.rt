// A Maildir on a file system, as a folder for runs.
ghost use Rattle.std.specs.Prelude.{◌≡◌, IfErr, IsErrOf, IsFalse, IsTrue, OnErr, OnOk, is_err};
ghost use Rattle.std.specs.IoError.{error_kind};
ghost use Rattle.maildir_run.specs.Calls.{IsNotAbsent};
ghost use Rattle.maildir_run.specs.Calls.Call.{Placing, Removing, Writing};
ghost use Rattle.maildir_run.specs.Cuts.{Follows};
ghost use Rattle.maildir_run.specs.Files.{Honestly};
ghost use Rattle.maildir_run.specs.Folders.{folder_of_place};
ghost use Rattle.maildir_run.specs.Seen.{CallOf, ListingOf};
ghost use Rattle.maildir_disk.specs.Placing.{WasGone};
ghost use Rattle.maildir_disk.specs.PowerCuts.{KeepsNames};
ghost use Rattle.maildir_disk.specs.Private.Effects.{Counts, SameCounts, TakesEffect};
ghost use Rattle.maildir_disk.specs.Private.OneMoment.{ReadsDurably};
ghost use Rattle.maildir_disk.specs.Seen.{StaysFailed, SyncsMaildir, seen_of, system_of};
ghost use Rattle.maildir_disk.specs.SeenSystem.{Looks};

use crate::faults::answer_of;
use crate::one_moment::names_of_one_moment;
use crate::system::System;
use crate::writing::write_synced;
use maildir_name::Place;
use maildir_run::{Folder, FolderFault, Sub};
use std::io;
use std::io::ErrorKind;

/// A Maildir on a file system (maildir(5)). If the system does what is assumed, each call has the
/// effect that it reports. After a failed sync of a folder, each call answers a fault, and makes no
/// call of the system.
#[derive(Drop)]
pub struct DiskFolder<S> {
    system: S,
    // A sync of a folder has failed. No call of the system is made any more: Linux reports a
    // writeback error once, so that the next fsync may return Ok though data is lost.
    sync_failed: bool,
    // No code reads these two. Contracts compare them, to say how many calls a run made, and that a
    // fault has its one failed call. With 128 bits they never wrap around.
    calls: u128,
    failures: u128,
}

impl<S: System> DiskFolder<S> {
    /// The Maildir of this system. Makes no call.
    pub fn new(system: S) -> Self
        ensures system { result.system ≡ system }
        ensures calls { (⟦<DiskFolder<S> as Folder>⟧.at result).calls ≡ 0 }
        ensures failures { (⟦<DiskFolder<S> as Folder>⟧.at result).failures ≡ 0 }
    {
        DiskFolder {
            system,
            sync_failed: false,
            calls: 0,
            failures: 0,
        }
    }

    /// Returns the system.
    pub fn into_system(self) -> S
        ensures { result ≡ self.system }
    {
        self.system
    }

    /// fsync(2) of `new`, `cur`, the Maildir and its parent, so that no power cut undoes a
    /// placement that answered Ok. It is not one of the folder's calls, and is not counted.
    ///
    /// Errors: [`FolderFault::Failed`] if one of the four could not be synced, or if a sync of a
    /// folder failed before, here or in a listing; [`FolderFault::OutOfMemory`] if an allocation
    /// failed.
    pub fn sync(&mut self) -> Result<(), FolderFault>
        ensures syncs { SyncsMaildir (system_of S.System self.old) result
            (system_of S.System self.new) }
        ensures none_failed { OnOk result (IsFalse self.new.sync_failed) }
        ensures fails { OnErr result (IsTrue self.new.sync_failed) }
        ensures failed { StaysFailed self.old result self.new }
        ensures calls { self.new.calls ≡ self.old.calls }
        ensures failures { self.new.failures ≡ self.old.failures }
        ensures not_absent { IsNotAbsent result }
    {
        answer_of(self.sync_all())
    }

    #[tactic(auto, using(crate::proofs::Calls::Refused::failed_rules))]
    fn sync_all(&mut self) -> io::Result<()>
        ensures syncs { SyncsMaildir (system_of S.System self.old) result
            (system_of S.System self.new) }
        ensures none_failed { OnOk result (IsFalse self.new.sync_failed) }
        ensures fails { OnErr result (IsTrue self.new.sync_failed) }
        ensures failed { StaysFailed self.old result self.new }
        ensures counts { SameCounts self.old self.new }
    {
        self.may_call()?;
        self.sync_folder(Place::New)?;
        self.sync_folder(Place::Cur)?;
        self.sync_root()
    }

    // fsync(2) of `new` or `cur`.
    fn sync_folder(&mut self, place: Place) -> io::Result<()>
        requires { IsFalse self.old.sync_failed }
        ensures looks { Looks (system_of S.System self.old) (system_of S.System self.new) }
        ensures names { Honestly (system_of S.System self.old).honest (λ spared.
            OnOk result (Follows (λ before left.
            KeepsNames spared (folder_of_place place) (S.at self.old.system).world.files before
            (S.at self.new.system).world.files left)
            (S.at self.old.system).may_leave (S.at self.new.system).may_leave)) }
        ensures failed { self.new.sync_failed ≡ is_err result }
        ensures counts { SameCounts self.old self.new }
    {
        let outcome = self.system.sync_folder(place);
        self.remember(outcome)
    }

    // fsync(2) of the Maildir and its parent.
    fn sync_root(&mut self) -> io::Result<()>
        requires { IsFalse self.old.sync_failed }
        ensures looks { Looks (system_of S.System self.old) (system_of S.System self.new) }
        ensures rooted { Honestly (system_of S.System self.old).honest (λ _.
            OnOk result (S.at self.new.system).rooted) }
        ensures failed { self.new.sync_failed ≡ is_err result }
        ensures counts { SameCounts self.old self.new }
    {
        let outcome = self.system.sync_root();
        self.remember(outcome)
    }

    // Remembers whether this sync failed.
    fn remember(&mut self, outcome: io::Result<()>) -> io::Result<()>
        ensures same { result ≡ outcome }
        ensures failed { self.new ≡ record self.old { sync_failed = is_err outcome } }
    {
        self.sync_failed = outcome.is_err();
        outcome
    }

    // An error if a sync has failed: then no call is made.
    fn may_call(&self) -> io::Result<()>
        ensures none_failed { OnOk result (IsFalse self.now.sync_failed) }
        ensures failed { self.now.sync_failed ≡ is_err result }
        ensures kind { IfErr result (λ error. error_kind error ≡ ErrorKind.Other) }
    {
        if self.sync_failed {
            Err(io::Error::from(ErrorKind::Other))
        } else {
            Ok(())
        }
    }

    // The names of one moment. If the folder can have messages, it is synced after its names were
    // read. A file that a mail reader deleted, and that the names do not show, is then gone from
    // the disk too, so that no power cut brings it back beside the one that a run places.
    #[tactic(auto, using(crate::proofs::Calls::Refused::failed_rules))]
    fn durable_names(&mut self, sub: Sub) -> io::Result<Vec<String>>
        ensures reads { ReadsDurably sub (system_of S.System self.old) result
            (system_of S.System self.new) }
        ensures failed { StaysFailed self.old result self.new }
        ensures counts { SameCounts self.old self.new }
    {
        self.may_call()?;
        let names = names_of_one_moment(&mut self.system, sub)?;
        match sub {
            Sub::Tmp => {}
            Sub::New => self.sync_folder(Place::New)?,
            Sub::Cur => self.sync_folder(Place::Cur)?,
        }
        Ok(names)
    }

    // Writes and syncs a file of `tmp`.
    #[tactic(auto, using(crate::proofs::Calls::Refused::failed_rules))]
    fn write_file(&mut self, name: &str, bytes: &[u8]) -> io::Result<()>
        ensures did { TakesEffect (Writing name.now bytes.now) (system_of S.System self.old) result
            (system_of S.System self.new) }
        ensures failed { StaysFailed self.old result self.new }
        ensures counts { SameCounts self.old self.new }
    {
        self.may_call()?;
        write_synced(&mut self.system, name, bytes)
    }

    // Moves a file out of `tmp`.
    #[tactic(auto, using(crate::proofs::Calls::Refused::failed_rules))]
    fn rename(&mut self, name: &str, place: Place, target: &str) -> io::Result<()>
        ensures did { TakesEffect (Placing name.now place target.now)
            (system_of S.System self.old) result (system_of S.System self.new) }
        ensures gone { Honestly (system_of S.System self.old).honest (λ spared.
            IfErr result (λ error. error_kind error ≡ ErrorKind.NotFound →
            WasGone spared name.now (Placing name.now place target.now)
            (S.at self.old.system).world.files (S.at self.new.system).world.files)) }
        ensures failed { StaysFailed self.old result self.new }
        ensures counts { SameCounts self.old self.new }
    {
        self.may_call()?;
        self.system.rename(name, place, target)
    }

    // Removes a file of `tmp`.
    #[tactic(auto, using(crate::proofs::Calls::Refused::failed_rules))]
    fn unlink(&mut self, name: &str) -> io::Result<()>
        ensures did { TakesEffect (Removing name.now) (system_of S.System self.old) result
            (system_of S.System self.new) }
        ensures failed { StaysFailed self.old result self.new }
        ensures counts { SameCounts self.old self.new }
    {
        self.may_call()?;
        self.system.unlink(name)
    }

    // Counts a call with this answer.
    fn count_call<T>(&mut self, answer: Result<T, FolderFault>) -> Result<T, FolderFault>
        ensures { Counts answer self.old result self.new }
    {
        self.calls = self.calls.wrapping_add(1);
        if let Err(FolderFault::Absent | FolderFault::Failed) = answer {
            self.failures = self.failures.wrapping_add(1);
        }
        answer
    }
}

impl<S: System> Folder for DiskFolder<S> {
    ghost at = { seen_of S.System };

    fn list(&mut self, sub: Sub) -> Result<Vec<String>, FolderFault>
        ensures lists { ListingOf sub (seen_of S.System self.old) result
            (seen_of S.System self.new) }
        ensures failed { StaysFailed self.old result self.new }
    {
        let answer = answer_of(self.durable_names(sub));
        self.count_call(answer)
    }

    fn write(&mut self, name: &str, bytes: &[u8]) -> Result<(), FolderFault>
        ensures writes { CallOf (Writing name.now bytes.now)
            (seen_of S.System self.old) result (seen_of S.System self.new) }
        ensures failed { StaysFailed self.old result self.new }
    {
        let answer = answer_of(self.write_file(name, bytes));
        self.count_call(answer)
    }

    fn place(&mut self, name: &str, place: Place, target: &str) -> Result<(), FolderFault>
        ensures places { CallOf (Placing name.now place target.now)
            (seen_of S.System self.old) result (seen_of S.System self.new) }
        ensures gone { Honestly (seen_of S.System self.old).honest (λ spared.
            IsErrOf result FolderFault.Absent →
            WasGone spared name.now (Placing name.now place target.now)
            (S.at self.old.system).world.files
            (S.at self.new.system).world.files) }
        ensures failed { StaysFailed self.old result self.new }
    {
        let answer = match self.rename(name, place, target) {
            Err(error) if error.kind() == ErrorKind::NotFound => Err(FolderFault::Absent),
            outcome => answer_of(outcome),
        };
        self.count_call(answer)
    }

    fn remove(&mut self, name: &str) -> Result<(), FolderFault>
        ensures removes { CallOf (Removing name.now)
            (seen_of S.System self.old) result (seen_of S.System self.new) }
        ensures failed { StaysFailed self.old result self.new }
    {
        let answer = answer_of(self.unlink(name));
        self.count_call(answer)
    }

    ghost quiet_is_honest = { λ folder spared quiet none.
        S.quiet_is_honest folder.system spared (quiet none) };

    ghost fewer_honest = { λ folder fewer more within honest none.
        S.fewer_honest folder.system fewer more within (honest none) };
}
