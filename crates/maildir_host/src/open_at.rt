// A folder that is opened at a path of the machine.
ghost use Rattle.std.specs.Prelude.{◌≡◌, IfErr, IfOk};
ghost use Rattle.maildir_host.specs.Paths.{root_of};

use crate::host::Host;
use maildir_calls::MaildirAt;
use maildir_disk::{DiskFolder, OpenFault};
use maildir_run::{Folder, FolderFault};
use std::alloc::Global;
use std::fs::File;
use std::rt::{Clock, Files};

/// A folder that can be opened at a path.
pub trait OpenAt<'a, R>: Sized {
    /// Opens the Maildir at `path`, as [`MaildirAt::open`] does.
    fn open_at(rt: &'a R, alloc: Global, path: &str) -> Result<Self, OpenFault>;
}

impl<'a, R: Files<File = File> + Clock> OpenAt<'a, R> for DiskFolder<MaildirAt<Host<'a, R>, File>> {
    fn open_at(rt: &'a R, alloc: Global, path: &str) -> Result<Self, OpenFault>
        ensures path { IfOk result (λ folder. root_of folder ≡ path.now) }
        ensures calls { IfOk result (λ folder.
            (⟦<DiskFolder<MaildirAt<Host<'a, R>, File>> as Folder>⟧.at folder).calls ≡ 0) }
        ensures failures { IfOk result (λ folder.
            (⟦<DiskFolder<MaildirAt<Host<'a, R>, File>> as Folder>⟧.at folder).failures ≡ 0) }
        ensures not_absent { IfErr result
            (λ fault. ¬ (fault ≡ OpenFault.Folder FolderFault.Absent)) }
    {
        match MaildirAt::open(Host::new(rt, alloc), alloc, path) {
            Ok(system) => Ok(DiskFolder::new(system)),
            Err((_, fault)) => Err(fault),
        }
    }
}
