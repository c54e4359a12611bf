// The faults of system calls that failed.
ghost use Rattle.std.specs.Prelude.{◌≡◌, ◌⊎◌, ◌↔◌, IfErr, IfOk, OnErr, IsErr, IsTrue};
ghost use Rattle.maildir_run.specs.Calls.{IsNotAbsent};
ghost use Rattle.maildir_run.specs.declared.folder.FolderFault.TheVariants.{Failed, OutOfMemory};
ghost use Rattle.maildir_disk.specs.Faults.{IsFailedAllocation};
ghost use Rattle.maildir_disk.specs.declared.faults.OpenFault.TheVariants.{Folder};

use maildir_run::FolderFault;
use std::io;
use std::io::ErrorKind;
use thiserror::Error;

/// Why a Maildir was not opened.
#[derive(Clone, Copy, Debug, Drop, Error, PartialEq, Eq)]
pub enum OpenFault {
    /// Another program holds its lock.
    #[error("the Maildir is locked")]
    Locked,
    /// A folder of it could not be opened or made, or an allocation failed.
    #[error("{0}")]
    Folder(FolderFault),
}

impl From<io::Error> for OpenFault {
    ghost from_gives = { λ error given. (IsFailedAllocation error × (given ≡ Folder OutOfMemory))
        ⊎ (¬ IsFailedAllocation error × (given ≡ Folder Failed)) };

    fn from(error: io::Error) -> OpenFault {
        OpenFault::Folder(fault_of(&error))
    }
}

/// The fault of a call that failed.
pub(crate) fn answer_of<T>(outcome: io::Result<T>) -> Result<T, FolderFault>
    ensures ok { IfOk outcome (λ value. result ≡ Ok value) }
    ensures allocation { IfErr outcome (λ error. IsFailedAllocation error →
        result ≡ Err FolderFault.OutOfMemory) }
    ensures others { IfErr outcome (λ error. ¬ IsFailedAllocation error →
        result ≡ Err FolderFault.Failed) }
    ensures err { OnErr outcome (IsErr result) }
    ensures not_absent { IsNotAbsent result }
{
    outcome.map_err(|error| fault_of(&error))
}

// The fault of an error.
fn fault_of(error: &io::Error) -> FolderFault
    ensures allocation { IsFailedAllocation error.now → result ≡ OutOfMemory }
    ensures others { ¬ IsFailedAllocation error.now → result ≡ Failed }
{
    if is_failed_allocation(error) {
        FolderFault::OutOfMemory
    } else {
        FolderFault::Failed
    }
}

/// Whether an allocation of ours failed: the error is of the kind `OutOfMemory`, and has no errno.
pub fn is_failed_allocation(error: &io::Error) -> bool
    ensures { IsTrue result ↔ IsFailedAllocation error.now }
{
    error.kind() == ErrorKind::OutOfMemory && error.raw_os_error().is_none()
}
