// What the answers of calls mean.
ghost use Rattle.std.specs.Prelude.{◌≡◌, ◌↔◌, IfErr, IsTrue, OnOk};
ghost use Rattle.std.specs.IoError.{error_kind};
ghost use Rattle.maildir_calls.specs.Answers.{HasNoLocks, HasNoSync, LeavesOut, Locks};

use crate::own::Facts;
use maildir_disk::OpenFault;
use maildir_run::FolderFault;
use std::io;
use std::io::ErrorKind;

/// The error of a rename(2) that found nothing. A look at the file to be moved decides: if the look
/// failed too, the error is that of the look. If the file is there, the folder to move it to is
/// missing, and the error is of the kind `Other`.
pub(crate) fn not_moved(found: io::Result<Facts>) -> io::Error
    ensures folder { OnOk found (error_kind result ≡ ErrorKind.Other) }
    ensures file { IfErr found (λ error. result ≡ error) }
{
    match found {
        Ok(_) => io::Error::other("the folder to move to is gone"),
        Err(error) => error,
    }
}

/// The result of a folder's sync: Ok also if the file system has no sync for folders (fsync(2):
/// EINVAL, EROFS).
pub(crate) fn synced_if_possible(outcome: io::Result<()>) -> io::Result<()>
    ensures { LeavesOut HasNoSync outcome result }
{
    match outcome {
        Err(error) if has_no_sync(&error) => Ok(()),
        outcome => outcome,
    }
}

fn has_no_sync(error: &io::Error) -> bool
    ensures { IsTrue result ↔ HasNoSync error.now }
{
    matches!(
        error.kind(),
        ErrorKind::InvalidInput | ErrorKind::ReadOnlyFilesystem
    )
}

/// The result of an attempt to lock a Maildir: Ok also if the file system has no locks.
///
/// Errors: [`OpenFault::Locked`] if another program holds the lock.
pub(crate) fn locked(outcome: io::Result<()>) -> Result<(), OpenFault>
    ensures locks { Locks outcome result }
    ensures not_absent { IfErr result (λ fault. ¬ (fault ≡ OpenFault.Folder FolderFault.Absent)) }
{
    match outcome {
        Ok(()) => Ok(()),
        Err(error) if error.kind() == ErrorKind::WouldBlock => Err(OpenFault::Locked),
        Err(error) if has_no_locks(&error) => Ok(()),
        Err(error) => Err(OpenFault::from(error)),
    }
}

// Whether there are no locks: EBADF (from a network file system that locks only files open for
// writing), ENOLCK, ENOSYS or EOPNOTSUPP.
fn has_no_locks(error: &io::Error) -> bool
    ensures { IsTrue result ↔ HasNoLocks error.now }
{
    matches!(error.raw_os_error(), Some(9 | 37 | 38 | 95))
}
