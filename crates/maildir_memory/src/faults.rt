// The errors of system calls in memory.
ghost use Rattle.std.specs.Prelude.{◌≡◌, ◌↔◌};
ghost use Rattle.std.specs.IoError.{error_kind};
ghost use Rattle.std.specs.declared.io.ErrorKind.TheVariants.{NotFound, OutOfMemory};

use maildir_run::FolderFault;
use std::io;
use std::io::ErrorKind;

/// The error of a system in memory for this fault of its folder.
pub(crate) fn error_of(fault: FolderFault) -> io::Error
    ensures absent { (error_kind result ≡ NotFound) ↔ (fault ≡ FolderFault.Absent) }
    ensures memory { (error_kind result ≡ OutOfMemory) ↔ (fault ≡ FolderFault.OutOfMemory) }
{
    io::Error::from(match fault {
        FolderFault::Absent => ErrorKind::NotFound,
        FolderFault::Failed => ErrorKind::Other,
        FolderFault::OutOfMemory => ErrorKind::OutOfMemory,
    })
}
