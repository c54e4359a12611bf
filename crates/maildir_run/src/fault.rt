// Why a call of this crate ended early.
ghost use Rattle.std.specs.Prelude.{◌≡◌};
ghost use Rattle.maildir_run.specs.declared.fault.RunFault.TheVariants.{OutOfMemory};

use maildir_name::NameFault;
use std::alloc::{AllocError, AllocFailed};
use thiserror::Error;

/// Why a call of this crate ended before its work was done.
#[derive(Clone, Copy, Debug, Drop, Error, PartialEq, Eq)]
pub enum RunFault {
    /// The text is not empty and does not begin with `From `. No folder call was made and nothing
    /// was written.
    #[error("no From line at the start")]
    NoFromLine,
    /// The source failed.
    #[error("the source could not be read")]
    ReadFault,
    /// All allowed reads were made, and none reached the end.
    #[error("too many reads")]
    TooManyReads,
    /// A placement found no file in `tmp`.
    #[error("a file in tmp is gone")]
    FolderAbsent,
    /// The folder call of this number in the run, counted from 1, failed.
    #[error("folder call {0} failed")]
    FolderFailed(u64),
    /// The writer failed, or took no byte though some were offered.
    #[error("the output could not be written")]
    OutputFault,
    /// An allocation failed.
    #[error("out of memory")]
    OutOfMemory,
}

impl From<AllocError> for RunFault {
    ghost from_gives = { λ _ fault. fault ≡ OutOfMemory };

    fn from(_error: AllocError) -> RunFault {
        RunFault::OutOfMemory
    }
}

impl From<NameFault> for RunFault {
    ghost from_gives = { λ _ fault. fault ≡ OutOfMemory };

    fn from(_fault: NameFault) -> RunFault {
        RunFault::OutOfMemory
    }
}

impl<T: Drop> From<AllocFailed<T>> for RunFault {
    ghost from_gives = { λ _ fault. fault ≡ OutOfMemory };

    fn from(_error: AllocFailed<T>) -> RunFault {
        RunFault::OutOfMemory
    }
}
