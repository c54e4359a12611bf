// Why a command was not done.
ghost use Rattle.std.specs.Prelude.{◌≡◌, ◌+◌};
ghost use Rattle.maildir_run.specs.Counting.{capped};
ghost use Rattle.maildir_run.specs.declared.fault.RunFault.TheVariants.{OutOfMemory};
ghost use Rattle.maildir_disk.specs.Faults.{IsFailedAllocation};
ghost use Rattle.maildir_commands.specs.declared.fault.Fault.TheVariants.{Run};
ghost use Rattle.maildir_commands.specs.Faults.{fault_of_opening, fault_or};

use maildir_disk::{OpenFault, is_failed_allocation};
use maildir_run::{FolderFault, RunFault};
use std::alloc::AllocError;
use std::io;
use thiserror::Error;

/// Why a command was not done.
#[derive(Clone, Copy, Debug, Drop, Error, PartialEq, Eq)]
pub enum Fault {
    /// The file that was named cannot be opened.
    #[error("cannot open the source")]
    Source,
    /// The Maildir that is named cannot be opened or made.
    #[error("cannot open the folder")]
    Folder,
    /// Another converter holds the lock of the Maildir.
    #[error("another converter is at work in the folder")]
    Locked,
    /// The work on source and Maildir ended early.
    #[error("{0}")]
    Run(RunFault),
}

impl From<RunFault> for Fault {
    ghost from_gives = { λ fault given. given ≡ Run fault };

    fn from(fault: RunFault) -> Fault {
        Fault::Run(fault)
    }
}

impl From<AllocError> for Fault {
    ghost from_gives = { λ _ given. given ≡ Run OutOfMemory };

    fn from(error: AllocError) -> Fault {
        Fault::Run(RunFault::from(error))
    }
}

impl From<OpenFault> for Fault {
    ghost from_gives = { λ fault given. given ≡ fault_of_opening fault };

    fn from(fault: OpenFault) -> Fault {
        match fault {
            OpenFault::Locked => Fault::Locked,
            OpenFault::Folder(FolderFault::OutOfMemory) => Fault::Run(RunFault::OutOfMemory),
            OpenFault::Folder(FolderFault::Absent | FolderFault::Failed) => Fault::Folder,
        }
    }
}

impl Fault {
    /// The fault of a source that could not be opened.
    pub(crate) fn of_source(error: &io::Error) -> Fault
        ensures allocation { IsFailedAllocation error.now →
            result ≡ Fault.Run RunFault.OutOfMemory }
        ensures others { ¬ IsFailedAllocation error.now → result ≡ Fault.Source }
    {
        if is_failed_allocation(error) {
            return Fault::Run(RunFault::OutOfMemory);
        }
        Fault::Source
    }

    /// The fault of a folder that could not be synced, after a run that made this many calls of it.
    pub(crate) fn of_sync(fault: FolderFault, calls: u64) -> Fault
        ensures { result ≡ fault_or fault
            (Fault.Run (RunFault.FolderFailed (capped (calls + 1)))) }
    {
        match fault {
            FolderFault::OutOfMemory => Fault::Run(RunFault::OutOfMemory),
            FolderFault::Absent | FolderFault::Failed => {
                Fault::Run(RunFault::FolderFailed(calls.saturating_add(1)))
            }
        }
    }
}
