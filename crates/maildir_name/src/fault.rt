// The error of this crate.
ghost use Rattle.std.specs.Prelude.{◌≡◌};
ghost use Rattle.maildir_name.specs.declared.fault.NameFault.TheVariants.{OutOfMemory};

use std::alloc::AllocError;
use thiserror::Error;

/// Why a name could not be given.
#[derive(Clone, Copy, Debug, Drop, Error, PartialEq, Eq)]
pub enum NameFault {
    /// An allocation failed. No call fails for another reason.
    #[error("out of memory")]
    OutOfMemory,
}

impl From<AllocError> for NameFault {
    ghost from_gives = { λ _ fault. fault ≡ OutOfMemory };

    fn from(_error: AllocError) -> NameFault {
        NameFault::OutOfMemory
    }
}
