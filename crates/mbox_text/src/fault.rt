// The errors of this crate.
ghost use Rattle.std.specs.Prelude.{◌≡◌};
ghost use Rattle.mbox_text.specs.declared.fault.TextFault.TheVariants.{OutOfMemory};

use std::alloc::{AllocError, AllocFailed};
use thiserror::Error;

/// Why a call failed.
#[derive(Clone, Copy, Debug, PartialEq, Eq, Error)]
pub enum TextFault {
    /// The text is not empty and doesn't begin with `From `, so its first bytes belong to no
    /// message.
    #[error("no From line at the start")]
    NoFromLine,
    /// The rest of a From_ line that was to be built holds a `\n`.
    #[error("a line end in the rest of a From line")]
    LineEndInRest,
    /// An earlier call of this splitter failed.
    #[error("an earlier call was refused")]
    Failed,
    /// An allocation failed in this call.
    #[error("out of memory")]
    OutOfMemory,
    /// The writer failed in this call, or took no byte though some were offered.
    #[error("the output could not be written")]
    WriteFault,
}

impl From<AllocError> for TextFault {
    ghost from_gives = { λ _ fault. fault ≡ OutOfMemory };

    fn from(_error: AllocError) -> TextFault {
        TextFault::OutOfMemory
    }
}

impl<T: Drop> From<AllocFailed<T>> for TextFault {
    ghost from_gives = { λ _ fault. fault ≡ OutOfMemory };

    fn from(_error: AllocFailed<T>) -> TextFault {
        TextFault::OutOfMemory
    }
}
