// The three folders of a Maildir, by what each call does to their files.
ghost use Rattle.std.specs.Prelude.{◌≡◌};
ghost use Rattle.maildir_run.specs.Calls.Call.{Writing, Placing, Removing};
ghost use Rattle.maildir_run.specs.Files.{AreFewer, Spared};
ghost use Rattle.maildir_run.specs.Folders.{folder_name, folder_of_place};
ghost use Rattle.maildir_run.specs.Seen.{Seen, CallOf, ListingOf};
ghost use Rattle.maildir_run.specs.declared.folder.FolderFault.TheVariants.{OutOfMemory};

use maildir_name::Place;
use std::alloc::{AllocError, AllocFailed};
use thiserror::Error;

/// One of the three folders of a Maildir (maildir(5)).
#[derive(Clone, Copy)]
pub enum Sub {
    /// `tmp`: files that are being written.
    Tmp,
    /// `new`: messages that no reader has seen.
    New,
    /// `cur`: messages that a reader has seen, or that have flags.
    Cur,
}

impl Sub {
    /// The folder of a place.
    pub fn of_place(place: Place) -> Sub
        ensures { result ≡ folder_of_place place }
    {
        match place {
            Place::New => Sub::New,
            Place::Cur => Sub::Cur,
        }
    }

    /// Its name.
    pub fn name(self) -> &'static str
        ensures { result.now ≡ folder_name self }
    {
        match self {
            Sub::Tmp => "tmp",
            Sub::New => "new",
            Sub::Cur => "cur",
        }
    }
}

/// Why a call of a folder failed.
#[derive(Clone, Copy, Debug, Drop, Error, PartialEq, Eq)]
pub enum FolderFault {
    /// `place` alone: it found no file in `tmp`.
    #[error("a file in tmp is gone")]
    Absent,
    /// The call failed. Its effect may have happened, any number of times, or not; a write may have
    /// left other bytes.
    #[error("the folder call failed")]
    Failed,
    /// An allocation failed.
    #[error("out of memory")]
    OutOfMemory,
}

impl From<AllocError> for FolderFault {
    ghost from_gives = { λ _ fault. fault ≡ OutOfMemory };

    fn from(_error: AllocError) -> FolderFault {
        FolderFault::OutOfMemory
    }
}

impl<T: Drop> From<AllocFailed<T>> for FolderFault {
    ghost from_gives = { λ _ fault. fault ≡ OutOfMemory };

    fn from(_error: AllocFailed<T>) -> FolderFault {
        FolderFault::OutOfMemory
    }
}

/// The files of a Maildir. Other programs may change them before, within and after each call.
pub trait Folder {
    /// What contracts see of it at one moment.
    ghost at: { Self → Seen };

    /// The names in one folder, each once, in any order, as of one moment of the call.
    ///
    /// Errors: [`FolderFault::Failed`]; [`FolderFault::OutOfMemory`] if an allocation failed in
    /// this call.
    fn list(&mut self, sub: Sub) -> Result<Vec<String>, FolderFault>
        ensures lists { ListingOf sub (at self.old) result (at self.new) };

    /// Makes the file `name` of `tmp` hold these bytes, in place of what it held.
    ///
    /// Errors: those of [`Folder::list`].
    fn write(&mut self, name: &str, bytes: &[u8]) -> Result<(), FolderFault>
        ensures writes { CallOf (Writing name.now bytes.now) (at self.old) result (at self.new) };

    /// Moves the file `name` of `tmp` to `target` of `new` or `cur`, by one rename.
    ///
    /// Errors: [`FolderFault::Absent`] if there was no such file; those of [`Folder::list`].
    fn place(&mut self, name: &str, place: Place, target: &str) -> Result<(), FolderFault>
        ensures places { CallOf (Placing name.now place target.now) (at self.old) result
            (at self.new) };

    /// Removes the file `name` of `tmp`. Returns Ok also if there was none.
    ///
    /// Errors: those of [`Folder::list`].
    fn remove(&mut self, name: &str) -> Result<(), FolderFault>
        ensures removes { CallOf (Removing name.now) (at self.old) result (at self.new) };

    /// A folder that is quiet is honest, whichever bases are spared.
    ghost quiet_is_honest: { (folder : Self) (spared : Spared) → (at folder).quiet →
        (at folder).honest spared };

    /// A folder that is honest where more bases are spared is honest where fewer are, whatever
    /// other programs do to all others.
    ghost fewer_honest: { (folder : Self) (fewer more : Spared) → AreFewer fewer more →
        (at folder).honest more → (at folder).honest fewer };
}
