// The calls of a folder in memory, each in the mode that its script gives it.
ghost use Rattle.std.specs.Prelude.{◌≡◌, IfOk, IsOk, IsErrOf, IsTrue, IsFalse};
ghost use Rattle.std.specs.FinMap.{keys};
ghost use Rattle.maildir_run.specs.Calls.{folder_of, names_of};
ghost use Rattle.maildir_run.specs.Calls.Call.{Listing, Writing, Placing, Removing};
ghost use Rattle.maildir_run.specs.MemFiles.{files_in};
ghost use Rattle.maildir_run.specs.Script.{Answers};

use crate::folder::{FolderFault, Sub};
use crate::in_memory::mem_files::MemFiles;
use crate::in_memory::script::Mode;
use maildir_name::Place;

impl MemFiles {
    pub(crate) fn list_in(&self, mode: Mode, sub: Sub) -> Result<Vec<String>, FolderFault>
        ensures answers { Answers mode (Listing sub) (files_in self.now) result
            (files_in self.now) }
        ensures in_order { IfOk result
            (λ names. names_of names ≡ keys (folder_of sub (files_in self.now))) }
    {
        match mode {
            Mode::Plain | Mode::Twice => Ok(self.of(sub).names(self.alloc)?),
            Mode::FailBefore | Mode::FailAfter | Mode::Half => Err(FolderFault::Failed),
        }
    }

    pub(crate) fn write_in(
        &mut self,
        mode: Mode,
        name: &str,
        bytes: &[u8],
    ) -> Result<(), FolderFault>
        ensures { Answers mode (Writing name.now bytes.now) (files_in self.old) result
            (files_in self.new) }
    {
        match mode {
            Mode::Plain => Ok(self.write(name, bytes)?),
            Mode::FailBefore => Err(FolderFault::Failed),
            Mode::FailAfter => {
                self.write(name, bytes)?;
                Err(FolderFault::Failed)
            }
            Mode::Half => {
                self.write(name, &bytes[..bytes.len() / 2])?;
                Err(FolderFault::Failed)
            }
            Mode::Twice => {
                self.write(name, bytes)?;
                Ok(self.write(name, bytes)?)
            }
        }
    }

    pub(crate) fn place_in(
        &mut self,
        mode: Mode,
        name: &str,
        place: Place,
        target: &str,
    ) -> Result<(), FolderFault>
        ensures { Answers mode (Placing name.now place target.now) (files_in self.old) result
            (files_in self.new) }
    {
        match mode {
            Mode::Plain => found(self.rename(name, place, target)?),
            Mode::FailBefore | Mode::Half => Err(FolderFault::Failed),
            Mode::FailAfter => {
                self.rename(name, place, target)?;
                Err(FolderFault::Failed)
            }
            Mode::Twice => {
                let was_there = self.rename(name, place, target)?;
                self.rename(name, place, target)?;
                found(was_there)
            }
        }
    }

    pub(crate) fn remove_in(&mut self, mode: Mode, name: &str) -> Result<(), FolderFault>
        ensures { Answers mode (Removing name.now) (files_in self.old) result (files_in self.new) }
    {
        match mode {
            Mode::Plain => self.remove(Sub::Tmp, name),
            Mode::FailBefore | Mode::Half => return Err(FolderFault::Failed),
            Mode::FailAfter => {
                self.remove(Sub::Tmp, name);
                return Err(FolderFault::Failed);
            }
            Mode::Twice => {
                self.remove(Sub::Tmp, name);
                self.remove(Sub::Tmp, name);
            }
        }
        Ok(())
    }
}

// What a placement answers, depending on whether the file was there.
fn found(was_there: bool) -> Result<(), FolderFault>
    ensures there { IsTrue was_there → IsOk result }
    ensures gone { IsFalse was_there → IsErrOf result FolderFault.Absent }
{
    if was_there {
        Ok(())
    } else {
        Err(FolderFault::Absent)
    }
}
