// The folder calls of a run, and their number for its faults.
ghost use Rattle.std.specs.Prelude.{◌≡◌, ◌+◌, [], ◌∷◌, IfErr};
ghost use Rattle.maildir_run.specs.Counting.{capped, fault_of, IsOfFolder};
ghost use Rattle.maildir_run.specs.Private.Counting.{run_answer};
ghost use Rattle.maildir_run.specs.Calls.Call.{Writing, Placing, Removing};
ghost use Rattle.maildir_run.specs.Private.Parts.{Performed, names_in};
ghost use Rattle.maildir_run.specs.Tasks.Task.{Ask, Do};

use crate::fault::RunFault;
use crate::folder::{Folder, FolderFault, Sub};
use maildir_name::Place;

/// How many folder calls a run made. It stops at the greatest number.
#[derive(Drop)]
pub(crate) struct Calls {
    made: u64,
}

impl Calls {
    /// No call was made.
    pub(crate) fn new() -> Calls
        ensures { result.made ≡ 0 }
    {
        Calls { made: 0 }
    }

    /// Counts a call with this answer, and returns the answer for the run: the fault of a call that
    /// failed gets the number of that call.
    pub(crate) fn answer<T>(&mut self, answer: Result<T, FolderFault>) -> Result<T, RunFault>
        ensures made { self.new.made ≡ capped (self.old.made + 1) }
        ensures is { result ≡ run_answer self.new.made answer }
        ensures causes { IfErr result IsOfFolder }
    {
        self.made = self.made.saturating_add(1);
        match answer {
            Ok(value) => Ok(value),
            Err(FolderFault::Absent) => Err(RunFault::FolderAbsent),
            Err(FolderFault::Failed) => Err(RunFault::FolderFailed(self.made)),
            Err(FolderFault::OutOfMemory) => Err(RunFault::OutOfMemory),
        }
    }

    /// Lists one of the three folders.
    pub(crate) fn list<F: Folder>(
        &mut self,
        folder: &mut F,
        sub: Sub,
    ) -> Result<Vec<String>, RunFault>
        ensures ran { let at = F.at in
            Performed (Ask sub (names_in result) ∷ []) (at folder.old)
            (at folder.new) self.old.made self.new.made (fault_of result) }
        ensures causes { IfErr result IsOfFolder }
    {
        let answer = folder.list(sub);
        self.answer(answer)
    }

    /// Writes a file into `tmp`.
    pub(crate) fn write<F: Folder>(
        &mut self,
        folder: &mut F,
        name: &str,
        bytes: &[u8],
    ) -> Result<(), RunFault>
        ensures ran { let at = F.at in
            Performed (Do (Writing name.now bytes.now) ∷ []) (at folder.old)
            (at folder.new) self.old.made self.new.made (fault_of result) }
        ensures causes { IfErr result IsOfFolder }
    {
        let answer = folder.write(name, bytes);
        self.answer(answer)
    }

    /// Moves a file of `tmp` to `new` or `cur`.
    pub(crate) fn place<F: Folder>(
        &mut self,
        folder: &mut F,
        name: &str,
        place: Place,
        target: &str,
    ) -> Result<(), RunFault>
        ensures ran { let at = F.at in
            Performed (Do (Placing name.now place target.now) ∷ [])
            (at folder.old) (at folder.new) self.old.made self.new.made (fault_of result) }
        ensures causes { IfErr result IsOfFolder }
    {
        let answer = folder.place(name, place, target);
        self.answer(answer)
    }

    /// Removes a file of `tmp`.
    pub(crate) fn remove<F: Folder>(&mut self, folder: &mut F, name: &str) -> Result<(), RunFault>
        ensures ran { let at = F.at in
            Performed (Do (Removing name.now) ∷ []) (at folder.old)
            (at folder.new) self.old.made self.new.made (fault_of result) }
        ensures causes { IfErr result IsOfFolder }
    {
        let answer = folder.remove(name);
        self.answer(answer)
    }
}
