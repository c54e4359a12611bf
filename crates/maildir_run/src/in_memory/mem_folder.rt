// The folder in memory.
ghost use Rattle.std.specs.Prelude.{◌≡◌, [], IfOk, IfErr, OnOk, OnErr};
ghost use Rattle.std.specs.Prelude.{IsTrue, None, ◌↔◌, string_bytes};
ghost use Rattle.std.specs.FinMap.{get, keys, len};
ghost use Rattle.std.specs.Option.{option_copied};
ghost use Rattle.maildir_run.specs.Calls.{folder_of, names_of, CountsFailure};
ghost use Rattle.maildir_run.specs.Calls.Call.{Listing, Writing, Placing, Removing};
ghost use Rattle.maildir_run.specs.Files.{no_files};
ghost use Rattle.maildir_run.specs.MemFiles.{with_file, without_file};
ghost use Rattle.maildir_run.specs.MemFolder.{files_of, call_count, all_call_count, failure_count};
ghost use Rattle.maildir_run.specs.MemFolder.{lines_of, seen_of};
ghost use Rattle.maildir_run.specs.MemFolder.{fail_from_of, IsQuiet, Scripted, SameCounts};
ghost use Rattle.maildir_run.specs.MemFolder.{SameScript, IsUnchanged};
ghost use Rattle.maildir_run.specs.Private.MemFolder.{BeginsCall};
ghost use Rattle.maildir_run.specs.Script.{half_performed, performed};
ghost use Rattle.maildir_run.specs.Seen.{CallOf, ListingOf};

use crate::folder::{Folder, FolderFault, Sub};
use crate::in_memory::mem_files::MemFiles;
use crate::in_memory::script::{Act, Mode, ScriptLine, mode_of_call};
use maildir_name::Place;
use std::alloc::{AllocError, Global};

/// The files of a Maildir in memory. It lists names in the order of their bytes, and follows its
/// script.
#[derive(Drop)]
pub struct MemFolder {
    files: MemFiles,
    lines: Vec<ScriptLine>,
    fail_from: Option<u64>,
    calls: u64,
    all_calls: u128,
    failures: u128,
}

impl MemFolder {
    /// A folder with no files, and a script with no line.
    pub fn new(alloc: Global) -> Self
        ensures files { files_of result ≡ no_files }
        ensures calls { call_count result ≡ 0 }
        ensures quiet { IsQuiet result }
        ensures never_fails { fail_from_of result ≡ None }
    {
        MemFolder {
            files: MemFiles::new(alloc),
            lines: Vec::new(alloc),
            fail_from: None,
            calls: 0,
            all_calls: 0,
            failures: 0,
        }
    }

    /// Replaces the script, and counts the calls from 0 again. Each line says what happens at the
    /// call of its number; from the call `fail_from` on every call answers `Failed` without effect,
    /// whatever its mode is, and acts are still made. If there is no memory for an act, the effect
    /// or the answer of a call, neither that nor what follows it in this call is made, and the call
    /// answers `OutOfMemory`.
    pub fn script(&mut self, lines: Vec<ScriptLine>, fail_from: Option<u64>)
        ensures files { files_of self.new ≡ files_of self.old }
        ensures calls { call_count self.new ≡ 0 }
        ensures all_calls { all_call_count self.new ≡ all_call_count self.old }
        ensures failures { failure_count self.new ≡ failure_count self.old }
        ensures lines { lines_of self.new ≡ lines.items }
        ensures quiet { IsQuiet self.new ↔ (lines.items ≡ []) }
        ensures fail_from { fail_from_of self.new ≡ fail_from }
    {
        self.lines = lines;
        self.fail_from = fail_from;
        self.calls = 0;
    }

    /// Sets one file, in place of what stood under its name. No call is counted.
    ///
    /// Errors: [`FolderFault::OutOfMemory`] if an allocation failed; nothing is changed then.
    pub fn put(&mut self, sub: Sub, name: String, bytes: Vec<u8>) -> Result<(), FolderFault>
        ensures ok { OnOk result (files_of self.new ≡ with_file sub (string_bytes name) bytes.items
            (files_of self.old)) }
        ensures counts { SameCounts self.old self.new }
        ensures script { SameScript self.old self.new }
        ensures err { OnErr result (IsUnchanged self.old self.new) }
        ensures refused { IfErr result (λ fault. fault ≡ FolderFault.OutOfMemory) }
    {
        self.files.put(sub, name, bytes)?;
        Ok(())
    }

    /// What a file holds, if it is there.
    pub fn bytes_of(&self, sub: Sub, name: &str) -> Option<&[u8]>
        ensures { option_copied result ≡ get (folder_of sub (files_of self.now)) name.now }
    {
        self.files.of(sub).get(name)
    }

    /// How many files a folder has.
    pub fn count(&self, sub: Sub) -> usize
        ensures { result ≡ len (folder_of sub (files_of self.now)) }
    {
        self.files.of(sub).len()
    }

    /// Another program does this. No call is counted.
    ///
    /// Errors: [`FolderFault::OutOfMemory`] if an allocation failed; nothing is changed then.
    pub fn act(&mut self, act: &Act) -> Result<(), FolderFault>
        ensures ok { OnOk result (files_of self.new ≡ performed act.now (files_of self.old)) }
        ensures err { OnErr result (files_of self.new ≡ files_of self.old) }
        ensures counts { SameCounts self.old self.new }
        ensures script { SameScript self.old self.new }
        ensures refused { IfErr result (λ fault. fault ≡ FolderFault.OutOfMemory) }
    {
        self.files.perform(act)?;
        Ok(())
    }

    /// Another program does half of this: a file that it moves is under both names. Half of any
    /// other act does nothing. No call is counted.
    ///
    /// Errors: [`FolderFault::OutOfMemory`] if an allocation failed; nothing is changed then.
    pub fn act_half(&mut self, act: &Act) -> Result<(), FolderFault>
        ensures ok { OnOk result (files_of self.new ≡ half_performed act.now (files_of self.old)) }
        ensures err { OnErr result (files_of self.new ≡ files_of self.old) }
        ensures counts { SameCounts self.old self.new }
        ensures script { SameScript self.old self.new }
        ensures refused { IfErr result (λ fault. fault ≡ FolderFault.OutOfMemory) }
    {
        self.files.perform_half(act)?;
        Ok(())
    }

    /// Deletes a file, if it is there. No call is counted.
    pub fn delete(&mut self, sub: Sub, name: &str)
        ensures files { files_of self.new ≡ without_file sub name.now (files_of self.old) }
        ensures counts { SameCounts self.old self.new }
        ensures script { SameScript self.old self.new }
    {
        self.files.remove(sub, name);
    }

    /// A folder with the same files, no calls, and a script with no line.
    ///
    /// Errors: [`FolderFault::OutOfMemory`] if an allocation failed.
    pub fn copy(&self) -> Result<MemFolder, FolderFault>
        ensures files { IfOk result (λ copy. files_of copy ≡ files_of self.now) }
        ensures calls { IfOk result (λ copy. call_count copy ≡ 0) }
        ensures quiet { IfOk result IsQuiet }
        ensures never_fails { IfOk result (λ copy. fail_from_of copy ≡ None) }
        ensures refused { IfErr result (λ fault. fault ≡ FolderFault.OutOfMemory) }
    {
        let mut copy = MemFolder::new(self.files.alloc);
        copy.files = self.files.copy()?;
        Ok(copy)
    }

    /// Whether both have the same files.
    pub fn is_like(&self, other: &MemFolder) -> bool
        ensures { IsTrue result ↔ (files_of self.now ≡ files_of other.now) }
    {
        self.files.is_like(&other.files)
    }

    /// Whether a file holds the same in both, or is in neither.
    pub fn has_file_of(&self, other: &MemFolder, sub: Sub, name: &str) -> bool
        ensures { IsTrue result ↔ (get (folder_of sub (files_of self.now)) name.now
            ≡ get (folder_of sub (files_of other.now)) name.now) }
    {
        self.bytes_of(sub, name) == other.bytes_of(sub, name)
    }

    /// Whether both have the same names in this folder.
    pub fn has_names_of(&self, other: &MemFolder, sub: Sub) -> bool
        ensures { IsTrue result ↔
            (keys (folder_of sub (files_of self.now)) ≡ keys (folder_of sub (files_of other.now))) }
    {
        self.files.of(sub).has_names_of(other.files.of(sub))
    }

    /// How many calls of [`Folder`] were made since `script`, or since `new`; it stops at 2^64 - 1.
    pub fn calls(&self) -> u64
        ensures { result ≡ call_count self.now }
    {
        self.calls
    }

    // Counts the call and makes the acts before it. Answers its mode.
    fn begin_call(&mut self) -> Result<Mode, AllocError>
        ensures { BeginsCall self.old result self.new }
    {
        self.calls = self.calls.saturating_add(1);
        self.all_calls = self.all_calls.wrapping_add(1);
        self.files.act_before(self.calls, &self.lines)?;
        Ok(mode_of_call(&self.lines, self.fail_from, self.calls))
    }

    // Counts a failure if the call has failed.
    fn count_failure<T>(&mut self, answer: Result<T, FolderFault>) -> Result<T, FolderFault>
        ensures answer { result ≡ answer }
        ensures cause { CountsFailure answer (failure_count self.old) (failure_count self.new) }
        ensures rest { self.new ≡ record self.old { failures = failure_count self.new } }
    {
        if let Err(FolderFault::Absent | FolderFault::Failed) = &answer {
            self.failures = self.failures.wrapping_add(1);
        }
        answer
    }
}

impl Folder for MemFolder {
    ghost at = { seen_of };

    ghost quiet_is_honest = { λ _ _ _. tt };

    ghost fewer_honest = { λ _ _ _ _ _. tt };

    fn list(&mut self, sub: Sub) -> Result<Vec<String>, FolderFault>
        ensures lists { ListingOf sub (seen_of self.old) result (seen_of self.new) }
        ensures scripted { Scripted (Listing sub) self.old result self.new }
        ensures in_order { IfOk result
            (λ names. names_of names ≡ keys (folder_of sub (files_of self.new))) }
    {
        let mode = self.begin_call()?;
        let answer = self.files.list_in(mode, sub);
        self.count_failure(answer)
    }

    fn write(&mut self, name: &str, bytes: &[u8]) -> Result<(), FolderFault>
        ensures writes { CallOf (Writing name.now bytes.now) (seen_of self.old) result
            (seen_of self.new) }
        ensures scripted { Scripted (Writing name.now bytes.now) self.old result self.new }
    {
        let mode = self.begin_call()?;
        let answer = self.files.write_in(mode, name, bytes);
        self.count_failure(answer)
    }

    fn place(&mut self, name: &str, place: Place, target: &str) -> Result<(), FolderFault>
        ensures places { CallOf (Placing name.now place target.now) (seen_of self.old) result
            (seen_of self.new) }
        ensures scripted { Scripted (Placing name.now place target.now) self.old result self.new }
    {
        let mode = self.begin_call()?;
        let answer = self.files.place_in(mode, name, place, target);
        self.count_failure(answer)
    }

    fn remove(&mut self, name: &str) -> Result<(), FolderFault>
        ensures removes { CallOf (Removing name.now) (seen_of self.old) result (seen_of self.new) }
        ensures scripted { Scripted (Removing name.now) self.old result self.new }
    {
        let mode = self.begin_call()?;
        let answer = self.files.remove_in(mode, name);
        self.count_failure(answer)
    }
}
