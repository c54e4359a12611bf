// The calls of a file system.
ghost use Rattle.std.specs.Prelude.{◌≤◌, IfOk, length};
ghost use Rattle.maildir_calls.specs.Made.{MakesCall, Trace, listed};
ghost use Rattle.maildir_calls.specs.Made.Made.{ClockRead, Emptied, FileMade, FileOpened};
ghost use Rattle.maildir_calls.specs.Made.Made.{FileRemoved, FolderMade, FolderRemoved, InstantRead};
ghost use Rattle.maildir_calls.specs.Made.Made.{Listed, LockTried, Looked, LookedAt, LookedThrough};
ghost use Rattle.maildir_calls.specs.Made.Made.{Moved, Opened, Synced, Waited, Written};

use crate::own::Facts;
use std::io;
use std::time::{Duration, Instant, SystemTime};

/// The calls that a Maildir at a path makes of a file system and its clocks. Each method makes one
/// call, and decides nothing. Below it, the kit's library repeats an interrupted opening, emptying,
/// lock or sync.
pub trait Calls {
    /// A file or a folder that is open.
    type File: Drop;

    /// What is known of the calls that were made until now.
    ghost trace: { Self → Trace Self.File };

    /// mkdir(2) with this mode.
    fn make_folder(&mut self, path: &str, mode: u32) -> io::Result<()>
        ensures { MakesCall (FolderMade path.now mode result) (trace self.old) (trace self.new) };

    /// rmdir(2).
    fn remove_folder(&mut self, path: &str) -> io::Result<()>
        ensures { MakesCall (FolderRemoved path.now result) (trace self.old) (trace self.new) };

    /// open(2) of a file or a folder, for reading.
    fn open(&mut self, path: &str) -> io::Result<Self::File>
        ensures { MakesCall (Opened path.now result) (trace self.old) (trace self.new) };

    /// readdir(3) of a folder, in several steps: the names of all entries. A name that is not UTF-8
    /// is an error.
    fn list(&mut self, path: &str) -> io::Result<Vec<String>>
        ensures { MakesCall (Listed path.now (listed result)) (trace self.old) (trace self.new) };

    /// stat(2): what is under this path. A symbolic link is followed.
    fn look(&mut self, path: &str) -> io::Result<Facts>
        ensures { MakesCall (Looked path.now result) (trace self.old) (trace self.new) };

    /// lstat(2): what is under this path. A symbolic link is not followed.
    fn look_at(&mut self, path: &str) -> io::Result<Facts>
        ensures { MakesCall (LookedAt path.now result) (trace self.old) (trace self.new) };

    /// fstat(2): what was opened.
    fn look_through(&mut self, file: &Self::File) -> io::Result<Facts>
        ensures { MakesCall (LookedThrough file.now result) (trace self.old) (trace self.new) };

    /// open(2) with O_EXCL and this mode, for writing: it follows no symbolic link, and opens
    /// nothing that exists.
    fn make_file(&mut self, path: &str, mode: u32) -> io::Result<Self::File>
        ensures { MakesCall (FileMade path.now mode result) (trace self.old) (trace self.new) };

    /// open(2) of a file that exists, for reading and writing.
    fn open_file(&mut self, path: &str) -> io::Result<Self::File>
        ensures { MakesCall (FileOpened path.now result) (trace self.old) (trace self.new) };

    /// ftruncate(2) to no bytes.
    fn empty(&mut self, file: &Self::File) -> io::Result<()>
        ensures { MakesCall (Emptied file.now result) (trace self.old) (trace self.new) };

    /// write(2): how many bytes were taken.
    fn write(&mut self, file: &mut Self::File, bytes: &[u8]) -> io::Result<usize>
        ensures most { IfOk result (λ n. n ≤ length bytes.now) }
        ensures made { MakesCall (Written file.old bytes.now result) (trace self.old)
            (trace self.new) };

    /// fsync(2).
    fn sync(&mut self, file: &Self::File) -> io::Result<()>
        ensures { MakesCall (Synced file.now result) (trace self.old) (trace self.new) };

    /// flock(2), which does not wait.
    fn try_lock(&mut self, file: &Self::File) -> io::Result<()>
        ensures { MakesCall (LockTried file.now result) (trace self.old) (trace self.new) };

    /// rename(2).
    fn rename(&mut self, from: &str, to: &str) -> io::Result<()>
        ensures { MakesCall (Moved from.now to.now result) (trace self.old) (trace self.new) };

    /// unlink(2).
    fn remove_file(&mut self, path: &str) -> io::Result<()>
        ensures { MakesCall (FileRemoved path.now result) (trace self.old) (trace self.new) };

    /// The wall clock.
    fn now(&mut self) -> io::Result<SystemTime>
        ensures { MakesCall (ClockRead result) (trace self.old) (trace self.new) };

    /// The monotonic clock, which nobody sets.
    fn instant(&mut self) -> io::Result<Instant>
        ensures { MakesCall (InstantRead result) (trace self.old) (trace self.new) };

    /// Waits.
    fn sleep(&mut self, pause: Duration)
        ensures { MakesCall (Waited pause) (trace self.old) (trace self.new) };
}
