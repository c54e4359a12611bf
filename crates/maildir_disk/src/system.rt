// The system calls that a Maildir needs.
ghost use Rattle.std.specs.Prelude.{◌≡◌, ◌≤◌, ℕ, List, length, IfErr, IfOk, OnOk};
ghost use Rattle.std.specs.IoError.{error_kind};
ghost use Rattle.std.specs.declared.io.ErrorKind.TheVariants.{NotFound};
ghost use Rattle.maildir_run.specs.Calls.Call.{Placing, Removing};
ghost use Rattle.maildir_run.specs.Cuts.{Follows};
ghost use Rattle.maildir_run.specs.Files.{AreFewer, Honestly, Spared};
ghost use Rattle.maildir_run.specs.Folders.{folder_of_place};
ghost use Rattle.maildir_disk.specs.Placing.{WasGone};
ghost use Rattle.maildir_disk.specs.PowerCuts.{KeepsHeld, KeepsNames};
ghost use Rattle.maildir_disk.specs.SeenSystem.{AppendsToFile, Asks, Looks, MakesFile, SeenSystem};
ghost use Rattle.maildir_disk.specs.SeenSystem.{TakesFromTmp};
ghost use Rattle.maildir_disk.specs.SeenSystem.{ReadsClock, ReadsFolder, ReadsStamp};

use maildir_name::Place;
use maildir_run::Sub;
use std::io;
use std::time::{Duration, Instant, SystemTime};

/// The calls that one Maildir needs of a file system. Other programs may act before, within and
/// after each call.
pub trait System {
    /// A file of `tmp` that is open for writing.
    type File: Drop;

    /// What is seen of the system at one moment.
    ghost at: { Self → SeenSystem };

    /// The name in `tmp` under which the file was opened.
    ghost name_of: { Self.File → List ℕ };

    /// No file was made under its name since it was opened.
    ghost is_current: { Self → Self.File → Type 0 };

    /// readdir(3) of a folder, in several steps: the names of its entries.
    fn names(&mut self, sub: Sub) -> io::Result<Vec<String>>
        ensures { ReadsFolder sub (at self.old) result (at self.new) };

    /// The time at which a folder was last changed: ctime of stat(2).
    fn stamp(&mut self, sub: Sub) -> io::Result<SystemTime>
        ensures { ReadsStamp sub (at self.old) result (at self.new) };

    /// The wall clock.
    fn now(&mut self) -> io::Result<SystemTime>
        ensures { ReadsClock (at self.old) result (at self.new) };

    /// The monotonic clock, which nobody sets.
    fn instant(&mut self) -> io::Result<Instant>
        ensures { Looks (at self.old) (at self.new) };

    /// Waits.
    fn sleep(&mut self, pause: Duration)
        ensures { Looks (at self.old) (at self.new) };

    /// Makes a file of `tmp`, or empties it if it is there, and opens it for writing.
    fn create(&mut self, name: &str) -> io::Result<Self::File>
        ensures makes { MakesFile name.now (at self.old) result (at self.new) }
        ensures name { Honestly (at self.old).honest (λ _.
            IfOk result (λ file. name_of file ≡ name.now)) }
        ensures current { Honestly (at self.old).honest (λ _.
            IfOk result (λ file. is_current self.new file)) };

    /// Appends a prefix of the bytes, and returns how many: write(2).
    fn append(&mut self, file: &mut Self::File, bytes: &[u8]) -> io::Result<usize>
        ensures most { IfOk result (λ n. n ≤ length bytes.now) }
        ensures appends { AppendsToFile (name_of file.old) (is_current self.old file.old) bytes.now
            (at self.old) result (at self.new) }
        ensures name { name_of file.new ≡ name_of file.old }
        ensures current { Honestly (at self.old).honest (λ _.
            is_current self.old file.old → is_current self.new file.new) };

    /// fsync(2) of a file.
    fn sync_file(&mut self, file: &Self::File) -> io::Result<()>
        ensures looks { Looks (at self.old) (at self.new) }
        ensures kept { Honestly (at self.old).honest (λ spared.
            is_current self.old file.now →
            OnOk result (KeepsHeld spared (name_of file.now) (at self.new).world.files
            (at self.new).may_leave)) };

    /// Moves a file out of `tmp`, by one rename(2).
    fn rename(&mut self, name: &str, place: Place, target: &str) -> io::Result<()>
        ensures places { TakesFromTmp (Placing name.now place target.now) (at self.old) result
            (at self.new) }
        ensures gone { Honestly (at self.old).honest (λ spared.
            IfErr result (λ error. error_kind error ≡ NotFound →
            WasGone spared name.now (Placing name.now place target.now) (at self.old).world.files
            (at self.new).world.files)) };

    /// Removes a file of `tmp`. Returns Ok also if there was none.
    fn unlink(&mut self, name: &str) -> io::Result<()>
        ensures removes { TakesFromTmp (Removing name.now) (at self.old) result (at self.new) };

    /// fsync(2) of the directory `new` or `cur`. After an error nothing is assumed of the calls that
    /// follow; what is said of this call holds with any answer.
    fn sync_folder(&mut self, place: Place) -> io::Result<()>
        ensures asks { Asks (at self.old) result (at self.new) }
        ensures names { Honestly (at self.old).honest (λ spared.
            OnOk result
            (Follows (λ before left.
            KeepsNames spared (folder_of_place place) (at self.old).world.files before
            (at self.new).world.files left)
            (at self.old).may_leave (at self.new).may_leave)) };

    /// fsync(2) of the Maildir and its parent, so that the Maildir and its three folders are
    /// durable. After an error nothing is assumed of the calls that follow; what is said of this
    /// call holds with any answer.
    fn sync_root(&mut self) -> io::Result<()>
        ensures asks { Asks (at self.old) result (at self.new) }
        ensures rooted { Honestly (at self.old).honest (λ _.
            OnOk result (at self.new).rooted) };

    /// A system that is quiet is honest, whichever bases are spared.
    ghost quiet_is_honest: { (system : Self) (spared : Spared) → (at system).quiet →
        (at system).honest spared };

    /// A system that is honest where more bases are spared is honest where fewer are.
    ghost fewer_honest: { (system : Self) (fewer more : Spared) → AreFewer fewer more →
        (at system).honest more → (at system).honest fewer };

    /// A power cut may leave the files as they are.
    ghost may_stay: { (system : Self) (spared : Spared) → (at system).honest spared →
        (at system).may_leave (at system).world.files };
}
