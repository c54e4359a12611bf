// What a power cut leaves of a Maildir in memory.
ghost use Rattle.std.specs.Prelude.{◌≡◌, ◌+◌, ◌<◌, ◌≤◌, ◌==◌, ◌||◌, [], IsFalse, IsTrue, false};
ghost use Rattle.std.specs.Prelude.{if◌then◌else◌, length, min, not, slice_index_or};
ghost use Rattle.maildir_run.specs.MemFolder.{IsQuiet, files_of};
ghost use Rattle.maildir_run.specs.Files.{no_files};

use super::MemSystem;
use maildir_run::MemFolder;

impl MemSystem {
    /// From now on a power cut may lose what was not synced, and the Maildir itself. At most `room`
    /// cases of what it leaves are recorded, besides the files as they are; it leaves no other.
    pub fn lose(&mut self, room: usize)
        ensures { self.new ≡ record self.old {
          cases = record self.old.cases { room = room };
          is_rooted = false;
        } }
    {
        self.cases.room = room;
        self.is_rooted = false;
    }

    /// How many cases of what a power cut leaves there are.
    pub fn cases(&self) -> usize
        ensures { result ≡ min (length self.now.cases.folders.items
            + (if self.now.is_rooted then 1 else 2)) 18446744073709551615 }
    {
        self.cases
            .folders
            .len()
            .saturating_add(if self.is_rooted { 1 } else { 2 })
    }

    /// A power cut that leaves the case with this number, or the files as they are if there are
    /// fewer.
    pub fn cut(&mut self, case: usize)
        ensures recorded { case < length self.old.cases.folders.items → files_of self.new.folder
            ≡ files_of (slice_index_or self.old.cases.folders.items case self.old.folder) }
        ensures gone { case ≡ length self.old.cases.folders.items + 1 → IsFalse self.old.is_rooted
            → files_of self.new.folder ≡ no_files }
        ensures stays { length self.old.cases.folders.items ≤ case →
            IsTrue self.new.is_rooted → files_of self.new.folder ≡ files_of self.old.folder }
        ensures rooted { self.new.is_rooted ≡ (self.old.is_rooted
            || not (case == length self.old.cases.folders.items + 1)) }
        ensures quiet { IsQuiet self.new.folder }
        ensures none { self.new.cases.folders.items ≡ [] }
        ensures rest { self.new ≡ record self.old {
          folder = self.new.folder;
          cases = record self.old.cases { folders = self.new.cases.folders };
          is_rooted = self.new.is_rooted;
        } }
    {
        let place = case.saturating_sub(self.cases.folders.len());
        if case < self.cases.folders.len() {
            self.folder = self.cases.folders.swap_remove(case);
        } else if place == 1 && !self.is_rooted {
            self.folder = MemFolder::new(self.alloc);
        }
        self.folder.script(Vec::new(self.alloc), None);
        self.cases.folders.clear();
        self.is_rooted = self.is_rooted || place != 1;
    }
}
