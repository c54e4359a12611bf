// What the program asks of the machine that it runs on.
ghost use Rattle.std.specs.Prelude.{ℕ, List};
ghost use Rattle.maildir_disk.specs.Faults.{IsFailedAllocation};
ghost use Rattle.maildir_run.specs.Files.{AreFewer, Spared};
ghost use Rattle.maildir_commands.specs.Machines.{AreAt};
ghost use Rattle.maildir_commands.specs.Opening.{ClosesMaildir, OpensMaildir, OpensSource};
ghost use Rattle.maildir_commands.specs.Seen.{SeenMachine, opened};

use maildir_disk::{OpenFault, System};
use std::io;
use std::io::Read;

/// A machine: it opens sources and Maildirs by the paths that name them. Other programs may act on
/// a Maildir before, within and after each call.
pub trait Machine {
    /// A source that is open.
    type Source: Read + Drop;

    /// A Maildir that is open.
    type Maildir: System + Drop;

    /// What is seen of the machine at one moment.
    ghost at: { Self → SeenMachine };

    /// Opens a source. An allocation that failed is no refusal.
    fn open_source(&mut self, path: &str) -> io::Result<Self::Source>
        ensures { OpensSource Self.Source.remaining
            (λ error. ¬ IsFailedAllocation error) path.now result (at self.old) (at self.new) };

    /// Opens a Maildir, and makes it if it is missing.
    fn open_maildir(&mut self, path: &str) -> Result<Self::Maildir, OpenFault>
        ensures { OpensMaildir (opened Self.Maildir.System) path.now result (at self.old)
            (at self.new) };

    /// Closes a Maildir, which was opened by this path.
    fn close_maildir(&mut self, path: &str, maildir: Self::Maildir)
        ensures { ClosesMaildir path.now (opened Self.Maildir.System maildir) (at self.old)
            (at self.new) };

    /// A machine that is quiet is honest, whichever bases are spared.
    ghost quiet_is_honest: { (machine : Self) (spared : Spared) → (at machine).quiet →
        (at machine).honest spared };

    /// A machine that is honest where more bases are spared is honest where fewer are.
    ghost fewer_honest: { (machine : Self) (fewer more : Spared) → AreFewer fewer more →
        (at machine).honest more → (at machine).honest fewer };

    /// Which paths name the same Maildir never changes.
    ghost same_paths: { (one other : Self) (path another : List ℕ) → (at one).same path another →
        (at other).same path another };

    /// If two paths name the same Maildir, other programs may turn what is at each of them into what
    /// is at the other.
    ghost same_maildir: { (machine : Self) (spared : Spared) (path other : List ℕ) →
        (at machine).same path other →
        AreAt spared ((at machine).maildir_at path) ((at machine).maildir_at other) };

    /// A power cut may leave the files of a Maildir as they are.
    ghost may_stay: { (machine : Self) (spared : Spared) (path : List ℕ) →
        (at machine).honest spared →
        ((at machine).maildir_at path).may_leave ((at machine).maildir_at path).files };
}
