// The output for the messages of a source's text, which is written while the text is read.
ghost use Rattle.std.specs.Prelude.{◌≡◌, ◌⊎◌, ℕ, ◌^◌, ◌≤◌, [], List, length, IfErr};
ghost use Rattle.mbox_text.specs.declared.entry.Entry.{Entry};
ghost use Rattle.mbox_text.specs.Spelling.{FromLines};
ghost use Rattle.maildir_run.specs.Output.{WritesMessages};
ghost use Rattle.maildir_run.specs.Private.Printing.{IsOutput, PrintsMore};

use crate::fault::RunFault;
use crate::reader::Reader;
use mbox_text::Entry;
use std::alloc::Global;
use std::io::{Read, Write};

/// Writes messages one after the other, and counts them.
pub(crate) trait Printer {
    /// The output for messages.
    ghost output: { List Entry → List ℕ };

    /// It has written these messages.
    ghost printed: { List Entry → Self → Type 0 };

    /// Writes some messages.
    fn print<W: Write>(&mut self, entries: &[Entry], out: &mut W) -> Result<(), RunFault>
        requires { FromLines entries.now }
        ensures prints { PrintsMore output printed self.old entries.now (W.contents out.old)
            (W.contents out.new) result self.new }
        ensures causes { IfErr result (λ fault. (fault ≡ RunFault.OutputFault) ⊎
            (fault ≡ RunFault.OutOfMemory)) };

    /// How many it has written.
    fn count(&self) -> u64
        ensures { (given : List Entry) → printed given self.now → result ≡ length given };
}

/// Writes the output for each message of the source's text, in order, and returns how many messages
/// there are. Makes at most `reads` reads. Keeps in memory: one message, and what one read
/// returned.
pub(crate) fn print_all<R: Read, W: Write, P: Printer>(
    alloc: Global,
    source: &mut R,
    printer: &mut P,
    out: &mut W,
    reads: u64,
) -> Result<u64, RunFault>
    requires few { reads ≤ 2 ^ 40 }
    requires fresh { P.printed [] printer.old }
    requires is_output { IsOutput P.output }
    ensures { WritesMessages P.output (R.remaining source.old) (R.remaining source.new)
        (W.contents out.old) (W.contents out.new) reads result }
{
    let mut reader = Reader::new(alloc, reads)?;
    let mut whole = Vec::new(alloc);
    'pieces: loop {
        let ended = reader.next_batch(source, &mut whole)?;
        printer.print(&whole, out)?;
        if ended {
            return Ok(printer.count());
        }
    }
}
