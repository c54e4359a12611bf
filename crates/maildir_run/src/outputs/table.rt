// A table of the messages of a text, with the targets that a conversion would give them.
ghost use Rattle.std.specs.Prelude.{◌≡◌, ◌⊎◌, ◌^◌, ◌≤◌, ◌∷◌, [], IfErr};
ghost use Rattle.mbox_text.specs.FromLine.{IsFromLine};
ghost use Rattle.maildir_run.specs.Private.Printing.{HasListed, PrintsMore};
ghost use Rattle.maildir_run.specs.Table.{table_of};
ghost use Rattle.maildir_run.specs.Output.{WritesMessages};

use crate::fault::RunFault;
use crate::outputs::row::row_of;
use crate::printing::{Printer, print_all};
use maildir_name::Namer;
use mbox_text::{Entry, write_bytes};
use std::alloc::Global;
use std::io::{Read, Write};

/// Writes one row for each message of the source's text, in order, and returns how many there are:
/// the message's index from 1, its base, its place (`new` or `cur`), its info or `-`, the size of
/// its body in bytes, and its sender with `?` for each byte outside 0x21 to 0x7E, or `-`. Makes at
/// most `reads` reads, each of at most 65,536 bytes. Keeps in memory: one message, what one read
/// returned, and the digests so far.
///
/// Errors: `NoFromLine` if the text is not empty and doesn't begin with `From `, as soon as the
/// bytes decide, and then nothing was written; `ReadFault`; `TooManyReads` if `reads` reads didn't
/// reach the end; `OutputFault`; `OutOfMemory`. What was written by then is a prefix of the output
/// for the text.
#[tactic(auto, using(crate::proofs::Output::TableRows::listing_output))]
pub fn list_text<R: Read, W: Write>(
    alloc: Global,
    source: &mut R,
    out: &mut W,
    reads: u64,
) -> Result<u64, RunFault>
    requires { reads ≤ 2 ^ 40 }
    ensures { WritesMessages table_of (R.remaining source.old) (R.remaining source.new)
        (W.contents out.old) (W.contents out.new) reads result }
{
    print_all(alloc, source, &mut Lister::new(alloc), out, reads)
}

// Lists messages one after the other.
#[derive(Drop)]
struct Lister {
    alloc: Global,
    namer: Namer,
    count: u64,
}

impl Lister {
    // Nothing was listed.
    fn new(alloc: Global) -> Lister
        ensures { HasListed [] result.namer result.count }
    {
        Lister {
            alloc,
            namer: Namer::new(alloc),
            count: 0,
        }
    }

    // Writes the row of a message.
    fn list_one<W: Write>(&mut self, entry: &Entry, out: &mut W) -> Result<(), RunFault>
        requires { IsFromLine entry.now.from_line }
        ensures lists { PrintsMore table_of
            (λ given lister. HasListed given lister.namer lister.count) self.old (entry.now ∷ [])
            (W.contents out.old) (W.contents out.new) result self.new }
        ensures causes { IfErr result (λ fault. (fault ≡ RunFault.OutputFault) ⊎
            (fault ≡ RunFault.OutOfMemory)) }
    {
        let Ok(target) = self.namer.target(entry.body.as_slice()) else {
            return Err(RunFault::OutOfMemory);
        };
        self.count = self.count.saturating_add(1);
        let row = row_of(self.alloc, self.count, entry, &target)?;
        match write_bytes(&row, out) {
            Ok(()) => Ok(()),
            Err(_) => Err(RunFault::OutputFault),
        }
    }
}

impl Printer for Lister {
    ghost output = { table_of };

    ghost printed = { λ given lister. HasListed given lister.namer lister.count };

    fn print<W: Write>(&mut self, entries: &[Entry], out: &mut W) -> Result<(), RunFault> {
        for entry in entries {
            self.list_one(entry, out)?;
        }
        Ok(())
    }

    fn count(&self) -> u64 {
        self.count
    }
}
