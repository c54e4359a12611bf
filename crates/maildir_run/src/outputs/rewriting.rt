// A text in its regular spelling.
ghost use Rattle.std.specs.Prelude.{◌≡◌, ◌^◌, ◌≤◌, length, IfErr};
ghost use Rattle.std.specs.List.{flat_map};
ghost use Rattle.mbox_text.specs.Spelling.{spelling};
ghost use Rattle.mbox_text.specs.Writing.{Writes};
ghost use Rattle.maildir_run.specs.Output.{WritesMessages};

use crate::fault::RunFault;
use crate::printing::{Printer, print_all};
use mbox_text::{Entry, write_entry};
use std::alloc::Global;
use std::io::{Read, Write};

/// Writes each message of the source's text in its regular spelling, in order, and returns how many
/// there are. Makes at most `reads` reads, each of at most 65,536 bytes. Keeps in memory: one
/// message, and what one read returned.
///
/// Errors: `NoFromLine` if the text is not empty and doesn't begin with `From `, as soon as the
/// bytes decide, and then nothing was written; `ReadFault`; `TooManyReads` if `reads` reads didn't
/// reach the end; `OutputFault`; `OutOfMemory`. What was written by then is a prefix of the output
/// for the text.
#[tactic(auto, using(crate::proofs::Output::Poured::flat_output))]
pub fn rewrite<R: Read, W: Write>(
    alloc: Global,
    source: &mut R,
    out: &mut W,
    reads: u64,
) -> Result<u64, RunFault>
    requires { reads ≤ 2 ^ 40 }
    ensures { WritesMessages (flat_map spelling) (R.remaining source.old) (R.remaining source.new)
        (W.contents out.old) (W.contents out.new) reads result }
{
    print_all(alloc, source, &mut Rewriter { count: 0 }, out, reads)
}

// Writes messages in their regular spelling one after the other.
#[derive(Drop)]
struct Rewriter {
    count: u64,
}

impl Printer for Rewriter {
    ghost output = { flat_map spelling };

    ghost printed = { λ given rewriter. rewriter.count ≡ length given };

    fn print<W: Write>(&mut self, entries: &[Entry], out: &mut W) -> Result<(), RunFault> {
        write_entries(entries, out)?;
        self.count = self.count.saturating_add(entries.len() as u64);
        Ok(())
    }

    fn count(&self) -> u64 {
        self.count
    }
}

// Writes messages in their regular spelling.
#[tactic(auto, using(crate::proofs::Output::Each::each_prefix))]
fn write_entries<W: Write>(entries: &[Entry], out: &mut W) -> Result<(), RunFault>
    ensures written { Writes (W.contents out.old) (W.contents out.new) result
        (flat_map spelling entries.now) }
    ensures causes { IfErr result (λ fault. fault ≡ RunFault.OutputFault) }
{
    for entry in entries {
        if write_entry(entry, out).is_err() {
            return Err(RunFault::OutputFault);
        }
    }
    Ok(())
}
