// The messages of a source, read piece by piece under a budget of reads.
ghost use Rattle.std.specs.Prelude.{◌≡◌, ◌⊎◌, ◌<◌, ◌≤◌, ◌+◌, ◌++◌, [], List, ℕ, Option, length};
ghost use Rattle.std.specs.Prelude.{take};
ghost use Rattle.std.specs.Prelude.{vec_len, IfOk, OnOk, IfErr, IsErrOf, MatchResult};
ghost use Rattle.std.specs.Prelude.{option_to_list};
ghost use Rattle.std.specs.Io.KnownBytes.{Consumes, IsAtEnd};
ghost use Rattle.mbox_text.specs.Fed.{Fed, Takes, NeverBegins, GivesLast, IsTooShort};

use crate::fault::RunFault;
use mbox_text::{Entry, Splitter, TextFault};
use std::alloc::{AllocError, Global};
use std::io::Read;
use std::mem;

// How many bytes one read asks for.
const PIECE: usize = 65536;

/// Reads a source and gives its messages as they become complete, under a budget of reads.
#[derive(Drop)]
pub(crate) struct Reader {
    alloc: Global,
    buffer: Vec<u8>,
    splitter: Splitter,
    reads_left: u64,
    ghost roomy: { vec_len buffer ≡ 65536 },
}

impl Reader {
    ghost use Rattle.maildir_run.specs.Reading.{IsReading};
    ghost use Rattle.maildir_run.specs.Private.Given.{GivesBatch, GivesNoMore};

    /// Nothing was read yet. This many reads may be made.
    pub(crate) fn new(alloc: Global, reads: u64) -> Result<Reader, AllocError>
        ensures { IfOk result (λ reader. Fed [] [] reader.splitter × (reader.reads_left ≡ reads)) }
    {
        Ok(Reader {
            alloc,
            buffer: vec![in alloc; 0; PIECE]?,
            splitter: Splitter::new(alloc),
            reads_left: reads,
        })
    }

    /// Reads until a message is complete or the source is at its end, and gives the messages that
    /// are complete now. Returns true at the source's end: then the last message is among them, and
    /// no read may follow. By the end of the first batch the first bytes have decided whether the
    /// text is an mbox text.
    ///
    /// Errors: `TooManyReads` if no read is left, and then none is made; `ReadFault`; `NoFromLine`
    /// as soon as what was read can't begin an mbox text; `OutOfMemory`.
    pub(crate) fn next_batch<R: Read>(
        &mut self,
        source: &mut R,
        whole: &mut Vec<Entry>,
    ) -> Result<bool, RunFault>
        ensures gives { IfOk result
            (λ ended. GivesBatch ended self.old (R.remaining source.old) (R.remaining source.new)
            self.new.splitter self.new.reads_left whole.new.items) }
        ensures refused { IfErr result
            (GivesNoMore self.old (R.remaining source.old) (R.remaining source.new)) }
        ensures causes { IfErr result IsReading }
    {
        whole.clear();
        'pieces: loop {
            let n = read_piece(source, &mut self.buffer, &mut self.reads_left)?;
            if n == 0 {
                let splitter = mem::replace(&mut self.splitter, Splitter::new(self.alloc));
                finish(splitter, whole)?;
                return Ok(true);
            }
            feed(&mut self.splitter, &self.buffer[..n], whole)?;
            if !whole.is_empty() {
                return Ok(false);
            }
        }
    }
}

// Makes one read of those that are left, into the buffer, and returns how many bytes it took: none
// only at the source's end.
fn read_piece<R: Read>(
    source: &mut R,
    buffer: &mut Vec<u8>,
    reads_left: &mut u64,
) -> Result<usize, RunFault>
    requires { 0 < vec_len buffer.old }
    ensures took { IfOk result (λ n. (n ≤ length buffer.new.items)
        × Consumes (R.remaining source.old) (R.remaining source.new) (take n buffer.new.items)
        × (n ≡ 0 → IsAtEnd (R.remaining source.new))) }
    ensures spent { OnOk result (reads_left.new + 1 ≡ reads_left.old) }
    ensures room { vec_len buffer.new ≡ vec_len buffer.old }
    ensures refused { IfErr result
        (λ fault. Consumes (R.remaining source.old) (R.remaining source.new) []
        × ((fault ≡ RunFault.TooManyReads) × (reads_left.old ≡ 0) ⊎ (fault ≡ RunFault.ReadFault))) }
{
    spend(reads_left)?;
    match source.read(buffer) {
        Ok(n) => Ok(n),
        Err(_) => Err(RunFault::ReadFault),
    }
}

// Takes one read from a budget.
fn spend(reads: &mut u64) -> Result<(), RunFault>
    ensures spent { OnOk result (reads.new + 1 ≡ reads.old) }
    ensures refused { IfErr result (λ fault. (fault ≡ RunFault.TooManyReads) × (reads.old ≡ 0)) }
{
    match reads.checked_sub(1) {
        Some(left) => {
            *reads = left;
            Ok(())
        }
        None => Err(RunFault::TooManyReads),
    }
}

// Feeds a splitter of which no call failed.
fn feed(splitter: &mut Splitter, piece: &[u8], out: &mut Vec<Entry>) -> Result<(), RunFault>
    ensures fed { OnOk result
        (Takes splitter.old piece.now out.old.items out.new.items splitter.new) }
    ensures no_from_line { IsErrOf result RunFault.NoFromLine →
        NeverBegins splitter.old piece.now out.old.items out.new.items }
    ensures causes { IfErr result (λ fault. (fault ≡ RunFault.NoFromLine) ⊎
        (fault ≡ RunFault.OutOfMemory)) }
{
    match splitter.feed(piece, out) {
        Ok(()) => Ok(()),
        Err(TextFault::NoFromLine) => Err(RunFault::NoFromLine),
        Err(_) => Err(RunFault::OutOfMemory),
    }
}

// Appends the last message of a splitter of which no call failed.
fn finish(splitter: Splitter, out: &mut Vec<Entry>) -> Result<(), RunFault>
    ensures last { OnOk result ((last : Option Entry) ×
        (out.new.items ≡ out.old.items ++ option_to_list last) × GivesLast splitter last) }
    ensures no_from_line { IsErrOf result RunFault.NoFromLine →
        (text : List ℕ) (given : List Entry) → Fed text given splitter → IsTooShort text }
    ensures causes { IfErr result (λ fault. (fault ≡ RunFault.NoFromLine) ⊎
        (fault ≡ RunFault.OutOfMemory)) }
{
    match splitter.finish() {
        Ok(None) => Ok(()),
        Ok(Some(last)) => {
            out.push(last)?;
            Ok(())
        }
        Err(TextFault::NoFromLine) => Err(RunFault::NoFromLine),
        Err(_) => Err(RunFault::OutOfMemory),
    }
}
