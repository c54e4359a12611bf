// Splitting a text that arrives in pieces.
ghost use Rattle.std.specs.Prelude.{◌≡◌, ◌<◌, ◌≤◌, ◌↔◌, [], ◌∷◌, length, take, IfErr, IfOk, IsErr};
ghost use Rattle.std.specs.Prelude.{IsErrOf, OnErr, OnOk};
ghost use Rattle.mbox_text.specs.Fed.{GivesLast, Fed, IsSplitterFault, NeverBegins, RefusesShort};
ghost use Rattle.mbox_text.specs.Fed.{Takes, TakesPart};
ghost use Rattle.mbox_text.specs.Private.Moved.{Gives, Moves, Refuses, Stops};
ghost use Rattle.mbox_text.specs.Held.{HasFailed};
ghost use Rattle.mbox_text.specs.Lines.{NoEnd};

use crate::body::{add_line, take_lines};
use crate::bytes::Bytes;
use crate::entry::Entry;
use crate::fault::TextFault;
use crate::from_line::{begins_with_from, is_from_start};
use crate::partial_message::PartialMessage;
use memchr::memchr;
use std::alloc::{AllocError, Global};
use std::mem;

/// Splits a text that arrives in pieces into its messages (mbox(5)). Only the partial message is
/// kept in memory. The time is linear in the bytes, however they are cut into pieces.
#[derive(Drop)]
pub struct Splitter {
    alloc: Global,
    failed: bool,
    // `None` before the first From_ line is complete, and while a later one is being read
    message: Option<PartialMessage>,
    // the start of the line that is being read
    line: Vec<u8>,
}

impl Splitter {
    /// A splitter that was fed nothing. Allocates nothing.
    pub fn new(alloc: Global) -> Splitter
        ensures { Fed [] [] result }
    {
        Splitter {
            alloc,
            failed: false,
            message: None,
            line: Vec::new(alloc),
        }
    }

    /// Takes the next piece of the text, and appends each message that it completes. After Ok, the
    /// calls so far have appended all messages of the text so far but the last.
    ///
    /// Errors: `NoFromLine` if the text so far neither begins with `From ` nor is a prefix of it;
    /// `OutOfMemory` if an allocation failed, and then a prefix of the messages may have been
    /// appended. Every later call fails with `Failed`.
    pub fn feed(&mut self, piece: &[u8], out: &mut Vec<Entry>) -> Result<(), TextFault>
        ensures fed { OnOk result (Takes self.old piece.now out.old.items out.new.items self.new) }

        // The next clauses say what each error means, and what it leaves.
        ensures no_from_line { IsErrOf result TextFault.NoFromLine
            → NeverBegins self.old piece.now out.old.items out.new.items }
        ensures out_of_memory { IsErrOf result TextFault.OutOfMemory
            → TakesPart self.old piece.now out.old.items out.new.items }
        ensures failed { IsErrOf result TextFault.Failed ↔ HasFailed self.old }
        ensures unchanged { IsErrOf result TextFault.Failed → out.new.items ≡ out.old.items }

        ensures causes { IfErr result IsSplitterFault }
        ensures state { HasFailed self.new ↔ IsErr result }
    {
        if self.failed {
            return Err(TextFault::Failed);
        }
        let taken = self.take_piece(piece, out);
        self.failed = taken.is_err();
        taken
    }

    /// The last message of the text, or None if nothing was fed.
    ///
    /// Errors: `Failed` after a `feed` that failed; `NoFromLine` if one to four bytes were fed;
    /// `OutOfMemory` if an allocation failed.
    pub fn finish(self) -> Result<Option<Entry>, TextFault>
        ensures last { IfOk result (GivesLast self) }
        ensures failed { IsErrOf result TextFault.Failed ↔ HasFailed self }
        ensures no_from_line { RefusesShort self result }
        ensures causes { IfErr result IsSplitterFault }
    {
        if self.failed {
            return Err(TextFault::Failed);
        }
        let line = self.line;
        match self.message {
            Some(message) => Ok(Some(message.close_with(&line)?)),
            None => {
                if line.is_empty() {
                    return Ok(None);
                }
                if !begins_with_from(&line) {
                    return Err(TextFault::NoFromLine);
                }
                Ok(Some(Entry {
                    from_line: Bytes::new(line),
                    body: Bytes::new(Vec::new(self.alloc)),
                }))
            }
        }
    }

    // Takes the piece, part by part.
    fn take_piece(&mut self, piece: &[u8], out: &mut Vec<Entry>) -> Result<(), TextFault>
        ensures moved { OnOk result
            (Gives self.old piece.now out.old.items out.new.items self.new) }
        ensures stopped { IfErr result
            (λ fault. Stops fault self.old piece.now out.old.items out.new.items) }
        ensures same { self.new.failed ≡ self.old.failed }
    {
        let mut at = 0;
        while at < piece.len() {
            at += self.advance(&piece[at..], out)?;
        }
        Ok(())
    }

    // Takes the leading complete lines of the text up to a From_ line, and then one more line, or
    // its start. Returns how many bytes it took.
    fn advance(&mut self, text: &[u8], out: &mut Vec<Entry>) -> Result<usize, TextFault>
        requires { 0 < length text.now }
        ensures some { IfOk result (λ n. 0 < n) }
        ensures within { IfOk result (λ n. n ≤ length text.now) }
        ensures moved { IfOk result
            (λ n. Gives self.old (take n text.now) out.old.items out.new.items self.new) }
        ensures stopped { IfErr result
            (λ fault. Stops fault self.old text.now out.old.items out.new.items) }
        ensures same { self.new.failed ≡ self.old.failed }
    {
        let at = self.take_body_lines(text)?;
        let rest = &text[at..];
        match memchr(b'\n', rest) {
            Some(n) => {
                self.add_part(&rest[..n], out)?;
                self.end_line()?;
                Ok(at + n + 1)
            }
            None => {
                self.add_part(rest, out)?;
                Ok(text.len())
            }
        }
    }

    // Takes the leading complete lines of the text if the text begins a line of a body. Returns how
    // many bytes it took.
    fn take_body_lines(&mut self, text: &[u8]) -> Result<usize, AllocError>
        ensures within { IfOk result (λ n. n ≤ length text.now) }
        ensures held { IfOk result (λ n. Moves self.old (take n text.now) [] self.new) }
        ensures same { self.new.failed ≡ self.old.failed }
    {
        if !self.line.is_empty() {
            return Ok(0);
        }
        match &mut self.message {
            Some(message) => take_lines(&mut message.body, text),
            None => Ok(0),
        }
    }

    // Appends bytes without `\n` to the line, and closes the message if the line is a From_ line.
    fn add_part(&mut self, part: &[u8], out: &mut Vec<Entry>) -> Result<(), TextFault>
        requires { NoEnd part.now }
        ensures moved { OnOk result (Gives self.old part.now out.old.items out.new.items self.new) }
        ensures stopped { IfErr result (λ fault. Refuses fault self.old part.now) }
        ensures kept { OnErr result (out.new.items ≡ out.old.items) }
        ensures same { self.new.failed ≡ self.old.failed }
    {
        self.line.extend_from_slice(part)?;
        if begins_with_from(&self.line) {
            if let Some(message) = self.message.take() {
                out.push(message.close())?;
            }
            return Ok(());
        }
        if self.message.is_none() && !is_from_start(&self.line) {
            return Err(TextFault::NoFromLine);
        }
        Ok(())
    }

    // Ends the line: it becomes a From_ line or part of the body.
    fn end_line(&mut self) -> Result<(), TextFault>
        ensures moved { OnOk result (Moves self.old (10 ∷ []) [] self.new) }
        ensures stopped { IfErr result (λ fault. Refuses fault self.old (10 ∷ [])) }
        ensures same { self.new.failed ≡ self.old.failed }
    {
        match &mut self.message {
            Some(message) => {
                add_line(&mut message.body, &self.line)?;
                self.line.clear();
            }
            None => {
                if !begins_with_from(&self.line) {
                    return Err(TextFault::NoFromLine);
                }
                let from_line = mem::replace(&mut self.line, Vec::new(self.alloc));
                self.message = Some(PartialMessage {
                    from_line,
                    body: Vec::new(self.alloc),
                });
            }
        }
        Ok(())
    }
}
