// The message that a splitter is reading.
ghost use Rattle.std.specs.Prelude.{◌≡◌, ◌++◌, IfOk};
ghost use Rattle.mbox_text.specs.Private.Moved.{chopped};
ghost use Rattle.mbox_text.specs.Quoting.{unquoted};

use crate::body::{add_unquoted, drop_blank};
use crate::bytes::Bytes;
use crate::entry::Entry;
use std::alloc::AllocError;

/// A From_ line and the complete lines that have followed it so far, unquoted.
#[derive(Drop)]
pub(crate) struct PartialMessage {
    pub(crate) from_line: Vec<u8>,
    pub(crate) body: Vec<u8>,
}

impl PartialMessage {
    /// Closes the message after its last complete line.
    pub(crate) fn close(self) -> Entry
        ensures from_line { result.from_line ≡ self.from_line.items }
        ensures body { result.body ≡ chopped self.body.items }
    {
        let mut body = self.body;
        drop_blank(&mut body);
        Entry {
            from_line: Bytes::new(self.from_line),
            body: Bytes::new(body),
        }
    }

    /// Closes the message with a last, unterminated line, which may be empty.
    pub(crate) fn close_with(self, line: &[u8]) -> Result<Entry, AllocError>
        ensures from_line { IfOk result (λ entry. entry.from_line ≡ self.from_line.items) }
        ensures body { IfOk result
            (λ entry. entry.body ≡ chopped (self.body.items ++ unquoted line.now)) }
    {
        let mut message = self;
        add_unquoted(&mut message.body, line)?;
        Ok(message.close())
    }
}
