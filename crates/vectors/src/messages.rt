// Messages as a row wants them, and a splitter that is fed and ended.
ghost use Rattle.std.specs.Prelude.{◌<◌};

use crate::rows::{same, same_bytes};
use crate::texts::Message;
use mbox_text::{Entry, Splitter, TextFault};
use std::fmt::Debug;
use std::test::Fail;

/// Compares messages with those of a row.
pub(crate) fn same_messages<N: Debug>(
    row: &N,
    got: &[Entry],
    wanted: &[Message<'_>],
) -> Result<(), Fail> {
    for (entry, (from_line, body)) in got.iter().zip(wanted) {
        same_bytes(row, entry.from_line.as_slice(), from_line)?;
        same_bytes(row, entry.body.as_slice(), body)?;
    }
    same(&(row, "messages"), &got.len(), &wanted.len())
}

/// Compares messages that are answered with those of a row.
pub(crate) fn same_answer<N: Debug>(
    row: &N,
    answer: Result<Vec<Entry>, TextFault>,
    wanted: &[Message<'_>],
) -> Result<(), Fail> {
    match answer {
        Ok(got) => same_messages(row, &got, wanted),
        Err(fault) => same(row, &Some(fault), &None),
    }
}

/// Whether these are the first of the messages of a row.
pub(crate) fn are_first(got: &[Entry], wanted: &[Message<'_>]) -> bool {
    for (entry, (from_line, body)) in got.iter().zip(wanted) {
        if entry.from_line.as_slice() != *from_line || entry.body.as_slice() != *body {
            return false;
        }
    }
    got.len() <= wanted.len()
}

/// Feeds a text in pieces of this size.
pub(crate) fn feed_pieces(
    splitter: &mut Splitter,
    text: &[u8],
    size: usize,
    out: &mut Vec<Entry>,
) -> Result<(), TextFault>
    requires { 0 < size }
{
    for piece in text.chunks(size) {
        splitter.feed(piece, out)?;
    }
    Ok(())
}

/// Ends a text, and adds its last message to the others.
pub(crate) fn finish_into(splitter: Splitter, out: &mut Vec<Entry>) -> Result<(), TextFault> {
    if let Some(last) = splitter.finish()? {
        out.push(last)?;
    }
    Ok(())
}
