// Texts in pieces, and what a refusal leaves.
ghost use Rattle.std.specs.Prelude.{◌<◌};

use crate::messages::{feed_pieces, finish_into, same_answer, same_messages};
use crate::rows::same;
use crate::texts::{Message, texts};
use mbox_text::{Entry, Splitter, TextFault};
use std::alloc::Global;
use std::test::Fail;

// The messages of a text that is fed in pieces of this size.
fn split_pieces(alloc: Global, text: &[u8], size: usize) -> Result<Vec<Entry>, TextFault>
    requires { 0 < size }
{
    let mut splitter = Splitter::new(alloc);
    let mut entries = Vec::new(alloc);
    feed_pieces(&mut splitter, text, size, &mut entries)?;
    finish_into(splitter, &mut entries)?;
    Ok(entries)
}

// Pieces of eleven bytes cut the text of `quoting` after its first `>Fro`.
#[test]
fn any_pieces(rt: HostRuntime) -> Result<(), Fail> {
    for text in texts() {
        for size in [1, 11] {
            let answer = split_pieces(rt.alloc(), text.text, size);
            same_answer(&(text.name, size), answer, text.messages)?;
        }
    }
    Ok(())
}

// What a splitter answers.
type Answer = Result<(), TextFault>;

const NO_LINE: Answer = Err(TextFault::NoFromLine);

const FAILED: Answer = Err(TextFault::Failed);

// Pieces with the answer to each, how many messages there are when they were fed, the answer at the
// end, and the messages then.
type Row<'a> = (&'a [(&'a str, Answer)], usize, Answer, &'a [Message<'a>]);

const FIRST: Message<'_> = (b"From a", b"x\n");

const ROWS: &[Row<'_>] = &[
    // a message ends with the next From_ line
    (&[("From a\nx\n", Ok(()))], 0, Ok(()), &[FIRST]),
    (
        &[("From a\nx\n", Ok(())), ("From", Ok(()))],
        0,
        Ok(()),
        &[(b"From a", b"x\nFrom")],
    ),
    (
        &[("From a\nx\n", Ok(())), ("From", Ok(())), (" ", Ok(()))],
        1,
        Ok(()),
        &[FIRST, (b"From ", b"")],
    ),
    // a splitter that refused goes on refusing
    (&[("Fx", NO_LINE), ("", FAILED)], 0, FAILED, &[]),
    (&[("Fro", Ok(()))], 0, NO_LINE, &[]),
    (&[], 0, Ok(()), &[]),
];

// Feeds the pieces of a row, and ends the text.
fn feed_row(alloc: Global, row: Row<'_>) -> Result<(), Fail> {
    let (pieces, fed, end, ended) = row;
    let mut splitter = Splitter::new(alloc);
    let mut out = Vec::new(alloc);
    for &(piece, answer) in pieces {
        let got = splitter.feed(piece.as_bytes(), &mut out);
        same(&(pieces, piece), &got, &answer)?;
    }
    let got = (out.len(), finish_into(splitter, &mut out));
    same(&(pieces, "ended"), &got, &(fed, end))?;
    same_messages(&(pieces, "ended"), &out, ended)
}

#[test]
fn splitter_answers(rt: HostRuntime) -> Result<(), Fail> {
    for row in ROWS {
        feed_row(rt.alloc(), *row)?;
    }
    Ok(())
}
