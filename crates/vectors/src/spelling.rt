// What is written of a message, and a writer that fails.
use crate::rows::{Shown, same};
use crate::texts::{Message, texts};
use crate::writers::{FULL, Narrow};
use mbox_text::{Bytes, Entry, TextFault, write_entry};
use std::alloc::{AllocError, Global};
use std::fmt::Debug;
use std::test::Fail;

fn entry(alloc: Global, from_line: &[u8], body: &[u8]) -> Result<Entry, AllocError> {
    Ok(Entry {
        from_line: Bytes::new(Vec::from_slice(alloc, from_line)?),
        body: Bytes::new(Vec::from_slice(alloc, body)?),
    })
}

fn write_all(
    alloc: Global,
    messages: &[Message<'_>],
    narrow: &mut Narrow,
) -> Result<(), TextFault> {
    for &(from_line, body) in messages {
        write_entry(&entry(alloc, from_line, body)?, narrow)?;
    }
    Ok(())
}

// Hands messages to a writer, and compares the answer and what it has taken.
fn writes<N: Debug>(
    alloc: Global,
    row: &N,
    messages: &[Message<'_>],
    mut narrow: Narrow,
    wanted: (Result<(), TextFault>, &[u8]),
) -> Result<(), Fail> {
    let answer = write_all(alloc, messages, &mut narrow);
    let got = (answer, Shown(narrow.taken.as_slice()));
    same(row, &got, &(wanted.0, Shown(wanted.1)))
}

#[test]
fn spellings(rt: HostRuntime) -> Result<(), Fail> {
    let alloc = rt.alloc();
    for text in texts() {
        for piece in [1, 1000] {
            let row = (text.name, piece);
            let narrow = Narrow::new(alloc, 1000, piece, true);
            let wanted = (Ok(()), text.spelling);
            writes(alloc, &row, text.messages, narrow, wanted)?;
        }
    }
    for &(room, piece, fails, taken) in FULL {
        let row = (room, piece, fails);
        let narrow = Narrow::new(alloc, room, piece, fails);
        let wanted = (Err(TextFault::WriteFault), taken);
        writes(alloc, &row, &[(b"From x", b"abc")], narrow, wanted)?;
    }
    Ok(())
}
