// What is written of a text: a table of its messages, or its regular spelling.
use crate::rows::{Shown, same};
use crate::sources::{Cut, FAULTY, LIMIT};
use crate::texts::{TWO_LINES, UNENDED, texts};
use crate::writers::{FULL, Narrow};
use maildir_run::{RunFault, list_text, rewrite};
use std::alloc::Global;
use std::fmt::Debug;
use std::test::Fail;

// What is written.
#[derive(Clone, Copy, Debug)]
enum Form {
    Table,
    Spelling,
}

// How many messages were written, or the fault; and what was written.
type Wanted<'a> = (Result<u64, RunFault>, &'a [u8]);

// Writes a text, of which this many reads may be made, and compares the answer and what the writer
// has taken.
fn writes<N: Debug>(
    alloc: Global,
    row: &N,
    form: Form,
    source: &mut Cut<'_>,
    reads: u64,
    mut out: Narrow,
    wanted: Wanted<'_>,
) -> Result<(), Fail> {
    let answer = match form {
        Form::Table => list_text(alloc, source, &mut out, reads.min(LIMIT)),
        Form::Spelling => rewrite(alloc, source, &mut out, reads.min(LIMIT)),
    };
    let got = (answer, Shown(out.taken.as_slice()));
    same(&(row, form), &got, &(wanted.0, Shown(wanted.1)))
}

// Pieces of eleven bytes cut the text of `quoting` after its first `>Fro`.
#[test]
fn worked_texts(rt: HostRuntime) -> Result<(), Fail> {
    let alloc = rt.alloc();
    for text in texts() {
        let answer = Ok(text.messages.len() as u64);
        for (form, written) in [(Form::Table, text.list), (Form::Spelling, text.spelling)] {
            for piece in [1, 11, 65_536] {
                let row = (text.name, piece);
                let mut source = Cut::pieces(text.text, piece);
                let out = Narrow::new(alloc, 1000, piece, true);
                let wanted = (answer, written);
                writes(alloc, &row, form, &mut source, LIMIT, out, wanted)?;
            }
        }
    }
    Ok(())
}

#[test]
fn refusals(rt: HostRuntime) -> Result<(), Fail> {
    let alloc = rt.alloc();
    for form in [Form::Table, Form::Spelling] {
        for &((text, piece, then), reads, fault, made) in FAULTY {
            let row = (text, reads);
            let mut source = Cut::new(text.as_bytes(), piece, then);
            let out = Narrow::new(alloc, 1000, 1000, true);
            let wanted: Wanted<'_> = (Err(fault), b"");
            writes(alloc, &row, form, &mut source, reads, out, wanted)?;
            same(&(row, form, "reads"), &source.reads, &made)?;
        }
    }
    Ok(())
}

// A listing ends where its source fails.
#[test]
fn listing_source_fails(rt: HostRuntime) -> Result<(), Fail> {
    const LINE: &[u8] =
        b"1 edeaaff3f1774ad2888673770c6d64097e391bc362d7d6fb34982ddf0efd18cb.1 new - 4 x\n";
    let alloc = rt.alloc();
    for piece in [1, 65_536] {
        let mut source = Cut::broken(TWO_LINES, 22, piece);
        let out = Narrow::new(alloc, 1000, 1000, true);
        let wanted = (Err(RunFault::ReadFault), LINE);
        writes(alloc, &piece, Form::Table, &mut source, LIMIT, out, wanted)?;
    }
    Ok(())
}

#[test]
fn outputs(rt: HostRuntime) -> Result<(), Fail> {
    let alloc = rt.alloc();
    for &(room, piece, fails, taken) in FULL {
        let row = (room, piece, fails);
        let mut source = Cut::pieces(UNENDED, 65_536);
        let out = Narrow::new(alloc, room, piece, fails);
        let wanted = (Err(RunFault::OutputFault), taken);
        writes(alloc, &row, Form::Spelling, &mut source, LIMIT, out, wanted)?;
    }
    for fails in [true, false] {
        let mut source = Cut::pieces(UNENDED, 65_536);
        let out = Narrow::new(alloc, 4, 4, fails);
        let wanted: Wanted<'_> = (Err(RunFault::OutputFault), b"1 ba");
        writes(alloc, &fails, Form::Table, &mut source, LIMIT, out, wanted)?;
    }
    Ok(())
}
