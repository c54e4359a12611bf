// Runs over the folder in memory.
use crate::rows::same;
use crate::runs::{Answer, folder_of, run_from, run_over, same_files};
use crate::scripts::{Run, Scene, go, go_all};
use crate::sources::{Cut, FAULTY, LIMIT};
use crate::texts::{
    ABC, ABC_LINE, ABC_OLD, ALL_THREE, EMPTY_ONE, EMPTY_TWO, File, HELLO_LINE, ONE_SEEN, REFUSED,
    THREE, TWO_EMPTY, TWO_LINES, Text, UNENDED, texts,
};
use maildir_run::{FolderFault, MemFolder, RunFault, Sub};
use std::alloc::Global;
use std::test::Fail;

const FOREIGN: File<'_> = (Sub::Tmp, "1700000000.M1.host", b"z");

// Names that are nearly a converter's, but are not.
const NO_BASE: File<'_> = (Sub::Cur, ":x", b"");

const ZERO_FIRST: File<'_> = (
    Sub::Cur,
    "ba7816bf8f01cfea414140de5dae2223b00361a396177a9cb410ff61f20015ad.01",
    b"",
);

const TOO_LARGE: File<'_> = (
    Sub::Cur,
    "ba7816bf8f01cfea414140de5dae2223b00361a396177a9cb410ff61f20015ad.18446744073709551616:2,",
    b"",
);

const TOO_LARGE_IN_TMP: File<'_> = (
    Sub::Tmp,
    "ba7816bf8f01cfea414140de5dae2223b00361a396177a9cb410ff61f20015ad.18446744073709551616",
    b"",
);

const NEARLY_OURS: &[File<'_>] = &[NO_BASE, ZERO_FIRST, TOO_LARGE, TOO_LARGE_IN_TMP];

const ABC_BESIDE_THEM: &[File<'_>] = &[
    NO_BASE,
    ZERO_FIRST,
    TOO_LARGE,
    TOO_LARGE_IN_TMP,
    (Sub::New, ABC, b"abc"),
];

// A folder that has the message, and one with two homes of its base.
const COLON: &[File<'_>] = &[(
    Sub::Cur,
    "ba7816bf8f01cfea414140de5dae2223b00361a396177a9cb410ff61f20015ad.1:",
    b"abc",
)];

const TWO_HOMES: &[File<'_>] = &[(Sub::New, ABC, b"x"), (Sub::Cur, ABC_OLD, b"abc")];

// Files that are there stay.
const SCENES: &[Scene<'_>] = &[
    (
        "leftover_is_swept",
        &[(Sub::Tmp, ABC, b"a"), FOREIGN],
        &[(
            &[],
            UNENDED,
            Ok((1, 0, 1, 1)),
            &[FOREIGN, (Sub::New, ABC, b"abc")],
        )],
    ),
    (
        "names_that_are_nearly_ours",
        NEARLY_OURS,
        &[(&[], UNENDED, Ok((1, 0, 1, 0)), ABC_BESIDE_THEM)],
    ),
    (
        "a_colon_and_no_info",
        COLON,
        &[(&[], UNENDED, Ok((1, 1, 0, 0)), COLON)],
    ),
    (
        "not_sound",
        TWO_HOMES,
        &[(&[], UNENDED, Ok((1, 1, 0, 0)), TWO_HOMES)],
    ),
];

// A text is delivered, and a second run changes nothing.
fn deliver_twice(alloc: Global, text: &Text<'_>) -> Result<(), Fail> {
    let count = text.messages.len() as u64;
    let first: Run<'_> = (&[], text.text, Ok((count, 0, count, 0)), text.files);
    let second: Run<'_> = (&[], text.text, Ok((count, count, 0, 0)), text.files);
    go_all(alloc, &text.name, &[], &[first, second])
}

#[test]
fn quiet_runs(rt: HostRuntime) -> Result<(), Fail> {
    for text in texts() {
        deliver_twice(rt.alloc(), text)?;
    }
    for &(name, text) in REFUSED {
        let run: Run<'_> = (&[], text, Err(RunFault::NoFromLine), &[]);
        go_all(rt.alloc(), &name, &[], &[run])?;
    }
    for &(name, files, runs) in SCENES {
        go_all(rt.alloc(), &name, files, runs)?;
    }
    Ok(())
}

// A text whose source fails after each of these numbers of bytes, in pieces of each of these
// sizes, and the files that are left then. The report of the next run, over the whole text, and the
// files that it leaves.
struct Prefix<'a> {
    name: &'a str,
    text: &'a [u8],
    bytes: (usize, usize),
    pieces: &'a [usize],
    left: &'a [File<'a>],
    report: (u64, u64, u64, u64),
    files: &'a [File<'a>],
}

const PREFIXES: &[Prefix<'_>] = &[
    Prefix {
        name: "source_fails",
        text: TWO_LINES,
        bytes: (22, 22),
        pieces: &[1, 65_536],
        left: &[(Sub::New, ABC_LINE, b"abc\n")],
        report: (2, 1, 1, 0),
        files: &[
            (Sub::New, ABC_LINE, b"abc\n"),
            (Sub::New, HELLO_LINE, b"hello\n"),
        ],
    },
    // the first message is complete with the second `From `, and the second with the third
    Prefix {
        name: "every_prefix_of_a_text, none whole",
        text: THREE,
        bytes: (0, 12),
        pieces: &[1],
        left: &[],
        report: (3, 0, 3, 0),
        files: ALL_THREE,
    },
    Prefix {
        name: "every_prefix_of_a_text, one whole",
        text: THREE,
        bytes: (13, 20),
        pieces: &[1],
        left: &[(Sub::New, EMPTY_ONE, b"")],
        report: (3, 1, 2, 0),
        files: ALL_THREE,
    },
    Prefix {
        name: "every_prefix_of_a_text, two whole",
        text: THREE,
        bytes: (21, THREE.len()),
        pieces: &[1],
        left: &[(Sub::New, EMPTY_ONE, b""), (Sub::New, EMPTY_TWO, b"")],
        report: (3, 2, 1, 0),
        files: ALL_THREE,
    },
];

// The source fails after this many bytes, and the next run goes on.
fn break_off(alloc: Global, prefix: &Prefix<'_>, bytes: usize, piece: usize) -> Result<(), Fail> {
    let row = (prefix.name, bytes, piece);
    let mut folder = MemFolder::new(alloc);
    let mut source = Cut::broken(prefix.text, bytes, piece);
    let answer = run_from(alloc, &mut folder, &mut source, LIMIT);
    same(&row, &answer, &Err(RunFault::ReadFault))?;
    same_files(&row, &folder, prefix.left)?;
    let next: Run<'_> = (&[], prefix.text, Ok(prefix.report), prefix.files);
    go(alloc, &row, &mut folder, next, None)
}

#[test]
fn prefixes(rt: HostRuntime) -> Result<(), Fail> {
    for prefix in PREFIXES {
        for piece in prefix.pieces {
            for bytes in prefix.bytes.0..=prefix.bytes.1 {
                break_off(rt.alloc(), prefix, bytes, *piece)?;
            }
        }
    }
    Ok(())
}

// What a run answers that may make this many reads of a source, and how many reads and calls it
// made.
fn budgeted(alloc: Global, source: &mut Cut<'_>, reads: u64) -> (Answer, u64, u64) {
    let mut folder = MemFolder::new(alloc);
    let answer = run_from(alloc, &mut folder, source, reads);
    (answer, source.reads, folder.calls())
}

#[test]
fn read_budget(rt: HostRuntime) -> Result<(), Fail> {
    for &((text, piece, then), reads, fault, made) in FAULTY {
        let mut source = Cut::new(text.as_bytes(), piece, then);
        let got = budgeted(rt.alloc(), &mut source, reads);
        same(&(text, reads), &got, &(Err(fault), made, 0))?;
    }
    let got = budgeted(rt.alloc(), &mut Cut::pieces(UNENDED, 1), 11);
    same(&"just enough", &got, &(Ok((1, 0, 1, 0)), 11, 5))
}

fn put_numbered(alloc: Global, folder: &mut MemFolder, number: u32) -> Result<(), FolderFault> {
    folder.put(Sub::Cur, format!(in alloc; "f{number}")?, Vec::new(alloc))
}

// A folder with the first empty message, and this many other files in `cur`.
fn crowded(alloc: Global, count: u32) -> Result<MemFolder, FolderFault> {
    let mut folder = folder_of(alloc, &[(Sub::Cur, ONE_SEEN, b"")])?;
    for number in 1..=count {
        put_numbered(alloc, &mut folder, number)?;
    }
    Ok(folder)
}

// A run finds the first empty message among a thousand other files, and delivers the second.
#[test]
fn many_foreign_names(rt: HostRuntime) -> Result<(), Fail> {
    let mut folder = crowded(rt.alloc(), 1000)?;
    let answer = run_over(rt.alloc(), &mut folder, TWO_EMPTY);
    let got = (
        answer,
        folder.calls(),
        folder.count(Sub::New),
        folder.count(Sub::Cur),
    );
    same(&"a thousand", &got, &(Ok((2, 1, 1, 0)), 5, 1, 1001))?;
    Ok(())
}
