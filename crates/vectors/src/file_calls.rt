// Which calls make, move and remove a file, and sync a folder, on a file system that answers each call
// as a script says.
use crate::calls::{EXISTS, FOLDER, NO_RIGHT, NO_SPACE, NOT_FOUND, OWN, Row, calls_of, made};
use crate::rows::same;
use maildir_calls::{Facts, create_file, move_file, remove_file, sync_folder, sync_root};
use maildir_memory::{Answer, Handle};
use std::io;
use std::io::ErrorKind;
use std::test::Fail;

const INVALID: Answer = Answer::Fails(22);

const READ_ONLY: Answer = Answer::Fails(30);

// The call that opened the file, or the error.
type Created = Result<usize, ErrorKind>;

const CREATIONS: &[Row<'_, Created>] = &[
    (
        "no file has the name",
        &[],
        &["open(m/tmp/f, O_EXCL, 600)"],
        Ok(0),
    ),
    (
        "our own file has it",
        &[
            EXISTS,
            FOLDER,
            Answer::Found(OWN),
            Answer::Done,
            Answer::Found(OWN),
        ],
        &[
            "open(m/tmp/f, O_EXCL, 600)",
            "stat(m/tmp)",
            "lstat(m/tmp/f)",
            "open(m/tmp/f, O_RDWR)",
            "fstat(3)",
            "ftruncate(3, 0)",
        ],
        Ok(3),
    ),
    (
        "another user's file has it",
        &[EXISTS, FOLDER, Answer::Found(Facts { owner: 0, ..OWN })],
        &[
            "open(m/tmp/f, O_EXCL, 600)",
            "stat(m/tmp)",
            "lstat(m/tmp/f)",
        ],
        Err(ErrorKind::Other),
    ),
    (
        "a link has it",
        &[
            EXISTS,
            FOLDER,
            Answer::Found(Facts {
                mode: 0o120_777,
                ..OWN
            }),
        ],
        &[
            "open(m/tmp/f, O_EXCL, 600)",
            "stat(m/tmp)",
            "lstat(m/tmp/f)",
        ],
        Err(ErrorKind::Other),
    ),
    (
        "a file with two names has it",
        &[EXISTS, FOLDER, Answer::Found(Facts { links: 2, ..OWN })],
        &[
            "open(m/tmp/f, O_EXCL, 600)",
            "stat(m/tmp)",
            "lstat(m/tmp/f)",
        ],
        Err(ErrorKind::Other),
    ),
    (
        "another file has it once it is opened",
        &[
            EXISTS,
            FOLDER,
            Answer::Found(OWN),
            Answer::Done,
            Answer::Found(Facts { number: 8, ..OWN }),
        ],
        &[
            "open(m/tmp/f, O_EXCL, 600)",
            "stat(m/tmp)",
            "lstat(m/tmp/f)",
            "open(m/tmp/f, O_RDWR)",
            "fstat(3)",
        ],
        Err(ErrorKind::Other),
    ),
    (
        "the disk is full",
        &[NO_SPACE],
        &["open(m/tmp/f, O_EXCL, 600)"],
        Err(ErrorKind::StorageFull),
    ),
];

#[test]
fn creations(rt: HostRuntime) -> Result<(), Fail> {
    for &(name, script, wanted, ref follows) in CREATIONS {
        let mut calls = calls_of(rt, script)?;
        let created = match create_file(&mut calls, "m/tmp", "m/tmp/f") {
            Ok(file) => Ok(file.call),
            Err(error) => Err(error.kind()),
        };
        same(&name, &created, follows)?;
        made(rt, name, &calls, wanted)?;
    }
    Ok(())
}

// Whether it is done, or the error.
type Done = Result<(), ErrorKind>;

fn done(outcome: io::Result<()>) -> Done {
    outcome.map_err(|error| error.kind())
}

const MOVES: &[Row<'_, Done>] = &[
    ("a file", &[], &["rename(m/tmp/f, m/new/f)"], Ok(())),
    (
        "the file is gone",
        &[NOT_FOUND, NOT_FOUND],
        &["rename(m/tmp/f, m/new/f)", "lstat(m/tmp/f)"],
        Err(ErrorKind::NotFound),
    ),
    (
        "the folder to move to is gone",
        &[NOT_FOUND, Answer::Found(OWN)],
        &["rename(m/tmp/f, m/new/f)", "lstat(m/tmp/f)"],
        Err(ErrorKind::Other),
    ),
    (
        "nobody may look",
        &[NOT_FOUND, NO_RIGHT],
        &["rename(m/tmp/f, m/new/f)", "lstat(m/tmp/f)"],
        Err(ErrorKind::PermissionDenied),
    ),
    (
        "the disk is full",
        &[NO_SPACE],
        &["rename(m/tmp/f, m/new/f)"],
        Err(ErrorKind::StorageFull),
    ),
];

#[test]
fn moves(rt: HostRuntime) -> Result<(), Fail> {
    for &(name, script, wanted, ref follows) in MOVES {
        let mut calls = calls_of(rt, script)?;
        let moved = done(move_file(&mut calls, "m/tmp/f", "m/new/f"));
        same(&name, &moved, follows)?;
        made(rt, name, &calls, wanted)?;
    }
    Ok(())
}

const REMOVALS: &[Row<'_, Done>] = &[
    ("a file", &[], &["unlink(m/tmp/f)"], Ok(())),
    ("no file", &[NOT_FOUND], &["unlink(m/tmp/f)"], Ok(())),
    (
        "no right",
        &[NO_RIGHT],
        &["unlink(m/tmp/f)"],
        Err(ErrorKind::PermissionDenied),
    ),
];

#[test]
fn removals(rt: HostRuntime) -> Result<(), Fail> {
    for &(name, script, wanted, ref follows) in REMOVALS {
        let mut calls = calls_of(rt, script)?;
        same(&name, &done(remove_file(&mut calls, "m/tmp/f")), follows)?;
        made(rt, name, &calls, wanted)?;
    }
    Ok(())
}

const SYNCS: &[Row<'_, Done>] = &[
    ("a folder", &[], &["open(m/new)", "fsync(0)"], Ok(())),
    (
        "there is no folder",
        &[NOT_FOUND],
        &["open(m/new)"],
        Err(ErrorKind::NotFound),
    ),
    (
        "there is no sync",
        &[Answer::Done, INVALID],
        &["open(m/new)", "fsync(0)"],
        Err(ErrorKind::InvalidInput),
    ),
];

#[test]
fn syncs(rt: HostRuntime) -> Result<(), Fail> {
    for &(name, script, wanted, ref follows) in SYNCS {
        let mut calls = calls_of(rt, script)?;
        same(&name, &done(sync_folder(&mut calls, "m/new")), follows)?;
        made(rt, name, &calls, wanted)?;
    }
    Ok(())
}

// A row of a Maildir that this run made, whose parent is open, or of one that was there.
type RootRow<'a> = (bool, Row<'a, Done>);

const ROOTS: &[RootRow<'_>] = &[
    (
        false,
        (
            "one that was there",
            &[],
            &["open(m)", "fsync(0)", "open(m/..)", "fsync(2)"],
            Ok(()),
        ),
    ),
    (
        true,
        (
            "one that was made",
            &[],
            &["open(m)", "fsync(0)", "fsync(7)"],
            Ok(()),
        ),
    ),
    (
        false,
        (
            "the parent may not be opened",
            &[Answer::Done, Answer::Done, NO_RIGHT],
            &["open(m)", "fsync(0)", "open(m/..)"],
            Ok(()),
        ),
    ),
    (
        false,
        (
            "the parent is gone",
            &[Answer::Done, Answer::Done, NOT_FOUND],
            &["open(m)", "fsync(0)", "open(m/..)"],
            Err(ErrorKind::NotFound),
        ),
    ),
    (
        false,
        (
            "the parent has no sync",
            &[Answer::Done, Answer::Done, Answer::Done, INVALID],
            &["open(m)", "fsync(0)", "open(m/..)", "fsync(2)"],
            Ok(()),
        ),
    ),
    (
        false,
        (
            "the parent may only be read",
            &[Answer::Done, Answer::Done, Answer::Done, READ_ONLY],
            &["open(m)", "fsync(0)", "open(m/..)", "fsync(2)"],
            Ok(()),
        ),
    ),
    (
        false,
        (
            "the parent's disk is full",
            &[Answer::Done, Answer::Done, Answer::Done, NO_SPACE],
            &["open(m)", "fsync(0)", "open(m/..)", "fsync(2)"],
            Err(ErrorKind::StorageFull),
        ),
    ),
    (
        true,
        (
            "the parent of one that was made has no sync",
            &[Answer::Done, Answer::Done, INVALID],
            &["open(m)", "fsync(0)", "fsync(7)"],
            Err(ErrorKind::InvalidInput),
        ),
    ),
    (
        false,
        (
            "the Maildir has no sync",
            &[Answer::Done, INVALID],
            &["open(m)", "fsync(0)"],
            Err(ErrorKind::InvalidInput),
        ),
    ),
];

#[test]
fn roots(rt: HostRuntime) -> Result<(), Fail> {
    for &(is_made, (name, script, wanted, ref follows)) in ROOTS {
        let mut calls = calls_of(rt, script)?;
        let parent = is_made.then_some(Handle { call: 7 });
        let synced = done(sync_root(&mut calls, "m", "m/..", &parent));
        same(&name, &synced, follows)?;
        made(rt, name, &calls, wanted)?;
    }
    Ok(())
}
