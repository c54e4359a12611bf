// Runs while a mail reader and other programs are at work.
use crate::runs::folder_of;
use crate::scripts::{Deed, Line, Run, Scene, go, go_all};
use crate::texts::{
    ABC, ABC_SEEN, EMPTY_ONE, EMPTY_TWO, File, ONE_SEEN, THREE, TWO_EMPTY, TWO_SEEN, UNENDED,
};
use maildir_run::{Mode, RunFault, Sub};
use std::test::Fail;

const ONE_FLAGGED: &str = "e3b0c44298fc1c149afbf4c8996fb92427ae41e4649b934ca495991b7852b855.1:2,F";

const ONE_FLAGGED_SEEN: &str =
    "e3b0c44298fc1c149afbf4c8996fb92427ae41e4649b934ca495991b7852b855.1:2,FS";

const ABC_ALONE: &[File<'_>] = &[(Sub::New, ABC, b"abc")];

const ABC_IN_CUR: &[File<'_>] = &[(Sub::Cur, ABC_SEEN, b"abc")];

const ONE_IN_CUR: &[File<'_>] = &[(Sub::New, EMPTY_TWO, b""), (Sub::Cur, ONE_FLAGGED, b"")];

const BOTH_IN_CUR: &[File<'_>] = &[
    (Sub::New, ABC, b"abc"),
    (Sub::Cur, ONE_FLAGGED_SEEN, b""),
    (Sub::Cur, TWO_SEEN, b""),
];

const MOVES: &[Line<'_>] = &[(3, &[Deed::ToCur(ABC, ABC_SEEN)], Mode::Plain)];

const DROPS: &[Line<'_>] = &[(5, &[Deed::DropTmp(ABC)], Mode::Plain)];

const STOPS: &[Line<'_>] = &[
    (6, &[Deed::ToCur(EMPTY_ONE, ONE_FLAGGED)], Mode::Plain),
    (7, &[], Mode::FailAfter),
];

const FLAGS: &[Line<'_>] = &[
    (3, &[Deed::ToCur(EMPTY_TWO, TWO_SEEN)], Mode::Plain),
    (
        3,
        &[Deed::Reflag(ONE_FLAGGED, ONE_FLAGGED_SEEN)],
        Mode::Plain,
    ),
];

const DOES_NOTHING: &[Line<'_>] = &[(
    1,
    &[
        Deed::ToCur(EMPTY_ONE, TWO_SEEN),
        Deed::PutOther(Sub::Tmp, ABC),
        Deed::DropTmp("x"),
        Deed::Reflag(EMPTY_ONE, ONE_SEEN),
        Deed::DropOther(Sub::New, EMPTY_ONE),
    ],
    Mode::Plain,
)];

const BOTH_AND_FOREIGN: &[File<'_>] = &[
    (Sub::Tmp, "x", b"z"),
    (Sub::New, EMPTY_ONE, b""),
    (Sub::New, EMPTY_TWO, b""),
];

const COMES: &[Line<'_>] = &[(4, &[Deed::PutOther(Sub::Tmp, "x")], Mode::Plain)];

const TWO_LINES: &[Line<'_>] = &[
    (1, &[Deed::PutOther(Sub::New, "y")], Mode::FailBefore),
    (1, &[Deed::DropOther(Sub::Tmp, "x")], Mode::Plain),
];

const SCENES: &[Scene<'_>] = &[
    (
        "moved_between_listings",
        &[],
        &[
            (&[], UNENDED, Ok((1, 0, 1, 0)), ABC_ALONE),
            (MOVES, UNENDED, Ok((1, 1, 0, 0)), ABC_IN_CUR),
            (&[], UNENDED, Ok((1, 1, 0, 0)), ABC_IN_CUR),
        ],
    ),
    (
        "dropped_before_it_is_placed",
        &[],
        &[
            (DROPS, UNENDED, Err(RunFault::FolderAbsent), &[]),
            (&[], UNENDED, Ok((1, 0, 1, 0)), ABC_ALONE),
        ],
    ),
    // the first message is moved before the run stops, and both get other flags before the next run
    // lists `cur`
    (
        "read_and_reflagged",
        &[],
        &[
            (STOPS, THREE, Err(RunFault::FolderFailed(7)), ONE_IN_CUR),
            (FLAGS, THREE, Ok((3, 2, 1, 0)), BOTH_IN_CUR),
        ],
    ),
    // several acts in one line, whose conditions all fail
    (
        "acts_that_do_nothing",
        BOTH_AND_FOREIGN,
        &[(DOES_NOTHING, TWO_EMPTY, Ok((2, 2, 0, 0)), BOTH_AND_FOREIGN)],
    ),
    (
        "foreign_file_comes",
        &[],
        &[(
            COMES,
            UNENDED,
            Ok((1, 0, 1, 0)),
            &[(Sub::Tmp, "x", b"z"), (Sub::New, ABC, b"abc")],
        )],
    ),
    // the mode of the first line applies, and the acts of both are made
    (
        "two_lines_for_one_call",
        &[(Sub::Tmp, "x", b"z")],
        &[(
            TWO_LINES,
            UNENDED,
            Err(RunFault::FolderFailed(1)),
            &[(Sub::New, "y", b"z")],
        )],
    ),
];

#[test]
fn disturbed_runs(rt: HostRuntime) -> Result<(), Fail> {
    for &(name, files, runs) in SCENES {
        go_all(rt.alloc(), &name, files, runs)?;
    }
    Ok(())
}

// If all calls fail from one on, acts are made all the same, and modes don't count.
#[test]
fn acts_before_a_call_that_fails(rt: HostRuntime) -> Result<(), Fail> {
    const DROPS: &[Line<'_>] = &[(2, &[Deed::DropOther(Sub::New, "y")], Mode::Twice)];
    const RUN: Run<'_> = (DROPS, UNENDED, Err(RunFault::FolderFailed(2)), &[]);
    let mut folder = folder_of(rt.alloc(), &[(Sub::New, "y", b"z")])?;
    go(
        rt.alloc(),
        &"from the second call on",
        &mut folder,
        RUN,
        Some(2),
    )?;
    Ok(())
}
