// Runs that are interrupted at a call of the folder, and the run after them.
use crate::rows::same;
use crate::runs::{Answer, run_over};
use crate::scripts::{Deed, Run, Scene, go, go_all, script_of};
use crate::texts::{ABC, ALL_THREE, EMPTY_ONE, EMPTY_TWO, File, THREE, UNENDED};
use maildir_run::{MemFolder, Mode, RunFault, Sub};
use std::alloc::Global;
use std::test::Fail;

const FIRST_TWO: &[File<'_>] = &[(Sub::New, EMPTY_ONE, b""), (Sub::New, EMPTY_TWO, b"")];

const LAST_HALF_WRITTEN: &[File<'_>] = &[
    (Sub::Tmp, ABC, b"a"),
    (Sub::New, EMPTY_ONE, b""),
    (Sub::New, EMPTY_TWO, b""),
];

const LAST_WRITTEN: &[File<'_>] = &[
    (Sub::Tmp, ABC, b"abc"),
    (Sub::New, EMPTY_ONE, b""),
    (Sub::New, EMPTY_TWO, b""),
];

// A quiet run that finds and sweeps this many, and leaves the three messages and nothing else.
fn repairs(there: u64, swept: u64) -> Run<'static> {
    let placed = 3u64.saturating_sub(there);
    (&[], THREE, Ok((3, there, placed, swept)), ALL_THREE)
}

// A run stops at this call, since the call goes in this mode or, without a mode, since all calls
// from it on fail. The next run finds and sweeps this many.
fn stop(
    alloc: Global,
    row: (&str, u64),
    mode: Option<Mode>,
    found: (u64, u64),
) -> Result<(), Fail> {
    let call = row.1;
    let mut folder = MemFolder::new(alloc);
    match mode {
        Some(mode) => folder.script(script_of(alloc, &[(call, &[], mode)])?, None),
        None => folder.script(Vec::new(alloc), Some(call)),
    }
    let answer = run_over(alloc, &mut folder, THREE);
    let wanted = (Err(RunFault::FolderFailed(call)), call);
    same(&row, &(answer, folder.calls()), &wanted)?;
    go(alloc, &row, &mut folder, repairs(found.0, found.1), None)
}

#[test]
fn a_stop_at_each_call(rt: HostRuntime) -> Result<(), Fail> {
    // the call, and for each mode how many the next run finds there and sweeps
    const ROWS: &[(u64, (u64, u64), (u64, u64), (u64, u64))] = &[
        (1, (0, 0), (0, 0), (0, 0)),
        (2, (0, 0), (0, 0), (0, 0)),
        (3, (0, 0), (0, 0), (0, 0)),
        (4, (0, 0), (0, 1), (0, 1)),
        (5, (0, 1), (1, 0), (0, 1)),
        (6, (1, 0), (1, 1), (1, 1)),
        (7, (1, 1), (2, 0), (1, 1)),
        (8, (2, 0), (2, 1), (2, 1)),
        (9, (2, 1), (3, 0), (2, 1)),
    ];
    for &(call, before, after, half) in ROWS {
        let stops = [
            ("FailBefore", Some(Mode::FailBefore), before),
            ("FailAfter", Some(Mode::FailAfter), after),
            ("Half", Some(Mode::Half), half),
            ("each call from it on", None, before),
        ];
        for (name, mode, found) in stops {
            stop(rt.alloc(), (name, call), mode, found)?;
        }
    }
    Ok(())
}

// A run goes on as usual if this call comes twice, and the next run finds all.
fn come_twice(alloc: Global, call: u64) -> Result<(), Fail> {
    let mut folder = MemFolder::new(alloc);
    let twice = [(call, [].as_slice(), Mode::Twice)];
    let run = (twice.as_slice(), THREE, Ok((3, 0, 3, 0)), ALL_THREE);
    go(alloc, &call, &mut folder, run, None)?;
    go(alloc, &(call, "again"), &mut folder, repairs(3, 0), None)
}

#[test]
fn a_call_comes_twice(rt: HostRuntime) -> Result<(), Fail> {
    for call in 1..10u64 {
        come_twice(rt.alloc(), call)?;
    }
    Ok(())
}

// The runs that place the last message after a stop: it is missing, or left over in `tmp`.
const LAST_IS_MISSING: Run<'_> = (&[], THREE, Ok((3, 2, 1, 0)), ALL_THREE);

const LAST_IS_LEFT_OVER: Run<'_> = (&[], THREE, Ok((3, 2, 1, 1)), ALL_THREE);

const DROPS: &[Deed<'_>] = &[Deed::DropTmp(ABC)];

const FAULT_4: Answer = Err(RunFault::FolderFailed(4));

const FAULT_7: Answer = Err(RunFault::FolderFailed(7));

const FAULT_8: Answer = Err(RunFault::FolderFailed(8));

const FAULT_5: Answer = Err(RunFault::FolderFailed(5));

const STOPPED: &[Scene<'_>] = &[
    (
        "fails_after_the_effect",
        &[],
        &[
            (&[(7, &[], Mode::FailAfter)], THREE, FAULT_7, FIRST_TWO),
            LAST_IS_MISSING,
        ],
    ),
    (
        "half_written",
        &[],
        &[
            (&[(8, &[], Mode::Half)], THREE, FAULT_8, LAST_HALF_WRITTEN),
            LAST_IS_LEFT_OVER,
        ],
    ),
    (
        "a_stop_in_the_sweep",
        &[],
        &[
            (&[(8, &[], Mode::FailAfter)], THREE, FAULT_8, LAST_WRITTEN),
            (&[(4, &[], Mode::FailAfter)], THREE, FAULT_4, FIRST_TWO),
            LAST_IS_MISSING,
        ],
    ),
];

// What a placement answers for a file that is not in `tmp`, by its mode.
const NOTHING_TO_PLACE: &[(&str, Mode, Answer)] = &[
    (
        "nothing_to_place, Plain",
        Mode::Plain,
        Err(RunFault::FolderAbsent),
    ),
    ("nothing_to_place, FailBefore", Mode::FailBefore, FAULT_5),
    ("nothing_to_place, FailAfter", Mode::FailAfter, FAULT_5),
    ("nothing_to_place, Half", Mode::Half, FAULT_5),
    (
        "nothing_to_place, Twice",
        Mode::Twice,
        Err(RunFault::FolderAbsent),
    ),
];

#[test]
fn stopped_runs(rt: HostRuntime) -> Result<(), Fail> {
    for &(name, files, runs) in STOPPED {
        go_all(rt.alloc(), &name, files, runs)?;
    }
    for &(name, mode, answer) in NOTHING_TO_PLACE {
        let run: Run<'_> = (&[(5, DROPS, mode)], UNENDED, answer, &[]);
        go_all(rt.alloc(), &name, &[], &[run])?;
    }
    Ok(())
}
