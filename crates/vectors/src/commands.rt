// The same words given again and again: interrupted at each fourth call, with a power cut after
// each command, and killed at each call.
use crate::cuts::{losing, losing_one};
use crate::planning::names;
use crate::rows::same;
use crate::sources::Cut;
use crate::texts::{ABC_LINE, HELLO_LINE, TWO_LINES};
use crate::writers::Narrow;
use maildir_commands::{Killed, Machine, run, run_killed};
use maildir_memory::{MemMachine, MemSystem, NamedText};
use maildir_run::Sub;
use std::cell::Cell;
use std::io::BufWriter;
use std::test::Fail;

// How many places the calls fail at, each four calls after the one before. The last is after all
// calls that the words make.
const STOPS: u64 = 23;

// Each power cut leaves one of this many cases.
const CASES: usize = 64;

const TEXTS: &[NamedText<'static>] = &[
    NamedText {
        name: "one",
        text: b"From x\nz",
    },
    NamedText {
        name: "two",
        text: TWO_LINES,
    },
];

const Z: &str = "594e519ae499312b29433b7dd8a97ff068defcba9755b6d5d00e84c524d67b06.1";

const MESSAGES: &[(&str, &[u8])] = &[(Z, b"z"), (ABC_LINE, b"abc\n"), (HELLO_LINE, b"hello\n")];

// Runs a command of which this many calls of the Maildir work; then a power cut leaves this case.
// Returns the status, how many cases there were, and how many of the messages are in `new`, if each
// file there is one of them with its body.
fn command(
    rt: HostRuntime,
    machine: &mut MemMachine<'static>,
    calls: u64,
    case: usize,
) -> Result<(u8, usize, Option<usize>), Fail> {
    let alloc = rt.alloc();
    let words = names(alloc, &["convert", "M", "one", "two"])?;
    let mut out = BufWriter::with_capacity(alloc, 16, Narrow::new(alloc, 1000, 64, true))?;
    let mut err = Narrow::new(alloc, 1000, 64, true);
    let mut input = Cut::pieces(b"", 4);
    let Ok(mut system) = machine.open_maildir("M") else {
        return Ok((9, 0, None));
    };
    system.fail_after(calls);
    machine.close_maildir("M", system);
    let status = run(
        machine,
        alloc,
        words.as_slice(),
        &mut input,
        &mut out,
        &mut err,
    );
    let Ok(mut system) = machine.open_maildir("M") else {
        return Ok((9, 0, None));
    };
    let cases = system.cases();
    system.cut(case);
    let found = at_home(&system);
    machine.close_maildir("M", system);
    Ok((status, cases, found))
}

fn at_home(system: &MemSystem) -> Option<usize> {
    let folder = system.folder();
    let mut found = 0usize;
    for &(name, body) in MESSAGES {
        match folder.bytes_of(Sub::New, name) {
            None => {}
            Some(bytes) if bytes == body => found = found.saturating_add(1),
            Some(_) => return None,
        }
    }
    if folder.count(Sub::New) == found && folder.count(Sub::Cur) == 0 {
        Some(found)
    } else {
        None
    }
}

// What a history leaves: the first status, how many cases the cut had, and how many messages are
// there after it; then the second status, and how many are there after the second and the third
// command.
type History = (
    (u8, usize, Option<usize>),
    (u8, Option<usize>, Option<usize>),
);

// The words name a missing Maildir, which is made. This many of its calls work, and a power cut
// leaves this case. Then the words are given again, and once more, when only five
// calls work.
fn history(rt: HostRuntime, calls: u64, case: usize) -> Result<History, Fail> {
    let mut machine = MemMachine::new(rt.alloc(), TEXTS);
    machine.make_of(losing(rt, &[], 1)?);
    let first = command(rt, &mut machine, calls, case)?;
    let (status, _, second) = command(rt, &mut machine, u64::MAX, 0)?;
    let (_, _, third) = command(rt, &mut machine, 5, 1)?;
    Ok((first, (status, second, third)))
}

#[test]
fn commands_and_power_cuts(rt: HostRuntime) -> Result<(), Fail> {
    let mut ended = (false, false);
    for stop in 0u64..STOPS {
        let calls = 4 * stop;
        for case in 0usize..CASES {
            let ((status, cases, first), later) = history(rt, calls, case)?;
            let owed = if status == 0 { 3 } else { first.unwrap_or(0) };
            let got = (cases <= CASES, first, later);
            same(
                &(calls, case),
                &got,
                &(true, Some(owed), (0, Some(3), Some(3))),
            )?;
            ended.0 = ended.0 || status == 0;
            ended.1 = ended.1 || status != 0;
            if cases <= case + 1 {
                break;
            }
        }
    }
    same(&"done, and stopped", &ended, &(true, true))
}

// How many of the messages are there after a command was killed that had made this many calls, also
// of its streams. Then the words are given again, to the end.
fn after_a_kill(rt: HostRuntime, calls: u64) -> Result<(Option<usize>, u8, Option<usize>), Fail> {
    let alloc = rt.alloc();
    let words = names(alloc, &["convert", "M", "one", "two"])?;
    let left = Cell::new(calls);
    let mut machine = MemMachine::new(alloc, TEXTS);
    machine.make_of(losing(rt, &[], 1)?);
    let mut machine = Killed::new(machine, &left);
    let out = Killed::new(Narrow::new(alloc, 1000, 64, true), &left);
    run_killed(
        &mut machine,
        alloc,
        words.as_slice(),
        &mut Killed::new(Cut::pieces(b"", 4), &left),
        &mut BufWriter::with_capacity(alloc, 16, out)?,
        &mut Killed::new(Narrow::new(alloc, 1000, 64, true), &left),
    );
    let mut machine = machine.into_inner();
    let killed = match machine.maildir("M") {
        Some(system) => at_home(system),
        None => None,
    };
    let (status, _, found) = command(rt, &mut machine, u64::MAX, CASES)?;
    Ok((killed, status, found))
}

#[test]
fn killed_commands(rt: HostRuntime) -> Result<(), Fail> {
    same(&"at once", &after_a_kill(rt, 0)?, &(None, 0, Some(3)))?;
    for calls in 1u64..200 {
        let (_, status, found) = after_a_kill(rt, calls)?;
        same(&calls, &(status, found), &(0, Some(3)))?;
    }
    same(
        &"not killed",
        &after_a_kill(rt, 1000)?,
        &(Some(3), 0, Some(3)),
    )
}

// What a command leaves after another program deleted the first message: the status, whether the
// message is there, and how many are.
type Left = (u8, bool, Option<usize>);

fn left_by(rt: HostRuntime, machine: &mut MemMachine<'static>) -> Result<Left, Fail> {
    let (status, _, found) = command(rt, machine, u64::MAX, CASES)?;
    let is_there = match machine.maildir("M") {
        Some(system) => system.folder().bytes_of(Sub::New, Z).is_some(),
        None => false,
    };
    Ok((status, is_there, found))
}

// A command is interrupted, and a power cut follows. At this turn another program deletes the first
// message, if it is there. Then the words are given again, and once more.
fn deletion(rt: HostRuntime, turn: u8) -> Result<(u8, Left, Left), Fail> {
    let mut machine = MemMachine::new(rt.alloc(), TEXTS);
    machine.make_of(losing_one(rt, Z, turn)?);
    let (first, _, _) = command(rt, &mut machine, 40, CASES)?;
    Ok((
        first,
        left_by(rt, &mut machine)?,
        left_by(rt, &mut machine)?,
    ))
}

// After each status 0 the other messages are there. The deleted one is there after the next status
// 0.
#[test]
fn deletions_between_commands(rt: HostRuntime) -> Result<(), Fail> {
    let mut deleted = (false, false);
    for turn in 1..80u8 {
        let (first, second, third) = deletion(rt, turn)?;
        let owed = if second.1 { 3 } else { 2 };
        same(
            &turn,
            &(first, second, third),
            &(1, (0, second.1, Some(owed)), (0, true, Some(3))),
        )?;
        deleted.0 = deleted.0 || second.1;
        deleted.1 = deleted.1 || !second.1;
    }
    same(&"there, and deleted", &deleted, &(true, true))
}
