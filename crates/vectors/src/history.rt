// The history for which all that is assumed of any commands holds, made by the program. A command
// is interrupted, and a power cut takes away what it delivered. The next command fails while it
// prints. A message is deleted and delivered again, and another power cut takes nothing away.
use crate::mem_system::system_with;
use crate::planning::names;
use crate::rows::{same, same_bytes};
use crate::scripts::turns_of;
use crate::sources::Cut;
use crate::texts::{EMPTY_ONE, EMPTY_TWO, TWO_EMPTY};
use crate::writers::Narrow;
use maildir_commands::{Machine, run};
use maildir_disk::System;
use maildir_memory::{MemMachine, MemSystem, NamedText, PlainMachine, Stamps, TurnAct};
use maildir_run::Sub;
use std::io::BufWriter;
use std::test::Fail;
use std::time::{Duration, Instant, UNIX_EPOCH};

const TEXTS: &[NamedText<'static>] = &[NamedText {
    name: "mail",
    text: TWO_EMPTY,
}];

// The first message is deleted at this turn, which no command reaches before it is time.
const TURN: u8 = 250;

// More calls than a first command makes that delivers both messages.
const CALLS: u64 = 100;

// No history makes this many cases of what a cut leaves.
const ROOM: usize = 1_000;

// Whether each of the two empty messages is in `new`, and how many files there are.
type There = (bool, bool, usize);

const NONE: There = (false, false, 0);

const BOTH: There = (true, true, 2);

const SECOND: There = (false, true, 1);

fn there(system: &MemSystem) -> There {
    let folder = system.folder();
    let nothing = Some(b"".as_slice());
    (
        folder.bytes_of(Sub::New, EMPTY_ONE) == nothing,
        folder.bytes_of(Sub::New, EMPTY_TWO) == nothing,
        folder
            .count(Sub::New)
            .saturating_add(folder.count(Sub::Cur)),
    )
}

fn found(machine: &MemMachine<'static>) -> There {
    match machine.maildir("M") {
        Some(system) => there(system),
        None => NONE,
    }
}

// A machine that has the text and no Maildir.
fn bare(rt: HostRuntime) -> Result<MemMachine<'static>, Fail> {
    let alloc = rt.alloc();
    let mut acts = Vec::new(alloc);
    acts.push(TurnAct::Delete(Sub::New, String::from_str(alloc, EMPTY_ONE)?))?;
    let mut fresh = system_with(rt, Stamps::Fine, &[], turns_of(alloc, acts, TURN)?)?;
    fresh.lose(ROOM);
    let mut machine = MemMachine::new(alloc, TEXTS);
    machine.make_of(fresh);
    Ok(machine)
}

// Runs a command with this word for the Maildir, whose output takes this many bytes; these are what
// it prints. Returns its status, and what is there then.
fn command(
    rt: HostRuntime,
    machine: &mut MemMachine<'static>,
    into: &'static str,
    room: usize,
    printed: &[u8],
) -> Result<(u8, There), Fail> {
    let alloc = rt.alloc();
    let words = names(alloc, &["convert", into, "mail"])?;
    let mut out = BufWriter::with_capacity(alloc, 64, Narrow::new(alloc, room, 64, true))?;
    let mut err = Narrow::new(alloc, 1000, 64, true);
    let mut input = Cut::pieces(b"", 4);
    let status = run(
        machine,
        alloc,
        words.as_slice(),
        &mut input,
        &mut out,
        &mut err,
    );
    same_bytes(&"printed", out.get_ref().taken.as_slice(), printed)?;
    Ok((status, found(machine)))
}

// From now on this many calls of the Maildir work.
fn stop_after(machine: &mut MemMachine<'static>, calls: u64) {
    if let Ok(mut system) = machine.open_maildir("M") {
        system.fail_after(calls);
        machine.close_maildir("M", system);
    }
}

// A power cut leaves this case, or the last if there are fewer. Returns how many there are.
fn cut(machine: &mut MemMachine<'static>, case: usize) -> usize {
    let Ok(mut system) = machine.open_maildir("M") else {
        return 0;
    };
    let cases = system.cases();
    system.cut(case.min(cases.saturating_sub(1)));
    machine.close_maildir("M", system);
    cases
}

// Time passes until the first message is deleted.
fn delete(machine: &mut MemMachine<'static>) {
    if let Ok(mut system) = machine.open_maildir("M") {
        for _ in 0..TURN {
            if there(&system) == BOTH {
                let _ = system.now();
            }
        }
        machine.close_maildir("M", system);
    }
}

// A command that delivered both messages, and synced no folder, is interrupted.
fn broken_off(rt: HostRuntime) -> Result<MemMachine<'static>, Fail> {
    for calls in 0..CALLS {
        let mut machine = bare(rt)?;
        stop_after(&mut machine, calls);
        if command(rt, &mut machine, "M", 1000, b"")? == (1, BOTH) {
            stop_after(&mut machine, u64::MAX);
            return Ok(machine);
        }
    }
    Err(Fail::new("no command brought both messages"))
}

// Goes through the history, with this case of its last cut. Returns how many cases there are.
fn history(rt: HostRuntime, case: usize) -> Result<usize, Fail> {
    let mut machine = broken_off(rt)?;
    cut(&mut machine, usize::MAX);
    same(&"all is lost", &found(&machine), &NONE)?;
    let got = command(rt, &mut machine, "M", 1, b"m")?;
    same(&"it fails as it prints", &got, &(1, BOTH))?;
    delete(&mut machine);
    same(&"one is deleted", &found(&machine), &SECOND)?;
    let line = b"messages 2, there 1, placed 1, swept 0\n";
    let got = command(rt, &mut machine, "M/", 1000, line)?;
    same(&"it is brought again", &got, &(0, BOTH))?;
    let cases = cut(&mut machine, case);
    same(&("nothing is lost", case), &found(&machine), &BOTH)?;
    Ok(cases)
}

#[test]
fn deleted_and_brought_again(rt: HostRuntime) -> Result<(), Fail> {
    for case in 0..ROOM {
        let cases = history(rt, case)?;
        if case.saturating_add(1) >= cases {
            return Ok(());
        }
    }
    Err(Fail::new("more cases than were tried"))
}

// The machine of plain data works: a command delivers both messages, and the next finds them.
#[test]
fn plainly_delivered(rt: HostRuntime) -> Result<(), Fail> {
    let alloc = rt.alloc();
    let clock = UNIX_EPOCH + Duration::from_secs(10);
    let instant = Instant::now(&rt)?;
    let mut machine = PlainMachine::losing(alloc, TWO_EMPTY, UNIX_EPOCH, clock, instant);
    let words = names(alloc, &["convert", "M", "mail"])?;
    let mut out = BufWriter::with_capacity(alloc, 64, Narrow::new(alloc, 1000, 64, true))?;
    let mut err = Narrow::new(alloc, 1000, 64, true);
    for _ in 0..2 {
        let mut input = Cut::pieces(b"", 4);
        let status = run(
            &mut machine,
            alloc,
            words.as_slice(),
            &mut input,
            &mut out,
            &mut err,
        );
        same(&"the status", &status, &0)?;
    }
    let lines = b"messages 2, there 0, placed 2, swept 0\nmessages 2, there 2, placed 0, swept 0\n";
    same_bytes(&"printed", out.get_ref().taken.as_slice(), lines)?;
    let Some(maildir) = machine.maildir() else {
        return Err(Fail::new("the Maildir is open"));
    };
    same(&"its files", &maildir.folder().count(Sub::New), &2)
}
