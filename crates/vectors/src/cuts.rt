// Power cuts of a system in memory that loses what was not synced. In any other order than the
// right one, the steps that deliver a message lose it in some case of what a cut leaves.
use crate::mem_system::{system_of, system_with};
use crate::rows::same;
use crate::runs::run_over;
use crate::scripts::{Deed, turns_of};
use crate::texts::{ABC, ABC_SEEN, File, UNENDED};
use Step::{Rename, SyncCur, SyncFile, SyncNew, SyncRoot, Write};
use maildir_disk::{DiskFolder, System};
use maildir_memory::{MemSystem, Stamps, TurnAct};
use maildir_name::Place;
use maildir_run::{MemFolder, Sub};
use std::io;
use std::test::Fail;

// No test makes this many cases.
const ROOM: usize = 1_000;

// A reader moves the message to `cur`.
const MOVES: &[Deed<'_>] = &[Deed::ToCur(ABC, ABC_SEEN)];

/// An empty Maildir that was not synced yet and loses what is not, and a program that does this.
pub(crate) fn losing(rt: HostRuntime, deeds: &[Deed<'_>], turn: u8) -> Result<MemSystem, Fail> {
    let mut system = system_of(rt, Stamps::Fine, &[], deeds, turn)?;
    system.lose(ROOM);
    Ok(system)
}

/// The same, where the program deletes this file of `new`.
pub(crate) fn losing_one(rt: HostRuntime, name: &str, turn: u8) -> Result<MemSystem, Fail> {
    let alloc = rt.alloc();
    let mut acts = Vec::new(alloc);
    acts.push(TurnAct::Delete(Sub::New, String::from_str(alloc, name)?))?;
    let turns = turns_of(alloc, acts, turn)?;
    let mut system = system_with(rt, Stamps::Fine, &[], turns)?;
    system.lose(ROOM);
    Ok(system)
}

// The steps that deliver a message, and what is synced between them.
#[derive(Clone, Copy)]
enum Step {
    Write,
    SyncFile,
    Rename,
    SyncNew,
    SyncCur,
    SyncRoot,
}

fn make_steps(system: &mut MemSystem, steps: &[Step]) -> io::Result<()> {
    let mut file = system.create(ABC)?;
    for step in steps {
        match step {
            Write => {
                let taken = system.append(&mut file, b"abc")?;
                let _ = system.append(&mut file, &b"abc"[taken.min(3)..])?;
            }
            SyncFile => system.sync_file(&file)?,
            Rename => system.rename(ABC, Place::New, ABC)?,
            SyncNew => system.sync_folder(Place::New)?,
            SyncCur => system.sync_folder(Place::Cur)?,
            SyncRoot => system.sync_root()?,
        }
    }
    Ok(())
}

// Whether the message is found, and only its body is under its names.
fn is_found(folder: &MemFolder) -> bool {
    let body = Some(b"abc".as_slice());
    match (
        folder.bytes_of(Sub::New, ABC),
        folder.bytes_of(Sub::Cur, ABC_SEEN),
    ) {
        (None, None) => false,
        (None, seen) => seen == body,
        (new, None) => new == body,
        (new, seen) => new == body && seen == body,
    }
}

// Whether the message is found in each case that a cut may leave after these steps, while a reader
// moves it to `cur` at the turn of this number; and whether one of the cases has two files of it.
fn survives(rt: HostRuntime, steps: &[Step], turn: u8) -> Result<(bool, bool), Fail> {
    let (mut always, mut doubled) = (true, false);
    for case in 0..ROOM {
        let mut system = losing(rt, MOVES, turn)?;
        make_steps(&mut system, steps)?;
        let cases = system.cases();
        system.cut(case);
        let folder = system.folder();
        always = always && is_found(folder);
        doubled = doubled || (folder.count(Sub::New) > 0 && folder.count(Sub::Cur) > 0);
        if case.saturating_add(1) >= cases {
            return Ok((always, doubled));
        }
    }
    Err(Fail::new("more cases than were tried"))
}

// The same, at any turn.
fn survives_any(rt: HostRuntime, steps: &[Step]) -> Result<(bool, bool), Fail> {
    let (mut always, mut doubled) = (true, false);
    for turn in 1..12u8 {
        let (found, both) = survives(rt, steps, turn)?;
        always = always && found;
        doubled = doubled || both;
    }
    Ok((always, doubled))
}

const RIGHT: &[Step] = &[Write, SyncFile, Rename, SyncNew, SyncCur, SyncRoot];

const WRONG: &[(&str, &[Step])] = &[
    (
        "no sync of the file",
        &[Write, Rename, SyncNew, SyncCur, SyncRoot],
    ),
    (
        "the file before the write",
        &[SyncFile, Write, Rename, SyncNew, SyncCur, SyncRoot],
    ),
    (
        "the file after the placement",
        &[Write, Rename, SyncFile, SyncNew, SyncCur, SyncRoot],
    ),
    (
        "new before the placement",
        &[Write, SyncFile, SyncNew, Rename, SyncCur, SyncRoot],
    ),
    (
        "no sync of new",
        &[Write, SyncFile, Rename, SyncCur, SyncRoot],
    ),
    (
        "no sync of cur",
        &[Write, SyncFile, Rename, SyncNew, SyncRoot],
    ),
    (
        "cur before new",
        &[Write, SyncFile, Rename, SyncCur, SyncNew, SyncRoot],
    ),
    (
        "no sync of the Maildir",
        &[Write, SyncFile, Rename, SyncNew, SyncCur],
    ),
];

// The order of the steps keeps a message. In the right order, half of a reader's rename may
// survive.
#[test]
fn orders_of_syncs(rt: HostRuntime) -> Result<(), Fail> {
    same(&"the right order", &survives_any(rt, RIGHT)?, &(true, true))?;
    for &(name, steps) in WRONG {
        let (always, _) = survives_any(rt, steps)?;
        same(&name, &always, &false)?;
    }
    Ok(())
}

// A message in this folder, under a name with a flag. A program deletes the message at this turn,
// and no sync makes that durable.
fn deleting(rt: HostRuntime, sub: Sub, turn: u8) -> Result<MemSystem, Fail> {
    let alloc = rt.alloc();
    let files: &[File<'_>] = &[(sub, ABC_SEEN, b"abc")];
    let mut acts = Vec::new(alloc);
    acts.push(TurnAct::Delete(sub, String::from_str(alloc, ABC_SEEN)?))?;
    let mut system = system_with(rt, Stamps::Fine, files, turns_of(alloc, acts, turn)?)?;
    system.lose(ROOM);
    Ok(system)
}

// How many cases there are of what a cut leaves, and how many files it leaves in this one.
fn left_after_cut(mut system: MemSystem, case: usize) -> (usize, usize) {
    let cases = system.cases();
    system.cut(case);
    let left = system.folder();
    let files = left.count(Sub::New).saturating_add(left.count(Sub::Cur));
    (cases, files)
}

// A run over the text of the deleted message, and a cut with this case. Returns whether the message
// was placed, how many cases there were, and how many files there are.
fn delivered_again(
    rt: HostRuntime,
    sub: Sub,
    turn: u8,
    case: usize,
) -> Result<(bool, usize, usize), Fail> {
    let mut folder = DiskFolder::new(deleting(rt, sub, turn)?);
    let placed = run_over(rt.alloc(), &mut folder, UNENDED) == Ok((1, 0, 1, 0));
    let (cases, files) = left_after_cut(folder.into_system(), case);
    Ok((placed, cases, files))
}

// Whether a run delivers a message again that was deleted at some turn. No cut leaves two files.
fn is_delivered_again(rt: HostRuntime, name: &str, sub: Sub) -> Result<bool, Fail> {
    let mut again = false;
    for turn in 1..20u8 {
        for case in 0..ROOM {
            let (placed, cases, files) = delivered_again(rt, sub, turn, case)?;
            same(&(name, turn, case), &(files <= 1), &true)?;
            again = again || (placed && files == 1);
            if case.saturating_add(1) >= cases {
                break;
            }
        }
    }
    Ok(again)
}

// A message that was deleted and delivered again is never in two files, since the listing of its
// folder makes the deletion durable.
#[test]
fn deleted_and_delivered_again(rt: HostRuntime) -> Result<(), Fail> {
    for (name, sub) in [("new", Sub::New), ("cur", Sub::Cur)] {
        same(&name, &is_delivered_again(rt, name, sub)?, &true)?;
    }
    Ok(())
}

// Two runs over that text in one folder, and a cut with this case. A sync fails after this many
// that work, and the syncs after it keep nothing. Returns whether one of the two runs answered Ok,
// how many cases there were, and how many files there are.
fn run_twice(
    rt: HostRuntime,
    turn: u8,
    syncs: u64,
    case: usize,
) -> Result<(bool, usize, usize), Fail> {
    let mut system = deleting(rt, Sub::Cur, turn)?;
    system.fail_sync_after(syncs);
    let mut folder = DiskFolder::new(system);
    let first = run_over(rt.alloc(), &mut folder, UNENDED).is_ok();
    let second = run_over(rt.alloc(), &mut folder, UNENDED).is_ok();
    let (cases, files) = left_after_cut(folder.into_system(), case);
    Ok((first || second, cases, files))
}

// After a sync that failed, no later sync of the same folder is believed, though it would return
// Ok.
#[test]
fn no_sync_after_one_that_failed(rt: HostRuntime) -> Result<(), Fail> {
    for syncs in 0..2u64 {
        for turn in 1..20u8 {
            for case in 0..ROOM {
                let (ended, cases, files) = run_twice(rt, turn, syncs, case)?;
                same(&(syncs, turn, case), &(ended, files <= 1), &(false, true))?;
                if case.saturating_add(1) >= cases {
                    break;
                }
            }
        }
    }
    Ok(())
}

// Two files, by their bases and the names that they are placed under.
const PLACED: &[(&str, &str)] = &[("u", "u:2,S"), ("v", "v:2,F")];

// Both files are placed in `cur`, and no sync is made.
fn both_placed(rt: HostRuntime) -> Result<MemSystem, Fail> {
    let mut system = losing(rt, &[], 1)?;
    for &(name, target) in PLACED {
        system.create(name)?;
        system.rename(name, Place::Cur, target)?;
    }
    Ok(system)
}

// Whether a cut with this case leaves the first of them, whether it leaves the second, and how many
// files there are.
fn left_of_both(rt: HostRuntime, case: usize) -> Result<(bool, bool, usize), Fail> {
    let mut system = both_placed(rt)?;
    system.cut(case);
    let folder = system.folder();
    let first = folder.bytes_of(Sub::Cur, "u:2,S").is_some();
    let second = folder.bytes_of(Sub::Cur, "v:2,F").is_some();
    Ok((first, second, folder.count(Sub::Cur)))
}

// Each of two renames is kept or lost by itself.
#[test]
fn each_rename_by_itself(rt: HostRuntime) -> Result<(), Fail> {
    let mut alone = (false, false);
    for case in 0..both_placed(rt)?.cases() {
        let (first, second, in_all) = left_of_both(rt, case)?;
        same(
            &case,
            &in_all,
            &(first as usize).saturating_add(second as usize),
        )?;
        alone.0 = alone.0 || (first && !second);
        alone.1 = alone.1 || (second && !first);
    }
    same(&"each alone", &alone, &(true, true))?;
    Ok(())
}
