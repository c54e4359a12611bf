// A Maildir over the calls of a system in memory, where another program acts within a call.
use crate::mem_folder::lists;
use crate::rows::same;
use crate::runs::{folder_of, run_over};
use crate::scripts::{Deed, turn_of, turns_of};
use crate::texts::{ABC, ABC_OLD, ABC_SEEN, File, UNENDED};
use maildir_disk::DiskFolder;
use maildir_memory::{MemSystem, Stamps, TurnAct};
use maildir_run::Sub;
use std::test::Fail;
use std::time::{Duration, Instant, UNIX_EPOCH};

/// A Maildir with these files, and another program that does this at the turn of this number.
pub(crate) fn system_of(
    rt: HostRuntime,
    stamps: Stamps,
    files: &[File<'_>],
    deeds: &[Deed<'_>],
    turn: u8,
) -> Result<MemSystem, Fail> {
    let alloc = rt.alloc();
    let turns = turns_of(alloc, turn_of(alloc, deeds)?, turn)?;
    system_with(rt, stamps, files, turns)
}

/// The same with other programs' turns.
pub(crate) fn system_with(
    rt: HostRuntime,
    stamps: Stamps,
    files: &[File<'_>],
    turns: Vec<Vec<TurnAct>>,
) -> Result<MemSystem, Fail> {
    let alloc = rt.alloc();
    let clock = UNIX_EPOCH + Duration::from_millis(1500);
    let instant = Instant::now(&rt)?;
    let folder = folder_of(alloc, files)?;
    Ok(MemSystem::new(alloc, folder, stamps, clock, instant, turns))
}

const STAMPS: &[(&str, Stamps)] = &[
    ("fine stamps", Stamps::Fine),
    ("whole seconds", Stamps::WholeSeconds),
];

const OLD: &[File<'_>] = &[(Sub::Cur, ABC_OLD, b"abc")];

const REFLAGS: &[Deed<'_>] = &[Deed::Reflag(ABC_OLD, ABC_SEEN)];

// A listing has the flag that comes at the eighth call, while the names are first read.
#[test]
fn flag_while_listed(rt: HostRuntime) -> Result<(), Fail> {
    for &(name, stamps) in STAMPS {
        let mut folder = DiskFolder::new(system_of(rt, stamps, OLD, REFLAGS, 8)?);
        lists(&name, &mut folder, false, Sub::Cur, &[ABC_SEEN])?;
    }
    Ok(())
}

// A message whose file gets a flag meanwhile is found, and the next run places two others.
#[test]
fn conversions_in_memory(rt: HostRuntime) -> Result<(), Fail> {
    for &(name, stamps) in STAMPS {
        let mut folder = DiskFolder::new(system_of(rt, stamps, OLD, REFLAGS, 8)?);
        let first = run_over(rt.alloc(), &mut folder, UNENDED);
        let second = run_over(rt.alloc(), &mut folder, b"From x\nd\nFrom x\n");
        same(
            &name,
            &(first, second),
            &(Ok((1, 1, 0, 0)), Ok((2, 0, 2, 0))),
        )?;
    }
    Ok(())
}

// A leftover of an interrupted run, and two files of other programs.
const LEFT: &[File<'_>] = &[
    (Sub::Tmp, ABC, b"ab"),
    (Sub::Tmp, "draft", b"x"),
    (Sub::New, "1.foreign", b"y"),
];

// What the run touches there: it removes the leftover, writes the message, and moves that to `new`.
const TOUCHED: &[(&str, &str)] = &[("tmp", ABC), ("tmp", ABC), ("tmp", ABC), ("new", ABC)];

// The log of a system has the files that its calls touched, by folder and name, and no others.
#[test]
fn touched_files(rt: HostRuntime) -> Result<(), Fail> {
    let mut folder = DiskFolder::new(system_of(rt, Stamps::Fine, LEFT, &[], 1)?);
    let answer = run_over(rt.alloc(), &mut folder, UNENDED);
    same(&"answer", &answer, &Ok((1, 0, 1, 1)))?;
    let system = folder.into_system();
    let log = system.touched();
    same(&"calls", &log.len(), &TOUCHED.len())?;
    for (at, (touched, &wanted)) in log.iter().zip(TOUCHED).enumerate() {
        same(&at, &(touched.sub.name(), touched.name.as_str()), &wanted)?;
    }
    Ok(())
}
