// Scripts by rows: what other programs do before a call, and how the call goes.
use crate::rows::same;
use crate::runs::{Answer, folder_of, run_over, same_files};
use crate::texts::File;
use maildir_memory::TurnAct;
use maildir_run::{Act, MemFolder, Mode, RunFault, ScriptLine, Sub};
use std::alloc::{AllocError, Global};
use std::fmt::Debug;
use std::test::Fail;

/// What another program does, by the names of the files; what is put holds `z`.
#[derive(Clone, Copy)]
pub(crate) enum Deed<'a> {
    ToCur(&'a str, &'a str),
    Reflag(&'a str, &'a str),
    DropTmp(&'a str),
    PutOther(Sub, &'a str),
    DropOther(Sub, &'a str),
}

// A name, and the one that comes in its place.
fn pair(alloc: Global, name: &str, other: &str) -> Result<(String, String), AllocError> {
    let name = String::from_str(alloc, name)?;
    Ok((name, String::from_str(alloc, other)?))
}

fn put_other(alloc: Global, sub: Sub, name: &str) -> Result<Act, AllocError> {
    let name = String::from_str(alloc, name)?;
    Ok(Act::PutOther(sub, name, Vec::from_slice(alloc, b"z")?))
}

impl Deed<'_> {
    pub(crate) fn act(self, alloc: Global) -> Result<Act, AllocError> {
        match self {
            Deed::ToCur(name, other) => {
                let (name, other) = pair(alloc, name, other)?;
                Ok(Act::ToCur(name, other))
            }
            Deed::Reflag(name, other) => {
                let (name, other) = pair(alloc, name, other)?;
                Ok(Act::Reflag(name, other))
            }
            Deed::DropTmp(name) => Ok(Act::DropTmp(String::from_str(alloc, name)?)),
            Deed::PutOther(sub, name) => put_other(alloc, sub, name),
            Deed::DropOther(sub, name) => Ok(Act::DropOther(sub, String::from_str(alloc, name)?)),
        }
    }
}

/// What other programs do, deed after deed.
pub(crate) fn acts_of(alloc: Global, deeds: &[Deed<'_>]) -> Result<Vec<Act>, AllocError> {
    let mut acts = Vec::new(alloc);
    for deed in deeds {
        acts.push(deed.act(alloc)?)?;
    }
    Ok(acts)
}

/// The same at a turn of the system in memory.
pub(crate) fn turn_of(alloc: Global, deeds: &[Deed<'_>]) -> Result<Vec<TurnAct>, AllocError> {
    let mut acts = Vec::new(alloc);
    for deed in deeds {
        acts.push(TurnAct::Reader(deed.act(alloc)?))?;
    }
    Ok(acts)
}

/// The turns of a program that does this at the turn of this number. The last turn comes first.
pub(crate) fn turns_of(
    alloc: Global,
    acts: Vec<TurnAct>,
    turn: u8,
) -> Result<Vec<Vec<TurnAct>>, AllocError> {
    let mut turns = Vec::new(alloc);
    turns.push(acts)?;
    for _ in 1..turn {
        turns.push(Vec::new(alloc))?;
    }
    Ok(turns)
}

/// A line of a script: before this call other programs do this, and the call goes in this mode.
pub(crate) type Line<'a> = (u64, &'a [Deed<'a>], Mode);

pub(crate) fn script_of(alloc: Global, lines: &[Line<'_>]) -> Result<Vec<ScriptLine>, AllocError> {
    let mut script = Vec::new(alloc);
    for &(call, deeds, mode) in lines {
        let acts = acts_of(alloc, deeds)?;
        script.push(ScriptLine { call, acts, mode })?;
    }
    Ok(script)
}

/// A run: its script, the text, what it answers, and the files that it leaves.
pub(crate) type Run<'a> = (&'a [Line<'a>], &'a [u8], Answer, &'a [File<'a>]);

// How many calls a run makes: it lists three folders, removes what is left over, and writes and
// places each message that is missing. A run that stops does so at the last call that its script
// names.
fn calls_of(lines: &[Line<'_>], answer: Answer) -> u64 {
    match answer {
        Ok((_, _, placed, swept)) => placed
            .saturating_mul(2)
            .saturating_add(swept)
            .saturating_add(3),
        Err(RunFault::NoFromLine) => 0,
        Err(RunFault::FolderFailed(call)) => call,
        Err(_) => match lines.last() {
            Some(&(call, _, _)) => call,
            None => 0,
        },
    }
}

/// Makes a run over a folder, and compares. If a call is named, all calls from it on fail.
pub(crate) fn go<N: Debug>(
    alloc: Global,
    row: &N,
    folder: &mut MemFolder,
    run: Run<'_>,
    fail_from: Option<u64>,
) -> Result<(), Fail> {
    let (lines, text, answer, files) = run;
    folder.script(script_of(alloc, lines)?, fail_from);
    let got = run_over(alloc, folder, text);
    let wanted = (answer, calls_of(lines, answer));
    same(row, &(got, folder.calls()), &wanted)?;
    same_files(row, folder, files)
}

/// A scene: its name, the files that are there at first, and the runs that follow one another.
pub(crate) type Scene<'a> = (&'a str, &'a [File<'a>], &'a [Run<'a>]);

/// Goes through runs that follow one another, the first of them over a folder with these files.
pub(crate) fn go_all<N: Debug>(
    alloc: Global,
    row: &N,
    files: &[File<'_>],
    runs: &[Run<'_>],
) -> Result<(), Fail> {
    let mut folder = folder_of(alloc, files)?;
    for (number, run) in runs.iter().enumerate() {
        go(alloc, &(row, number), &mut folder, *run, None)?;
    }
    Ok(())
}
