// The plan of three lists. The digests are FIPS 180-4's examples.
use crate::rows::same;
use crate::texts::{ABC, ONE_SEEN};
use maildir_name::{Namer, Target};
use maildir_run::{RunFault, Step, plan};
use std::alloc::{AllocError, Global};
use std::test::Fail;

// A step as it is wanted.
#[derive(Clone, Copy, Debug, PartialEq)]
enum Want<'a> {
    Remove(&'a str),
    Write(usize),
    Place(usize),
}

fn want_of(step: &Step) -> Want<'_> {
    match step {
        Step::Remove(name) => Want::Remove(name.as_str()),
        Step::Write(index) => Want::Write(*index),
        Step::Place(index) => Want::Place(*index),
    }
}

/// A list of these texts.
pub(crate) fn names(alloc: Global, texts: &[&str]) -> Result<Vec<String>, AllocError> {
    let mut names = Vec::new(alloc);
    for text in texts {
        names.push(String::from_str(alloc, text)?)?;
    }
    Ok(names)
}

// The targets of no bytes and of `abc`.
fn two_targets(alloc: Global) -> Result<Vec<Target>, RunFault> {
    let mut namer = Namer::new(alloc);
    let mut targets = Vec::new(alloc);
    for body in ["", "abc"] {
        targets.push(namer.target(body.as_bytes())?)?;
    }
    Ok(targets)
}

// Three lists, and the steps that they lead to.
struct Row<'a> {
    name: &'a str,
    tmp: &'a [&'a str],
    new: &'a [&'a str],
    cur: &'a [&'a str],
    steps: &'a [Want<'a>],
}

const NAMES: &[&str] = &[ABC, "1700000000.M1.host"];

const ROWS: &[Row<'_>] = &[
    Row {
        name: "a leftover",
        tmp: NAMES,
        new: &[],
        cur: &[ONE_SEEN],
        steps: &[Want::Remove(ABC), Want::Write(1), Want::Place(1)],
    },
    Row {
        name: "delivered",
        tmp: &[],
        new: NAMES,
        cur: &[],
        steps: &[Want::Write(0), Want::Place(0)],
    },
    Row {
        name: "nothing",
        tmp: &[],
        new: &[],
        cur: &[],
        steps: &[
            Want::Write(0),
            Want::Place(0),
            Want::Write(1),
            Want::Place(1),
        ],
    },
];

// The plan of a row, made once more if an allocation was refused and it may be made again.
fn steps_of(alloc: Global, row: &Row<'_>, again: bool) -> Result<Vec<Step>, RunFault> {
    let targets = two_targets(alloc)?;
    let tmp = names(alloc, row.tmp)?;
    let new = names(alloc, row.new)?;
    let cur = names(alloc, row.cur)?;
    match plan(alloc, &tmp, &new, &cur, &targets) {
        Err(RunFault::OutOfMemory) if again => plan(alloc, &tmp, &new, &cur, &targets),
        answer => answer,
    }
}

/// Makes the plan of each row.
pub(crate) fn plans(alloc: Global, again: bool) -> Result<(), Fail> {
    for row in ROWS {
        let steps = steps_of(alloc, row, again)?;
        for (step, wanted) in steps.iter().zip(row.steps) {
            same(&row.name, &want_of(step), wanted)?;
        }
        same(&(row.name, "steps"), &steps.len(), &row.steps.len())?;
    }
    Ok(())
}

#[test]
fn plan_of_three_lists(rt: HostRuntime) -> Result<(), Fail> {
    plans(rt.alloc(), false)
}
