// The calls of the folder in memory, through the trait's bound and by hand.
use crate::rows::same;
use crate::runs::{folder_of, same_files};
use crate::texts::File;
use maildir_name::Place;
use maildir_run::{Folder, FolderFault, MemFolder, Sub};
use std::fmt::Debug;
use std::test::Fail;

/// A folder lists these names, in this order. Like all calls here, this one may be made again if an
/// allocation was refused.
pub(crate) fn lists<N: Debug, F: Folder>(
    row: &N,
    folder: &mut F,
    again: bool,
    sub: Sub,
    wanted: &[&str],
) -> Result<(), Fail> {
    let answer = match folder.list(sub) {
        Err(FolderFault::OutOfMemory) if again => folder.list(sub),
        answer => answer,
    };
    match answer {
        Ok(names) => same_names(row, &names, wanted),
        Err(fault) => same(row, &Some(fault), &None),
    }
}

fn same_names<N: Debug>(row: &N, got: &[String], wanted: &[&str]) -> Result<(), Fail> {
    for (name, wanted) in got.iter().zip(wanted) {
        same(row, &name.as_str(), wanted)?;
    }
    same(&(row, "names"), &got.len(), &wanted.len())
}

fn write<F: Folder>(
    folder: &mut F,
    again: bool,
    name: &str,
    bytes: &[u8],
) -> Result<(), FolderFault> {
    match folder.write(name, bytes) {
        Err(FolderFault::OutOfMemory) if again => folder.write(name, bytes),
        answer => answer,
    }
}

fn place<F: Folder>(
    folder: &mut F,
    again: bool,
    name: &str,
    place: Place,
    target: &str,
) -> Result<(), FolderFault> {
    match folder.place(name, place, target) {
        Err(FolderFault::OutOfMemory) if again => folder.place(name, place, target),
        answer => answer,
    }
}

fn remove<F: Folder>(folder: &mut F, again: bool, name: &str) -> Result<(), FolderFault> {
    match folder.remove(name) {
        Err(FolderFault::OutOfMemory) if again => folder.remove(name),
        answer => answer,
    }
}

/// The calls of an empty folder answer as they should: a file comes, is listed and goes to `cur`.
pub(crate) fn answers<F: Folder>(folder: &mut F, again: bool) -> Result<(), Fail> {
    let absent = place(folder, again, "u", Place::New, "u");
    let removed = remove(folder, again, "u");
    let written = write(folder, again, "u", b"ab");
    let got = (absent, removed, written);
    same(
        &"place, remove, write",
        &got,
        &(Err(FolderFault::Absent), Ok(()), Ok(())),
    )?;
    lists(&"list", folder, again, Sub::Tmp, &["u"])?;
    let placed = place(folder, again, "u", Place::Cur, "u:2,");
    same(&"place", &placed, &Ok(()))
}

#[test]
fn folder_calls(rt: HostRuntime) -> Result<(), Fail> {
    let mut folder = MemFolder::new(rt.alloc());
    answers(&mut folder, false)?;
    same_files(&"at the end", &folder, &[(Sub::Cur, "u:2,", b"ab")])?;
    same(&"calls", &folder.calls(), &5)
}

// Files that are put in this order, the second `a` in place of the first, are these in the order of
// their names.
#[test]
fn files_by_name(rt: HostRuntime) -> Result<(), Fail> {
    const FILES: &[File<'_>] = &[
        (Sub::New, "b:2,S", b"1"),
        (Sub::New, "a", b"2"),
        (Sub::New, "b", b"3"),
        (Sub::New, "B", b"4"),
        (Sub::New, "a", b"5"),
    ];
    const SORTED: &[File<'_>] = &[
        (Sub::New, "B", b"4"),
        (Sub::New, "a", b"5"),
        (Sub::New, "b", b"3"),
        (Sub::New, "b:2,S", b"1"),
    ];
    let mut folder = folder_of(rt.alloc(), FILES)?;
    lists(
        &"names",
        &mut folder,
        false,
        Sub::New,
        &["B", "a", "b", "b:2,S"],
    )?;
    same_files(&"files", &folder, SORTED)?;
    same(&"calls", &folder.calls(), &1)?;
    Ok(())
}
