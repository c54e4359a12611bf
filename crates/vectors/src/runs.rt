// Runs over a folder, and the files that it has.
use crate::rows::{Shown, same};
use crate::sources::{Cut, LIMIT};
use crate::texts::File;
use maildir_run::{Folder, FolderFault, MemFolder, Report, RunFault, Sub, convert};
use std::alloc::{AllocError, Global};
use std::fmt::Debug;
use std::test::Fail;

/// What a run answers: the four numbers of its report (messages, there, placed, swept), or its
/// fault.
pub(crate) type Answer = Result<(u64, u64, u64, u64), RunFault>;

/// A run over a source, which may make this many reads of it.
pub(crate) fn run_from<F: Folder>(
    alloc: Global,
    folder: &mut F,
    source: &mut Cut<'_>,
    reads: u64,
) -> Answer {
    let Report {
        messages,
        there,
        placed,
        swept,
    } = convert(alloc, folder, source, reads.min(LIMIT))?;
    Ok((messages, there, placed, swept))
}

/// A run over a text that comes whole.
pub(crate) fn run_over<F: Folder>(alloc: Global, folder: &mut F, text: &[u8]) -> Answer {
    run_from(alloc, folder, &mut Cut::pieces(text, 65_536), LIMIT)
}

/// What a folder answers when this file is put.
pub(crate) fn put(
    alloc: Global,
    folder: &mut MemFolder,
    sub: Sub,
    name: &str,
    bytes: &[u8],
) -> Result<Result<(), FolderFault>, AllocError> {
    let name = String::from_str(alloc, name)?;
    let bytes = Vec::from_slice(alloc, bytes)?;
    Ok(folder.put(sub, name, bytes))
}

fn put_all(alloc: Global, folder: &mut MemFolder, files: &[File<'_>]) -> Result<(), FolderFault> {
    for &(sub, name, bytes) in files {
        put(alloc, folder, sub, name, bytes)??;
    }
    Ok(())
}

/// A folder with these files, put in this order.
pub(crate) fn folder_of(alloc: Global, files: &[File<'_>]) -> Result<MemFolder, FolderFault> {
    let mut folder = MemFolder::new(alloc);
    put_all(alloc, &mut folder, files)?;
    Ok(folder)
}

/// Compares the files of a folder with those of a row.
pub(crate) fn same_files<N: Debug>(
    row: &N,
    folder: &MemFolder,
    files: &[File<'_>],
) -> Result<(), Fail> {
    for &(sub, name, bytes) in files {
        let got = folder.bytes_of(sub, name).map(Shown);
        same(&(row, name), &got, &Some(Shown(bytes)))?;
    }
    let in_all = folder
        .count(Sub::Tmp)
        .saturating_add(folder.count(Sub::New))
        .saturating_add(folder.count(Sub::Cur));
    same(&(row, "files"), &in_all, &files.len())
}
