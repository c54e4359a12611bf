// The calls of the folder in memory, and plans.
use crate::mem_folder::{answers, lists};
use crate::planning::plans;
use crate::rows::same;
use crate::runs::{put, same_files};
use crate::texts::{ABC, File};
use maildir_run::{FolderFault, MemFolder, Sub};
use std::alloc::{AllocError, Global};
use std::test::Fail;

#[test]
fn memory_folder_again(rt: HostRuntime) -> Result<(), Fail> {
    let mut folder = MemFolder::new(rt.alloc());
    answers(&mut folder, true)?;
    lists(&"cur", &mut folder, true, Sub::Cur, &["u:2,"])?;
    same_files(&"at the end", &folder, &[(Sub::Cur, "u:2,", b"ab")])
}

// Whether a file of `tmp` is set. If an allocation was refused, all is as before.
fn is_put(
    alloc: Global,
    folder: &mut MemFolder,
    name: &str,
    bytes: &[u8],
) -> Result<bool, AllocError> {
    let count = folder.count(Sub::Tmp);
    match put(alloc, folder, Sub::Tmp, name, bytes)? {
        Err(FolderFault::OutOfMemory) => {}
        answer => return Ok(answer.is_ok()),
    }
    let is_as_before = folder.count(Sub::Tmp) == count && folder.bytes_of(Sub::Tmp, name).is_none();
    let again = put(alloc, folder, Sub::Tmp, name, bytes)?;
    Ok(is_as_before && again.is_ok())
}

// Files of `tmp` are set, and there are no others.
#[test]
fn put_again(rt: HostRuntime) -> Result<(), Fail> {
    const FILES: &[File<'_>] = &[
        (Sub::Tmp, ABC, b"a"),
        (Sub::Tmp, "1700000000.M1.host", b"z"),
    ];
    let mut folder = MemFolder::new(rt.alloc());
    for (_, name, bytes) in FILES {
        let is_set = is_put(rt.alloc(), &mut folder, name, bytes)?;
        same(&name, &is_set, &true)?;
    }
    same_files(&"at the end", &folder, FILES)
}

#[test]
fn plan_again(rt: HostRuntime) -> Result<(), Fail> {
    plans(rt.alloc(), true)
}
