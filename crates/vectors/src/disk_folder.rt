// The calls of a folder on a real disk, one by one. No words of the program make them like this.
use crate::mem_folder::{answers, lists};
use crate::rows::{same, same_bytes};
use maildir_disk::DiskFolder;
use maildir_host::OpenAt;
use maildir_run::{Folder, Sub};
use std::rt::Env;
use std::test::Fail;
use std::{env, fs, io, process};

/// A path of the test's own, where there is nothing.
pub(crate) fn fresh_path(rt: HostRuntime) -> io::Result<String> {
    let temp = env::temp_dir(&rt)?;
    let (temp, id) = (temp.as_path().as_str(), process::id(rt.process()));
    let path = format!(in rt.alloc(); "{temp}/mbox2maildir-{id}")?;
    let _ = fs::remove_dir_all(&rt, path.as_str());
    Ok(path)
}

// A file below this path holds this.
fn holds(rt: HostRuntime, root: &str, name: &str, wanted: &[u8]) -> Result<(), Fail> {
    let path = format!(in rt.alloc(); "{root}/{name}")?;
    same_bytes(&name, fs::read(&rt, path.as_str())?.as_slice(), wanted)
}

// A shorter write replaces a longer one. Removals leave `tmp` empty, also that of a name that was
// never there.
fn write_again<F: Folder>(rt: HostRuntime, folder: &mut F, root: &str) -> Result<(), Fail> {
    let written = (folder.write("v", b"longer"), folder.write("v", b"c"));
    same(&"write, write again", &written, &(Ok(()), Ok(())))?;
    holds(rt, root, "tmp/v", b"c")?;
    let removed = (folder.remove("v"), folder.remove("w"));
    same(&"remove, remove nothing", &removed, &(Ok(()), Ok(())))?;
    lists(&"tmp", folder, false, Sub::Tmp, &[])
}

// The calls of a folder below this path answer as they should, and leave these files.
fn call_all(rt: HostRuntime, root: &str) -> Result<(), Fail> {
    let mut folder = DiskFolder::open_at(&rt, rt.alloc(), root)?;
    answers(&mut folder, false)?;
    holds(rt, root, "cur/u:2,", b"ab")?;
    write_again(rt, &mut folder, root)?;
    same(&"sync", &folder.sync(), &Ok(()))
}

#[test]
fn disk_folder_calls(rt: HostRuntime) -> Result<(), Fail> {
    let root = fresh_path(rt)?;
    call_all(rt, root.as_str())?;
    fs::remove_dir_all(&rt, root.as_str())?;
    Ok(())
}
