// How a Maildir is opened.
ghost use Rattle.std.specs.Prelude.{◌≡◌, IfErr, string_bytes};
ghost use Rattle.maildir_calls.specs.Made.{Traces};
ghost use Rattle.maildir_calls.specs.Opening.{LocksFolder, MakesFolder, MakesFolders, MakesRoot};
ghost use Rattle.maildir_calls.specs.Opening.{MakesUnderLock};
ghost use Rattle.maildir_calls.specs.Opening.{OpensFolders, OpensAtPath};

use crate::answers::locked;
use crate::calls::Calls;
use crate::own::{folder_mode, there_already};
use crate::paths::Paths;
use maildir_disk::OpenFault;
use maildir_run::{FolderFault, Sub};
use std::alloc::AllocError;
use std::io;

/// What is kept open of a Maildir that is open.
#[derive(Drop)]
pub struct Held<F> {
    /// Its parent, if the Maildir was made when it was opened.
    pub parent: Option<F>,
    /// The Maildir itself, with its lock, if the file system has locks for folders.
    pub lock: F,
}

/// Opens a Maildir: makes it if it is missing, locks it, and makes those of its three folders that
/// are missing. A Maildir that was made is removed again if its parent cannot be opened.
///
/// Errors: [`OpenFault::Locked`] if another program holds the lock; then no folder in it was made.
/// [`FolderFault::OutOfMemory`] if an allocation failed; [`FolderFault::Failed`] if a call did.
pub fn open_folders<C: Calls>(calls: &mut C, paths: &Paths) -> Result<Held<C::File>, OpenFault>
    ensures opens { Traces (OpensAtPath (string_bytes paths.now.root) result)
        (C.trace calls.old) (C.trace calls.new) }
    ensures not_absent { IfErr result (λ fault. ¬ (fault ≡ OpenFault.Folder FolderFault.Absent)) }
{
    let above = paths.parent().map_err(no_memory)?;
    let tmp = paths.folder(Sub::Tmp).map_err(no_memory)?;
    let new = paths.folder(Sub::New).map_err(no_memory)?;
    let cur = paths.folder(Sub::Cur).map_err(no_memory)?;
    open_below(
        calls,
        paths.root(),
        above.as_str(),
        tmp.as_str(),
        new.as_str(),
        cur.as_str(),
    )
}

// The fault of a path for which there was no memory.
fn no_memory(_: AllocError) -> OpenFault
    ensures { result ≡ OpenFault.Folder FolderFault.OutOfMemory }
{
    OpenFault::Folder(FolderFault::OutOfMemory)
}

// Opens the Maildir and its parent at the first two paths, and its folders at the others.
#[tactic(auto, unfolding(crate::specs::Opening::OpensFolders))]
fn open_below<C: Calls>(
    calls: &mut C,
    root: &str,
    above: &str,
    tmp: &str,
    new: &str,
    cur: &str,
) -> Result<Held<C::File>, OpenFault>
    ensures opens { Traces (OpensFolders root.now above.now tmp.now new.now cur.now result)
        (C.trace calls.old) (C.trace calls.new) }
    ensures not_absent { IfErr result (λ fault. ¬ (fault ≡ OpenFault.Folder FolderFault.Absent)) }
{
    let parent = make_root(calls, root, above)?;
    let lock = make_under_lock(calls, root, tmp, new, cur)?;
    Ok(Held { parent, lock })
}

// Locks the Maildir, and makes those of its folders that are missing.
#[tactic(auto, unfolding(crate::specs::Opening::MakesUnderLock))]
fn make_under_lock<C: Calls>(
    calls: &mut C,
    root: &str,
    tmp: &str,
    new: &str,
    cur: &str,
) -> Result<C::File, OpenFault>
    ensures makes { Traces (MakesUnderLock root.now tmp.now new.now cur.now result)
        (C.trace calls.old) (C.trace calls.new) }
    ensures not_absent { IfErr result (λ fault. ¬ (fault ≡ OpenFault.Folder FolderFault.Absent)) }
{
    let lock = lock_folder(calls, root)?;
    make_folders(calls, tmp, new, cur)?;
    Ok(lock)
}

// Makes the folder of a Maildir if there is none. If it made one, it returns the parent, opened so
// that it can be synced.
#[tactic(auto, unfolding(crate::specs::Opening::MakesRoot, crate::specs::Opening::MakesFolder))]
fn make_root<C: Calls>(calls: &mut C, root: &str, above: &str) -> io::Result<Option<C::File>>
    ensures { Traces (MakesRoot root.now above.now result) (C.trace calls.old) (C.trace calls.new) }
{
    if !make_folder(calls, root)? {
        return Ok(None);
    }
    match calls.open(above) {
        Ok(parent) => Ok(Some(parent)),
        Err(error) => {
            let _ = calls.remove_folder(root);
            Err(error)
        }
    }
}

// Opens a folder, and locks it as long as the returned file lives: the lock ends with the process,
// however that ends.
#[tactic(auto, unfolding(crate::specs::Opening::LocksFolder))]
fn lock_folder<C: Calls>(calls: &mut C, path: &str) -> Result<C::File, OpenFault>
    ensures locks { Traces (LocksFolder path.now result) (C.trace calls.old) (C.trace calls.new) }
    ensures not_absent { IfErr result (λ fault. ¬ (fault ≡ OpenFault.Folder FolderFault.Absent)) }
{
    let folder = calls.open(path)?;
    locked(calls.try_lock(&folder))?;
    Ok(folder)
}

// Makes those of the three folders that are missing.
#[tactic(auto, unfolding(crate::specs::Opening::MakesFolders))]
fn make_folders<C: Calls>(calls: &mut C, tmp: &str, new: &str, cur: &str) -> io::Result<()>
    ensures { Traces (MakesFolders tmp.now new.now cur.now result) (C.trace calls.old)
        (C.trace calls.new) }
{
    make_folder(calls, tmp)?;
    make_folder(calls, new)?;
    make_folder(calls, cur)?;
    Ok(())
}

// Makes a folder if there is none, and returns whether it did. Its parent must exist.
#[tactic(auto, unfolding(crate::specs::Opening::MakesFolder))]
fn make_folder<C: Calls>(calls: &mut C, path: &str) -> io::Result<bool>
    ensures { Traces (MakesFolder path.now result) (C.trace calls.old) (C.trace calls.new) }
{
    match calls.make_folder(path, folder_mode()) {
        Ok(()) => Ok(true),
        Err(error) => there_already(error, calls.look(path)),
    }
}
