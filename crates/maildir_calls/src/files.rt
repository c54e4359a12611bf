// How a file of a Maildir is made, emptied, moved and removed.
ghost use Rattle.maildir_calls.specs.Files.{CreatesFile, Empties, FindsOwn, MovesFile, OpensSame};
ghost use Rattle.maildir_calls.specs.Files.{RemovesFile};
ghost use Rattle.maildir_calls.specs.Made.{Traces};

use crate::answers::not_moved;
use crate::calls::Calls;
use crate::own::{FILE_MODE, Facts, check_own, check_same};
use std::io;
use std::io::ErrorKind;

/// Makes the file `path` of `folder`, or empties it if it is there, and opens it for writing.
/// Returns an error, and changes nothing, if anything but a file of our own has the name.
#[tactic(auto, unfolding(crate::specs::Files::CreatesFile))]
pub fn create_file<C: Calls>(calls: &mut C, folder: &str, path: &str) -> io::Result<C::File>
    ensures { Traces (CreatesFile folder.now path.now result) (C.trace calls.old)
        (C.trace calls.new) }
{
    match calls.make_file(path, FILE_MODE) {
        Ok(file) => Ok(file),
        Err(error) if error.kind() == ErrorKind::AlreadyExists => empty_file(calls, folder, path),
        Err(error) => Err(error),
    }
}

// Empties a file of our own, and opens it for writing. It is checked before it is opened, since
// opening a device may have an effect, and again through the handle, since by then another file may
// have its name.
#[tactic(auto, unfolding(crate::specs::Files::Empties))]
fn empty_file<C: Calls>(calls: &mut C, folder: &str, path: &str) -> io::Result<C::File>
    ensures { Traces (Empties folder.now path.now result) (C.trace calls.old)
        (C.trace calls.new) }
{
    let found = find_own(calls, folder, path)?;
    let file = open_same(calls, path, &found)?;
    calls.empty(&file)?;
    Ok(file)
}

// Looks at a file that is not open yet, and checks that it is our own.
#[tactic(auto, unfolding(crate::specs::Files::FindsOwn))]
fn find_own<C: Calls>(calls: &mut C, folder: &str, path: &str) -> io::Result<Facts>
    ensures { Traces (FindsOwn folder.now path.now result) (C.trace calls.old)
        (C.trace calls.new) }
{
    let above = calls.look(folder)?;
    let found = calls.look_at(path)?;
    check_own(&found, above.owner)?;
    Ok(found)
}

// Opens a file, and checks that it is the one that was found.
#[tactic(auto, unfolding(crate::specs::Files::OpensSame))]
fn open_same<C: Calls>(calls: &mut C, path: &str, found: &Facts) -> io::Result<C::File>
    ensures { Traces (OpensSame path.now found.now result) (C.trace calls.old)
        (C.trace calls.new) }
{
    let file = calls.open_file(path)?;
    let opened = calls.look_through(&file)?;
    check_same(&opened, found)?;
    Ok(file)
}

/// Moves a file by one rename(2). The error is of the kind `NotFound` only if there was no file to
/// move.
#[tactic(auto, unfolding(crate::specs::Files::MovesFile))]
pub fn move_file<C: Calls>(calls: &mut C, from: &str, to: &str) -> io::Result<()>
    ensures { Traces (MovesFile from.now to.now result) (C.trace calls.old) (C.trace calls.new) }
{
    match calls.rename(from, to) {
        Ok(()) => Ok(()),
        Err(error) if error.kind() == ErrorKind::NotFound => Err(not_moved(calls.look_at(from))),
        Err(error) => Err(error),
    }
}

/// Removes a file, if there is one.
#[tactic(auto, unfolding(crate::specs::Files::RemovesFile))]
pub fn remove_file<C: Calls>(calls: &mut C, path: &str) -> io::Result<()>
    ensures { Traces (RemovesFile path.now result) (C.trace calls.old) (C.trace calls.new) }
{
    match calls.remove_file(path) {
        Ok(()) => Ok(()),
        Err(error) if error.kind() == ErrorKind::NotFound => Ok(()),
        Err(error) => Err(error),
    }
}
