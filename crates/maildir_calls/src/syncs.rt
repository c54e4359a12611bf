// How the folders of a Maildir are synced.
ghost use Rattle.maildir_calls.specs.Made.{Traces};
ghost use Rattle.maildir_calls.specs.Syncs.{SyncsFolder, SyncsIfPossible, SyncsParent, SyncsRoot};

use crate::answers::synced_if_possible;
use crate::calls::Calls;
use std::io;
use std::io::ErrorKind;

/// Syncs a folder.
#[tactic(auto, unfolding(crate::specs::Syncs::SyncsFolder))]
pub fn sync_folder<C: Calls>(calls: &mut C, path: &str) -> io::Result<()>
    ensures { Traces (SyncsFolder path.now result) (C.trace calls.old) (C.trace calls.new) }
{
    let folder = calls.open(path)?;
    calls.sync(&folder)
}

/// Syncs the folder of a Maildir, and then its parent. If the Maildir was just made, the parent is
/// open, and must be synced. Otherwise it is synced if possible: both were there before.
#[tactic(auto, unfolding(crate::specs::Syncs::SyncsRoot))]
pub fn sync_root<C: Calls>(
    calls: &mut C,
    root: &str,
    above: &str,
    parent: &Option<C::File>,
) -> io::Result<()>
    ensures { Traces (SyncsRoot root.now above.now parent.now result) (C.trace calls.old)
        (C.trace calls.new) }
{
    sync_folder(calls, root)?;
    sync_parent(calls, above, parent)
}

#[tactic(auto, unfolding(crate::specs::Syncs::SyncsParent))]
fn sync_parent<C: Calls>(calls: &mut C, above: &str, parent: &Option<C::File>) -> io::Result<()>
    ensures { Traces (SyncsParent above.now parent.now result) (C.trace calls.old)
        (C.trace calls.new) }
{
    match parent {
        Some(parent) => calls.sync(parent),
        None => sync_if_possible(calls, above),
    }
}

// Syncs a folder, unless it may not be opened, or its file system has no sync for it.
#[tactic(auto, unfolding(crate::specs::Syncs::SyncsIfPossible))]
fn sync_if_possible<C: Calls>(calls: &mut C, path: &str) -> io::Result<()>
    ensures { Traces (SyncsIfPossible path.now result) (C.trace calls.old) (C.trace calls.new) }
{
    match calls.open(path) {
        Ok(folder) => synced_if_possible(calls.sync(&folder)),
        Err(error) if error.kind() == ErrorKind::PermissionDenied => Ok(()),
        Err(error) => Err(error),
    }
}
