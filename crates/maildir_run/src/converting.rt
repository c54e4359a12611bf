// One run: a source's messages into a folder.
ghost use Rattle.std.specs.Prelude.{◌^◌, ◌≤◌};
ghost use Rattle.maildir_run.specs.Converting.{Converts};

use crate::calls::Calls;
use crate::engine::Engine;
use crate::fault::RunFault;
use crate::folder::Folder;
use crate::listings::list_all;
use crate::reader::Reader;
use crate::report::Report;
use std::alloc::Global;
use std::io::Read;

/// Delivers the messages of the source's text that have no home in the folder, and reports what it
/// did. Reads the source until a message is complete; lists `tmp`, `new` and `cur`, in this order;
/// removes what earlier runs left in `tmp`, as `plan` says for these lists and no targets; then
/// writes and places each missing message as soon as it is complete, in order. Makes at most
/// `reads` reads, each of at most 65,536 bytes, and none between a message's write and its
/// placement. Keeps in memory: the partial message, those that the last read completed, the listed
/// names and the digests.
///
/// Errors: `NoFromLine` if the text is not empty and doesn't begin with `From `, and then no folder
/// call was made; `ReadFault`; `TooManyReads` if `reads` reads didn't reach the end;
/// `FolderAbsent`; `FolderFailed` with the number of the call; `OutOfMemory`. The first fault ends
/// the run, and a later run goes on from there.
pub fn convert<F: Folder, R: Read>(
    alloc: Global,
    folder: &mut F,
    source: &mut R,
    reads: u64,
) -> Result<Report, RunFault>
    requires { reads ≤ 2 ^ 40 }
    ensures { let at = F.at in
        Converts (R.remaining source.old) (R.remaining source.new) reads (at folder.old)
        (at folder.new) result }
{
    let mut reader = Reader::new(alloc, reads)?;
    let mut whole = Vec::new(alloc);
    let mut ended = reader.next_batch(source, &mut whole)?;
    let mut calls = Calls::new();
    let listings = list_all(folder, &mut calls)?;
    let mut engine = Engine::begin(alloc, folder, calls, &listings)?;
    'pieces: loop {
        engine.deliver_entries(folder, &whole)?;
        if ended {
            return Ok(engine.report());
        }
        ended = reader.next_batch(source, &mut whole)?;
    }
}
