// What is there as a run begins.
ghost use Rattle.std.specs.Prelude.{◌≡◌, ◌<◌, ◌^◌, length, IfOk, IfErr};
ghost use Rattle.maildir_run.specs.Calls.{names_of};
ghost use Rattle.maildir_run.specs.Counting.{IsOfFolder, fault_of};
ghost use Rattle.maildir_run.specs.Tasks as tasks;
ghost use Rattle.maildir_run.specs.Private.Parts.{Performed};

use crate::calls::Calls;
use crate::fault::RunFault;
use crate::folder::{Folder, Sub};

/// The names that the three listings of a run answered.
#[derive(Drop)]
pub(crate) struct Listings {
    pub(crate) tmp: Vec<String>,
    pub(crate) new: Vec<String>,
    pub(crate) cur: Vec<String>,
}

/// Lists the three folders. `new` comes before `cur`, since a mail reader moves files from the one
/// to the other.
pub(crate) fn list_all<F: Folder>(folder: &mut F, calls: &mut Calls) -> Result<Listings, RunFault>
    ensures ran { let at = F.at in
        (names : tasks.Listings) × (length names.tmp < 2 ^ 64)
        × Performed (tasks.listing_tasks names) (at folder.old)
        (at folder.new) calls.old.made calls.new.made (fault_of result)
        × IfOk result
        (λ listed. (names_of listed.tmp ≡ names.tmp) × (names_of listed.new ≡ names.new) ×
        (names_of listed.cur ≡ names.cur)) }
    ensures causes { IfErr result IsOfFolder }
{
    let tmp = calls.list(folder, Sub::Tmp)?;
    let new = calls.list(folder, Sub::New)?;
    let cur = calls.list(folder, Sub::Cur)?;
    Ok(Listings { tmp, new, cur })
}
