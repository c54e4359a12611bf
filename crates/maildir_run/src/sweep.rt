// The sweep, which removes what interrupted runs left in `tmp`.
ghost use Rattle.std.specs.Prelude.{◌≡◌, [], length, map, string_bytes, IfOk, IfErr};
ghost use Rattle.maildir_run.specs.Counting.{IsOfFolder, fault_of};
ghost use Rattle.maildir_run.specs.Tasks.{tasks_of};
ghost use Rattle.maildir_run.specs.Private.Parts.{Performed};
ghost use Rattle.maildir_run.specs.Parts.{sweep_of};

use crate::calls::Calls;
use crate::fault::RunFault;
use crate::folder::Folder;
use crate::planner::{Step, plan};
use std::alloc::Global;

/// Removes the converter's names among those that were listed in `tmp`, by the plan for them and no
/// target. Returns how many it removed.
pub(crate) fn sweep<F: Folder>(
    alloc: Global,
    folder: &mut F,
    calls: &mut Calls,
    listed: &[String],
) -> Result<u64, RunFault>
    ensures ran { let at = F.at in
        Performed (sweep_of (map string_bytes listed.now)) (at folder.old)
        (at folder.new) calls.old.made calls.new.made (fault_of result) }
    ensures count { IfOk result (λ n. n ≡ length (sweep_of (map string_bytes listed.now))) }
    ensures causes { IfErr result IsOfFolder }
{
    let steps = plan(alloc, listed, &[], &[], &[])?;
    remove_planned(folder, calls, &steps)
}

// Makes the removals of a plan, in its order. Returns how many it made.
fn remove_planned<F: Folder>(
    folder: &mut F,
    calls: &mut Calls,
    steps: &[Step],
) -> Result<u64, RunFault>
    ensures ran { let at = F.at in
        Performed (tasks_of [] steps.now) (at folder.old)
        (at folder.new) calls.old.made calls.new.made (fault_of result) }
    ensures count { IfOk result (λ n. n ≡ length (tasks_of [] steps.now)) }
    ensures causes { IfErr result IsOfFolder }
{
    let mut swept = 0;
    for step in steps {
        if let Step::Remove(name) = step {
            calls.remove(folder, name.as_str())?;
            swept += 1;
        }
    }
    Ok(swept)
}
