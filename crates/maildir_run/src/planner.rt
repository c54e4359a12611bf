// The plan of a run: what is to be removed, written and placed, given the listed names and the
// targets.
ghost use Rattle.std.specs.Prelude.{◌≡◌, ℕ, ◌++◌, map, string_bytes, IfOk, IfErr, OnOk};
ghost use Rattle.std.specs.FinMap.{contains_key};
ghost use Rattle.maildir_run.specs.Plan.{planned, removals, deliveries_from};

use crate::bases::Bases;
use crate::fault::RunFault;
use maildir_name::{Name, Target, is_converter_name};
use std::alloc::{AllocError, Global};

/// One step of a run. Messages are numbered from 0, in the order of the text.
#[derive(Drop)]
pub enum Step {
    /// Remove this file from `tmp`.
    Remove(Name),
    /// Write the message of this number into `tmp`, under its base.
    Write(usize),
    /// Place the message of this number at its target.
    Place(usize),
}

/// The steps of a run over these listed names and these targets: first one `Remove` for each of the
/// converter's names in `tmp`, in the order of the list; then, for each target in order whose base
/// is the base of no name in `new` or `cur`, its `Write` and its `Place`.
///
/// Errors: [`RunFault::OutOfMemory`] alone, if an allocation failed.
pub fn plan(
    alloc: Global,
    tmp: &[String],
    new: &[String],
    cur: &[String],
    targets: &[Target],
) -> Result<Vec<Step>, RunFault>
    ensures exact { IfOk result (λ steps. steps.items
        ≡ planned (map string_bytes tmp.now) (map string_bytes new.now)
        (map string_bytes cur.now) targets.now) }
    ensures refused { IfErr result (λ fault. fault ≡ RunFault.OutOfMemory) }
{
    let there = Bases::of_listings(alloc, new, cur)?;
    let mut steps = Vec::new(alloc);
    add_removals(&mut steps, tmp)?;
    add_deliveries(&mut steps, &there, targets)?;
    Ok(steps)
}

fn add_removals(steps: &mut Vec<Step>, tmp: &[String]) -> Result<(), AllocError>
    ensures { OnOk result
        (steps.new.items ≡ steps.old.items ++ removals (map string_bytes tmp.now)) }
{
    for name in tmp {
        if is_converter_name(name.as_str()) {
            steps.push(Step::Remove(Name::new(name.clone()?)))?;
        }
    }
    Ok(())
}

fn add_deliveries(
    steps: &mut Vec<Step>,
    there: &Bases,
    targets: &[Target],
) -> Result<(), AllocError>
    ensures { OnOk result (steps.new.items
        ≡ steps.old.items ++ deliveries_from (contains_key there.now) 0 targets.now) }
{
    for (i, target) in targets.iter().enumerate() {
        if !there.contains(target.base.as_str()) {
            steps.push(Step::Write(i))?;
            steps.push(Step::Place(i))?;
        }
    }
    Ok(())
}
