// The acts of a script, as other programs would make them.
ghost use Rattle.std.specs.Prelude.{◌≡◌, IfOk, OnOk, OnErr};
ghost use Rattle.std.specs.FinMap.{get};
ghost use Rattle.maildir_run.specs.Calls.{folder_of};
ghost use Rattle.maildir_run.specs.Cuts.{linked};
ghost use Rattle.maildir_run.specs.Files.{acted, all_bases, may_take};
ghost use Rattle.maildir_run.specs.Files.Action.{ToCur, Reflag};
ghost use Rattle.maildir_run.specs.declared.folder.Sub.TheVariants.{New, Cur};
ghost use Rattle.maildir_run.specs.MemFiles.{files_in};
ghost use Rattle.maildir_run.specs.Script.{acts_at, performed, half_performed, all_performed};
ghost use Rattle.maildir_run.specs.Script.{IsCutShort};
ghost use Rattle.maildir_run.specs.Private.Script.{may_link};

use crate::folder::Sub;
use crate::in_memory::file_tree::FileTree;
use crate::in_memory::mem_files::MemFiles;
use crate::in_memory::script::{Act, ScriptLine};
use maildir_name::{base_of, is_converter_name};
use std::alloc::AllocError;

impl MemFiles {
    /// Performs the acts of each line with this number, in order, until an allocation fails.
    pub(crate) fn act_before(&mut self, call: u64, lines: &[ScriptLine]) -> Result<(), AllocError>
        ensures ok { OnOk result
            (files_in self.new ≡ all_performed (acts_at call lines.now) (files_in self.old)) }
        ensures err { OnErr result
            (IsCutShort (acts_at call lines.now) (files_in self.old) (files_in self.new)) }
    {
        for line in lines {
            if line.call == call {
                self.perform_all(&line.acts)?;
            }
        }
        Ok(())
    }

    fn perform_all(&mut self, acts: &[Act]) -> Result<(), AllocError>
        ensures ok { OnOk result (files_in self.new ≡ all_performed acts.now (files_in self.old)) }
        ensures err { OnErr result (IsCutShort acts.now (files_in self.old) (files_in self.new)) }
    {
        for act in acts {
            self.perform(act)?;
        }
        Ok(())
    }

    pub(crate) fn perform(&mut self, act: &Act) -> Result<(), AllocError>
        ensures ok { OnOk result (files_in self.new ≡ performed act.now (files_in self.old)) }
        ensures err { OnErr result (files_in self.new ≡ files_in self.old) }
    {
        match act {
            Act::ToCur(name, target) => self.move_to_cur(Sub::New, name.as_str(), target.as_str()),
            Act::Reflag(name, target) => self.move_to_cur(Sub::Cur, name.as_str(), target.as_str()),
            Act::DropTmp(name) => {
                if is_converter_name(name.as_str()) {
                    self.remove(Sub::Tmp, name.as_str());
                }
                Ok(())
            }
            Act::PutOther(sub, name, bytes) => {
                if is_converter_name(name.as_str()) {
                    return Ok(());
                }
                self.put(*sub, name.clone()?, bytes.clone()?)
            }
            Act::DropOther(sub, name) => {
                if !is_converter_name(name.as_str()) {
                    self.remove(*sub, name.as_str());
                }
                Ok(())
            }
        }
    }

    /// Makes half of an act: a file that is moved is under both names. Half of any other act does
    /// nothing.
    pub(crate) fn perform_half(&mut self, act: &Act) -> Result<(), AllocError>
        ensures ok { OnOk result (files_in self.new ≡ half_performed act.now (files_in self.old)) }
        ensures err { OnErr result (files_in self.new ≡ files_in self.old) }
    {
        match act {
            Act::ToCur(name, target) => self.link(Sub::New, name.as_str(), target.as_str())?,
            Act::Reflag(name, target) => self.link(Sub::Cur, name.as_str(), target.as_str())?,
            _ => false,
        };
        Ok(())
    }

    // Moves a file of `new` to `cur`, or renames one of `cur`.
    fn move_to_cur(&mut self, sub: Sub, name: &str, target: &str) -> Result<(), AllocError>
        ensures to_cur { sub ≡ New →
            OnOk result (files_in self.new ≡ acted all_bases (ToCur name.now target.now)
            (files_in self.old)) }
        ensures reflag { sub ≡ Cur →
            OnOk result (files_in self.new ≡ acted all_bases (Reflag name.now target.now)
            (files_in self.old)) }
        ensures err { OnErr result (files_in self.new ≡ files_in self.old) }
    {
        if self.link(sub, name, target)? {
            self.remove(sub, name);
        }
        Ok(())
    }

    // Puts a file under a free name of the same base in `cur` too. Returns whether it did.
    fn link(&mut self, sub: Sub, name: &str, target: &str) -> Result<bool, AllocError>
        ensures ok { OnOk result (files_in self.new ≡ linked (files_in self.old) name.now target.now
            (get (folder_of sub (files_in self.old)) name.now)) }
        ensures may { IfOk result
            (λ is_linked. is_linked ≡ may_link (files_in self.old) name.now target.now
            (get (folder_of sub (files_in self.old)) name.now)) }
        ensures err { OnErr result (files_in self.new ≡ files_in self.old) }
    {
        let Some(bytes) = self.of(sub).get(name) else {
            return Ok(false);
        };
        if !is_free(&self.in_cur, name, target) {
            return Ok(false);
        }
        let bytes = Vec::from_slice(self.alloc, bytes)?;
        self.in_cur
            .set(String::from_str(self.alloc, target)?, bytes)?;
        Ok(true)
    }
}

// Whether a file of this name may be moved to the target: it is free, and has the same base.
fn is_free(there: &FileTree, name: &str, target: &str) -> bool
    ensures { result ≡ may_take there.now name.now target.now }
{
    there.get(target).is_none() && base_of(name) == base_of(target)
}
