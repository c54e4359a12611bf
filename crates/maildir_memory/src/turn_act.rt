// What other programs do at their turns to a Maildir in memory.
use maildir_run::{Act, FolderFault, MemFolder, Sub};

/// What another program does at its turn.
#[derive(Drop)]
pub enum TurnAct {
    /// What a mail reader may do to any message, or what anybody may do to a file without a
    /// converter's name.
    Reader(Act),
    /// Deletes a file, whatever its name.
    Delete(Sub, String),
}

impl TurnAct {
    pub(crate) fn perform(&self, folder: &mut MemFolder) -> Result<(), FolderFault> {
        match self {
            TurnAct::Reader(act) => folder.act(act),
            TurnAct::Delete(sub, name) => {
                folder.delete(*sub, name.as_str());
                Ok(())
            }
        }
    }

    /// Performs half of the act: a file that a reader moves is under both names. Half of any other
    /// act does nothing.
    pub(crate) fn perform_half(&self, folder: &mut MemFolder) -> Result<(), FolderFault> {
        match self {
            TurnAct::Reader(act) => folder.act_half(act),
            TurnAct::Delete(_, _) => Ok(()),
        }
    }
}
