// What happens in a Maildir in memory during its calls: time passes, and other programs act.
use super::MemSystem;
use crate::faults::error_of;
use crate::stamps::{begin, stamp_at, tick};
use crate::turn_act::TurnAct;
use maildir_run::{FolderFault, Sub};
use std::io;
use std::time::Duration;

// How long a call takes.
const CALL_MICROS: u64 = 10;

impl MemSystem {
    /// Time passes, and other programs perform the acts of the next turn.
    pub(super) fn pass(&mut self, pause: Duration) -> Result<(), FolderFault> {
        tick(&mut self.clock, &mut self.instant, pause);
        match self.turns.pop() {
            Some(acts) if !acts.is_empty() => self.act(&acts),
            _ => Ok(()),
        }
    }

    /// A call that takes some time, or fails.
    pub(super) fn pass_shortly(&mut self) -> io::Result<()> {
        begin(&mut self.calls_left)?;
        self.pass(Duration::from_micros(CALL_MICROS))
            .map_err(error_of)
    }

    // Other programs perform these acts, and the folders are stamped.
    fn act(&mut self, acts: &[TurnAct]) -> Result<(), FolderFault> {
        self.stamp = stamp_at(self.clock, self.stamps);
        self.cases.act(&mut self.folder, acts)
    }
}
