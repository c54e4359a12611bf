// What a power cut may leave of a Maildir in memory, besides the files as they are.
ghost use Rattle.std.specs.Prelude.{◌≡◌, []};

use crate::turn_act::TurnAct;
use maildir_name::Place;
use maildir_run::{Folder, FolderFault, MemFolder, Sub};
use std::alloc::Global;

/// A change of the files of a Maildir at one moment, which a power cut keeps or loses as a whole.
#[derive(Clone, Copy)]
pub(crate) enum Change<'a> {
    /// A file of `tmp` is made, or emptied if it is there.
    Make(&'a str),
    /// A file of `tmp` that is there holds these bytes.
    Hold(&'a str, &'a [u8]),
    /// A file of `tmp` that is there is moved.
    Place(&'a str, Place, &'a str),
    /// A file of `tmp` is removed.
    Remove(&'a str),
    /// Another program acts.
    Other(&'a TurnAct),
    /// Another program does half of this act.
    Half(&'a TurnAct),
}

/// The cases of what a power cut may leave, each as a folder, up to a number of them; none if
/// nothing can be lost.
#[derive(Drop)]
pub(crate) struct Cases {
    pub folders: Vec<MemFolder>,
    pub room: usize,
}

impl Cases {
    /// Nothing is lost.
    pub(crate) fn none(alloc: Global) -> Self
        ensures { (result.folders.items ≡ []) × (result.room ≡ 0) }
    {
        Cases {
            folders: Vec::new(alloc),
            room: 0,
        }
    }

    /// A power cut may now leave each case, and the files as they are, with the change or without
    /// it.
    pub(crate) fn may_lose(
        &mut self,
        folder: &MemFolder,
        change: &Change<'_>,
    ) -> Result<(), FolderFault> {
        if self.room == 0 {
            return Ok(());
        }
        for at in 0..self.folders.len() {
            if let Some(left) = self.folders.get(at) {
                let mut with = left.copy()?;
                make(change, &mut with)?;
                self.add(with)?;
            }
        }
        self.add(folder.copy()?)
    }

    /// A power cut may now leave the file `name` of `tmp`, if it is there, with any prefix of the
    /// bytes that it will hold, but not with fewer bytes than it holds.
    pub(crate) fn may_lose_bytes(
        &mut self,
        folder: &MemFolder,
        name: &str,
        holds: &[u8],
        held: usize,
    ) -> Result<(), FolderFault> {
        for end in held..holds.len() + 1 {
            self.may_lose(folder, &Change::Hold(name, &holds[..end]))?;
        }
        Ok(())
    }

    // Adds a case, if there is room and it is new.
    fn add(&mut self, folder: MemFolder) -> Result<(), FolderFault> {
        for known in &self.folders {
            if known.is_like(&folder) {
                return Ok(());
            }
        }
        if self.folders.len() < self.room {
            self.folders.push(folder)?;
        }
        Ok(())
    }

    /// Other programs do this in the folder. A power cut may lose each of their acts, or leave half
    /// of it.
    pub(crate) fn act(
        &mut self,
        folder: &mut MemFolder,
        acts: &[TurnAct],
    ) -> Result<(), FolderFault> {
        for act in acts {
            self.may_lose(folder, &Change::Half(act))?;
            self.may_lose(folder, &Change::Other(act))?;
            act.perform(folder)?;
        }
        Ok(())
    }

    /// Syncs a file of `tmp`: only those cases stay in which the file is as it is now.
    pub(crate) fn keep_file(&mut self, folder: &MemFolder, name: &str) {
        self.folders
            .retain(|left| left.has_file_of(folder, Sub::Tmp, name));
    }

    /// Syncs a folder: only those cases stay in which it has the names that it has now.
    pub(crate) fn keep_names(&mut self, folder: &MemFolder, sub: Sub) {
        self.folders.retain(|left| left.has_names_of(folder, sub));
    }
}

// Makes a change in a folder without a script.
fn make(change: &Change<'_>, folder: &mut MemFolder) -> Result<(), FolderFault> {
    match *change {
        Change::Make(name) => folder.write(name, &[]),
        Change::Hold(name, bytes) => match folder.bytes_of(Sub::Tmp, name) {
            None => Ok(()),
            Some(_) => folder.write(name, bytes),
        },
        Change::Place(name, place, target) => match folder.bytes_of(Sub::Tmp, name) {
            None => Ok(()),
            Some(_) => folder.place(name, place, target),
        },
        Change::Remove(name) => folder.remove(name),
        Change::Other(act) => act.perform(folder),
        Change::Half(act) => act.perform_half(folder),
    }
}
