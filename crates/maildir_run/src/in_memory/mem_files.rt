// The files of a folder in memory, and the effect of each call on them.
ghost use Rattle.std.specs.Prelude.{◌≡◌, ◌↔◌, IfOk, OnOk, OnErr, IsTrue, IsFalse, None};
ghost use Rattle.std.specs.Prelude.{string_bytes};
ghost use Rattle.std.specs.FinMap.{get};
ghost use Rattle.maildir_run.specs.Calls.{effect, folder_of, IsReady};
ghost use Rattle.maildir_run.specs.Calls.Call.{Placing, Writing};
ghost use Rattle.maildir_run.specs.Files.{no_files};
ghost use Rattle.maildir_run.specs.MemFiles.{files_in, with_file, without_file};

use crate::folder::Sub;
use crate::in_memory::file_tree::FileTree;
use maildir_name::Place;
use std::alloc::{AllocError, Global};

/// The files of `tmp`, `new` and `cur`. A call that is refused leaves them as they were.
#[derive(Drop)]
pub(crate) struct MemFiles {
    pub alloc: Global,
    pub in_tmp: FileTree,
    pub in_new: FileTree,
    pub in_cur: FileTree,
}

impl MemFiles {
    pub(crate) fn new(alloc: Global) -> Self
        ensures { files_in result ≡ no_files }
    {
        MemFiles {
            alloc,
            in_tmp: FileTree::new(alloc),
            in_new: FileTree::new(alloc),
            in_cur: FileTree::new(alloc),
        }
    }

    pub(crate) fn put(&mut self, sub: Sub, name: String, bytes: Vec<u8>) -> Result<(), AllocError>
        ensures ok { OnOk result (files_in self.new ≡ with_file sub (string_bytes name) bytes.items
            (files_in self.old)) }
        ensures err { OnErr result (files_in self.new ≡ files_in self.old) }
    {
        match sub {
            Sub::Tmp => self.in_tmp.set(name, bytes),
            Sub::New => self.in_new.set(name, bytes),
            Sub::Cur => self.in_cur.set(name, bytes),
        }
    }

    pub(crate) fn remove(&mut self, sub: Sub, name: &str)
        ensures { files_in self.new ≡ without_file sub name.now (files_in self.old) }
    {
        match sub {
            Sub::Tmp => self.in_tmp.remove(name),
            Sub::New => self.in_new.remove(name),
            Sub::Cur => self.in_cur.remove(name),
        }
    }

    /// The files of one folder.
    pub(crate) fn of(&self, sub: Sub) -> &FileTree
        ensures { result.now ≡ folder_of sub (files_in self.now) }
    {
        match sub {
            Sub::Tmp => &self.in_tmp,
            Sub::New => &self.in_new,
            Sub::Cur => &self.in_cur,
        }
    }

    pub(crate) fn copy(&self) -> Result<MemFiles, AllocError>
        ensures { IfOk result (λ copy. files_in copy ≡ files_in self.now) }
    {
        Ok(MemFiles {
            alloc: self.alloc,
            in_tmp: self.in_tmp.copy()?,
            in_new: self.in_new.copy()?,
            in_cur: self.in_cur.copy()?,
        })
    }

    pub(crate) fn is_like(&self, other: &MemFiles) -> bool
        ensures { IsTrue result ↔ (files_in self.now ≡ files_in other.now) }
    {
        self.in_tmp.is_like(&other.in_tmp)
            && self.in_new.is_like(&other.in_new)
            && self.in_cur.is_like(&other.in_cur)
    }

    pub(crate) fn write(&mut self, name: &str, bytes: &[u8]) -> Result<(), AllocError>
        ensures ok { OnOk result (files_in self.new ≡ effect (Writing name.now bytes.now)
            (files_in self.old)) }
        ensures err { OnErr result (files_in self.new ≡ files_in self.old) }
    {
        let name = String::from_str(self.alloc, name)?;
        let bytes = Vec::from_slice(self.alloc, bytes)?;
        self.in_tmp.set(name, bytes)
    }

    /// Returns whether the file was there. The copy comes first, so that nothing changes if an
    /// allocation fails.
    pub(crate) fn rename(
        &mut self,
        name: &str,
        place: Place,
        target: &str,
    ) -> Result<bool, AllocError>
        ensures found { IfOk result (λ found. IsTrue found →
            IsReady (Placing name.now place target.now) (files_in self.old)) }
        ensures absent { IfOk result (λ found. IsFalse found → get (files_in self.old).tmp name.now
            ≡ None) }
        ensures there { OnErr result
            (IsReady (Placing name.now place target.now) (files_in self.old)) }
        ensures done { OnOk result (files_in self.new ≡ effect (Placing name.now place target.now)
            (files_in self.old)) }
        ensures err { OnErr result (files_in self.new ≡ files_in self.old) }
    {
        let Some(bytes) = self.in_tmp.get(name) else {
            return Ok(false);
        };
        let bytes = Vec::from_slice(self.alloc, bytes)?;
        let target = String::from_str(self.alloc, target)?;
        match place {
            Place::New => self.in_new.set(target, bytes)?,
            Place::Cur => self.in_cur.set(target, bytes)?,
        }
        self.in_tmp.remove(name);
        Ok(true)
    }
}
