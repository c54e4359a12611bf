// The files of one folder, kept in memory.
ghost use Rattle.std.specs.Prelude.{◌≡◌, ◌↔◌, IfOk, IsTrue, OnOk, OnErr, string_bytes};
ghost use Rattle.std.specs.FinMap as map;
ghost use Rattle.std.specs.Option.{option_copied};
ghost use Rattle.maildir_run.specs.Calls.{names_of};

use std::alloc::{AllocError, Global};
use std::collections::BTreeMap;
use std::marker::Model;

/// Files by their names. Contracts see them as a finite map.
#[derive(Drop)]
pub(crate) struct FileTree {
    files: BTreeMap<String, Vec<u8>>,
}

impl Model for FileTree {
    ghost use Rattle.maildir_run.specs.Files.{FileMap};
    ghost use Rattle.maildir_run.specs.FileTree.{file_map_code, map_of};

    ghost Value = { FileMap };

    ghost coded = { file_map_code };

    ghost view = { λ t. map_of t.files };
}

impl FileTree {
    pub(crate) fn new(alloc: Global) -> Self
        ensures { result ≡ map.empty }
    {
        FileTree {
            files: BTreeMap::new(alloc),
        }
    }

    pub(crate) fn set(&mut self, name: String, bytes: Vec<u8>) -> Result<(), AllocError>
        ensures ok { OnOk result (self.new ≡ map.insert self.old (string_bytes name) bytes.items) }
        ensures err { OnErr result (self.new ≡ self.old) }
    {
        self.files.insert(name, bytes)?;
        Ok(())
    }

    pub(crate) fn remove(&mut self, name: &str)
        ensures { self.new ≡ map.remove self.old name.now }
    {
        self.files.remove(name);
    }

    pub(crate) fn get(&self, name: &str) -> Option<&[u8]>
        ensures { option_copied result ≡ map.get self.now name.now }
    {
        match self.files.get(name) {
            Some(bytes) => Some(bytes.as_slice()),
            None => None,
        }
    }

    /// The names, in the order of their bytes.
    pub(crate) fn names(&self, alloc: Global) -> Result<Vec<String>, AllocError>
        ensures { IfOk result (λ names. names_of names ≡ map.keys self.now) }
    {
        let mut names = Vec::with_capacity(alloc, self.files.len())?;
        for name in self.files.keys() {
            names.push(name.clone()?)?;
        }
        Ok(names)
    }

    pub(crate) fn len(&self) -> usize
        ensures { result ≡ map.len self.now }
    {
        self.files.len()
    }

    pub(crate) fn copy(&self) -> Result<FileTree, AllocError>
        ensures { IfOk result (λ copy. copy ≡ self.now) }
    {
        Ok(FileTree {
            files: self.files.clone()?,
        })
    }

    pub(crate) fn is_like(&self, other: &FileTree) -> bool
        ensures { IsTrue result ↔ (self.now ≡ other.now) }
    {
        self.files.len() == other.files.len() && self.files == other.files
    }

    pub(crate) fn has_names_of(&self, other: &FileTree) -> bool
        ensures { IsTrue result ↔ (map.keys self.now ≡ map.keys other.now) }
    {
        self.files.keys().eq(other.files.keys())
    }
}
