// The paths of a Maildir.
ghost use Rattle.std.specs.Prelude.{◌≡◌, ◌++◌, ◌∷◌, codes, IfOk, string_bytes};
ghost use Rattle.maildir_run.specs.Folders.{folder_name};

use maildir_run::Sub;
use std::alloc::{AllocError, Global};

/// The paths of a Maildir at a path: its three folders, its files and its parent.
#[derive(Drop)]
pub struct Paths {
    alloc: Global,
    root: String,
}

impl Paths {
    /// The paths of the Maildir at this path.
    pub fn new(alloc: Global, root: &str) -> Result<Paths, AllocError>
        ensures { IfOk result (λ paths. string_bytes paths.root ≡ root.now) }
    {
        let root = String::from_str(alloc, root)?;
        Ok(Paths { alloc, root })
    }

    /// The path of the Maildir.
    pub fn root(&self) -> &str
        ensures { result.now ≡ string_bytes self.now.root }
    {
        self.root.as_str()
    }

    /// The path of its parent.
    pub fn parent(&self) -> Result<String, AllocError>
        ensures { IfOk result
            (λ path. string_bytes path ≡ string_bytes self.now.root ++ codes "/..") }
    {
        let root = self.root.as_str();
        format!(in self.alloc; "{root}/..")
    }

    /// The path of one of the three folders.
    pub fn folder(&self, sub: Sub) -> Result<String, AllocError>
        ensures { IfOk result
            (λ path. string_bytes path ≡ string_bytes self.now.root ++ 47 ∷ folder_name sub) }
    {
        let (root, sub) = (self.root.as_str(), sub.name());
        format!(in self.alloc; "{root}/{sub}")
    }

    /// The path of a file in one of the three folders.
    pub fn file(&self, sub: Sub, name: &str) -> Result<String, AllocError>
        ensures { IfOk result
            (λ path. string_bytes path ≡ string_bytes self.now.root ++ 47 ∷
            (folder_name sub ++ 47 ∷ name.now)) }
    {
        let (root, sub) = (self.root.as_str(), sub.name());
        format!(in self.alloc; "{root}/{sub}/{name}")
    }
}
