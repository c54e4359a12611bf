// The kind of a file, and its owner.
ghost use Rattle.std.specs.Prelude.{◌≡◌, ◌↔◌, false, IfErr, IfOk, IsOk, OnErr};
ghost use Rattle.std.specs.IoError.{error_kind};
ghost use Rattle.maildir_calls.specs.Own.{IsFolder, IsOfOwner, IsSameOwn};

use std::io;
use std::io::ErrorKind;

/// The mode of the files that are made. Mail is private: only its owner can read it, whatever the
/// umask allows.
pub(crate) const FILE_MODE: u32 = 0o600;

// What `st_mode` says of the kind of a file: the bits that hold it, a regular file, and a folder.
const KIND: u32 = 0o170_000;

const REGULAR: u32 = 0o100_000;

const FOLDER: u32 = 0o040_000;

/// The mode of the folders that are made.
pub(crate) fn folder_mode() -> u32
    ensures { result ≡ 0o700 }
{
    0o700
}

/// What stat(2) tells of a file.
#[derive(Clone, Copy)]
pub struct Facts {
    /// The kind of file and its mode, `st_mode`.
    pub mode: u32,
    /// How many names (hard links) it has.
    pub links: u64,
    /// The user ID of its owner.
    pub owner: u32,
    /// The number of its device.
    pub device: u64,
    /// Its inode number on that device.
    pub number: u64,
    /// When it was last changed (ctime): seconds since 1970, or 0 if the file system keeps no such
    /// time.
    pub seconds: i64,
    /// The nanoseconds after these.
    pub nanos: i64,
}

/// The result where a folder could not be made: `false` if a folder is there already, otherwise the
/// error.
pub(crate) fn there_already(error: io::Error, found: io::Result<Facts>) -> io::Result<bool>
    ensures there { IfOk found (λ facts. IsFolder facts → result ≡ Ok false) }
    ensures other { IfOk found (λ facts. ¬ IsFolder facts → result ≡ Err error) }
    ensures none { OnErr found (result ≡ Err error) }
{
    match found {
        Ok(facts) if facts.mode & KIND == FOLDER => Ok(false),
        _ => Err(error),
    }
}

/// Checks that the converter may have made a file: it is a regular file with one name, it belongs
/// to the owner of the folder, and nobody else may open it. Otherwise somebody could have opened it
/// already, and would read the message while it is written.
///
/// Errors: of the kind `Other`, if the check fails.
pub fn check_own(found: &Facts, owner: u32) -> io::Result<()>
    ensures own { IsOk result ↔ IsOfOwner found.now owner }
    ensures kind { IfErr result (λ error. error_kind error ≡ ErrorKind.Other) }
{
    if found.mode == REGULAR | FILE_MODE && found.links == 1 && found.owner == owner {
        Ok(())
    } else {
        Err(io::Error::other("the name is taken"))
    }
}

/// Checks that the file that was opened is the one that was found and checked before, and is still
/// our own.
///
/// Errors: of the kind `Other`, if the check fails.
pub(crate) fn check_same(opened: &Facts, found: &Facts) -> io::Result<()>
    ensures same { IsOk result ↔ IsSameOwn opened.now found.now }
    ensures kind { IfErr result (λ error. error_kind error ≡ ErrorKind.Other) }
{
    check_own(opened, found.owner)?;
    if opened.device == found.device && opened.number == found.number {
        Ok(())
    } else {
        Err(io::Error::other("the name is another file's"))
    }
}
