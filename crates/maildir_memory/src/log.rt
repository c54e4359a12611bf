// The log of the files that the calls of a system in memory touched.
ghost use Rattle.std.specs.Prelude.{◌≡◌, IfErr, OnOk};
ghost use Rattle.std.specs.IoError.{error_kind};
ghost use Rattle.maildir_run.specs.Touched.{TouchedOnly};
ghost use Rattle.maildir_memory.specs.Logs.{is_logged};

use maildir_run::Sub;
use std::alloc::Global;
use std::io;
use std::io::ErrorKind;

/// A file that a call touched.
#[derive(Drop)]
pub struct Touched {
    /// Its folder.
    pub sub: Sub,
    /// Its name.
    pub name: String,
}

/// Logs a file that a call is to touch.
pub(crate) fn touch(log: &mut Vec<Touched>, alloc: Global, sub: Sub, name: &str) -> io::Result<()>
    ensures only { TouchedOnly (λ file. file ≡ record { sub = sub; name = name.now })
        (is_logged log.old) (is_logged log.new) }
    ensures kind { IfErr result (λ error. error_kind error ≡ ErrorKind.OutOfMemory) }
    ensures logged { OnOk result (is_logged log.new (record { sub = sub; name = name.now })) }
{
    let name = String::from_str(alloc, name)?;
    log.push(Touched { sub, name })?;
    Ok(())
}
