// Writing and syncing a file of `tmp`.
ghost use Rattle.maildir_run.specs.Calls.Call.{Writing};
ghost use Rattle.maildir_disk.specs.Private.Effects.{TakesEffect};

use crate::system::System;
use std::io;
use std::io::ErrorKind;

/// Writes these bytes to the file `name` of `tmp`, in place of what it held, and syncs it. After a
/// write(2) of a prefix the rest follows, and an interrupted one is retried.
pub(crate) fn write_synced<S: System>(system: &mut S, name: &str, bytes: &[u8]) -> io::Result<()>
    ensures { TakesEffect (Writing name.now bytes.now) (S.at system.old) result (S.at system.new) }
{
    let mut file = system.create(name)?;
    let mut at = 0;
    for _ in 0..u64::MAX {
        if at >= bytes.len() {
            return system.sync_file(&file);
        }
        match system.append(&mut file, &bytes[at..]) {
            Ok(0) => return Err(io::Error::from(ErrorKind::WriteZero)),
            Ok(n) => at += n,
            Err(error) => {
                if error.kind() != ErrorKind::Interrupted {
                    return Err(error);
                }
            }
        }
    }
    Err(io::Error::from(ErrorKind::TimedOut))
}
