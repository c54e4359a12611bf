// The time of a change.
ghost use Rattle.std.specs.Prelude.{◌≡◌, ◌+◌, ◌*◌, ◌↔◌, IfSome, IsSome};
ghost use Rattle.std.specs.IoError.{error_kind};
ghost use Rattle.std.specs.Time.{FitsClock, system_time_nanos};
ghost use Rattle.maildir_calls.specs.Stamps.{TellsChange};

use crate::own::Facts;
use std::io;
use std::io::ErrorKind;
use std::time::{Duration, SystemTime, UNIX_EPOCH};

/// When the file was last changed.
///
/// Errors: of the kind `Other`, if the file system keeps no such time.
pub(crate) fn time_of_change(found: &Facts) -> io::Result<SystemTime>
    ensures { TellsChange found.now result }
{
    if found.seconds < 1 || found.nanos < 0 {
        return Err(no_time());
    }
    time_of(found.seconds.unsigned_abs(), found.nanos.unsigned_abs()).ok_or(no_time())
}

fn no_time() -> io::Error
    ensures { error_kind result ≡ ErrorKind.Other }
{
    io::Error::other("the file system keeps no time of change")
}

// The time this long after the beginning of 1970, if a clock shows it.
fn time_of(seconds: u64, nanos: u64) -> Option<SystemTime>
    ensures variant { IsSome result ↔ FitsClock (seconds * 1_000_000_000 + nanos) }
    ensures some { IfSome result
        (λ time. system_time_nanos time ≡ seconds * 1_000_000_000 + nanos) }
{
    UNIX_EPOCH
        .checked_add(Duration::from_secs(seconds))?
        .checked_add(Duration::from_nanos(nanos))
}
