// The names in a folder at one moment.
ghost use Rattle.std.specs.Prelude.{◌≡◌, ◌-◌, ◌≤◌, ◌↔◌, IfErr, IsErr, IsTrue};
ghost use Rattle.std.specs.Duration.{as_nanos};
ghost use Rattle.std.specs.IoError.{error_kind};
ghost use Rattle.std.specs.Time.{instant_nanos, system_time_nanos};
ghost use Rattle.maildir_disk.specs.Private.OneMoment.{Attempts, IsAged, ReadsAtOnce, Watches};
ghost use Rattle.maildir_disk.specs.World.{margin_of};

use crate::system::System;
use maildir_run::Sub;
use std::io;
use std::io::ErrorKind;
use std::time::{Duration, Instant, SystemTime, UNIX_EPOCH};

// How far the stamp that a change sets may be from the clock at that moment: file systems stamp by
// the ticks of a clock, which are late on a busy machine.
const MARGIN_MILLIS: u64 = 50;

// The same for a stamp without a fraction of a second: the file system may keep none, and some
// count by two seconds.
const COARSE_MARGIN_MILLIS: u64 = 2_050;

// How long to try while a folder keeps changing.
const PATIENCE_SECS: u64 = 30;

// How long to wait after a change during a listing.
const PAUSE_MILLIS: u64 = 1;

/// The names of all entries of a folder at one moment, though files in it are made, removed and
/// renamed meanwhile. readdir(3) takes several steps, and can miss a file that is renamed between
/// two of them. So the names are returned only if no change before the end of the listing could
/// have set the stamp that the folder has before and after it; otherwise the folder is listed
/// again, for 30 seconds at most.
pub(crate) fn names_of_one_moment<S: System>(system: &mut S, sub: Sub) -> io::Result<Vec<String>>
    ensures { ReadsAtOnce sub (S.at system.old) result (S.at system.new) }
{
    let start = system.instant()?;
    for _ in 0..u64::MAX {
        let pause = match take_names(system, sub)? {
            Attempt::Taken(names) => return Ok(names),
            Attempt::Wait(pause) => pause,
        };
        if is_over(start, system.instant()?) {
            break;
        }
        system.sleep(pause);
    }
    give_up()
}

// Whether the time to try that began at `start` is over.
fn is_over(start: Instant, now: Instant) -> bool
    ensures { IsTrue result ↔ 30_000_000_000 ≤ instant_nanos now - instant_nanos start }
{
    now.duration_since(start) >= Duration::from_secs(PATIENCE_SECS)
}

fn pause() -> Duration
    ensures { as_nanos result ≡ 1_000_000 }
{
    Duration::from_millis(PAUSE_MILLIS)
}

// The fault of a folder that keeps changing. It is no want of memory.
fn give_up() -> io::Result<Vec<String>>
    ensures err { IsErr result }
    ensures kind { IfErr result (λ error. error_kind error ≡ ErrorKind.TimedOut) }
{
    Err(io::Error::from(ErrorKind::TimedOut))
}

// The result of one attempt.
#[derive(Drop)]
enum Attempt {
    // The names at one moment.
    Taken(Vec<String>),
    // The folder is changing: try again after this pause.
    Wait(Duration),
}

fn take_names<S: System>(system: &mut S, sub: Sub) -> io::Result<Attempt>
    ensures { Attempts sub (S.at system.old) result (S.at system.new) }
{
    let stamp = system.stamp(sub)?;
    let now = system.now()?;
    let age = Age::of(stamp, now);
    if let Age::Young(pause) = age {
        return Ok(Attempt::Wait(pause));
    }
    let Some(names) = watched_names(system, sub, stamp)? else {
        return Ok(Attempt::Wait(pause()));
    };
    if let Age::Settled = age {
        return Ok(Attempt::Taken(names));
    }
    let later = system.now()?;
    if let Age::Ahead = Age::of(stamp, later) {
        Ok(Attempt::Taken(names))
    } else {
        Ok(Attempt::Wait(pause()))
    }
}

// The names of a folder, if it has this stamp after they were read.
fn watched_names<S: System>(
    system: &mut S,
    sub: Sub,
    stamp: SystemTime,
) -> io::Result<Option<Vec<String>>>
    ensures { Watches sub (system_time_nanos stamp) (S.at system.old) result (S.at system.new) }
{
    let names = system.names(sub)?;
    let after = system.stamp(sub)?;
    if after == stamp {
        Ok(Some(names))
    } else {
        Ok(None)
    }
}

// How the stamp of a folder compares with the clock.
#[derive(Clone, Copy)]
enum Age {
    // So old that no later change sets it.
    Settled,
    // A change about now may set it; it has settled after this time.
    Young(Duration),
    // So far ahead that no earlier change has set it.
    Ahead,
}

impl Age {
    fn of(stamp: SystemTime, now: SystemTime) -> Age
        ensures { IsAged (system_time_nanos stamp) (system_time_nanos now) result }
    {
        let margin = margin_of(stamp);
        match now.duration_since(stamp) {
            Ok(past) if past >= margin => Age::Settled,
            Ok(past) => Age::Young(margin.saturating_sub(past)),
            Err(error) if error.duration() >= margin => Age::Ahead,
            Err(error) => Age::Young(margin.saturating_add(error.duration())),
        }
    }
}

// How far the stamp may be from the clock at the change that set it.
fn margin_of(stamp: SystemTime) -> Duration
    ensures { as_nanos result ≡ margin_of (system_time_nanos stamp) }
{
    let has_parts = match stamp.duration_since(UNIX_EPOCH) {
        Ok(since) => since.subsec_nanos() > 0,
        Err(_) => false,
    };
    Duration::from_millis(if has_parts {
        MARGIN_MILLIS
    } else {
        COARSE_MARGIN_MILLIS
    })
}
