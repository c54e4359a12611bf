// The clocks and stamps of a system in memory, and its failing calls.
use std::io::{self, ErrorKind};
use std::time::{Duration, Instant, SystemTime, UNIX_EPOCH};

/// How fine the stamps of a system in memory are.
#[derive(Clone, Copy, PartialEq, Eq)]
pub enum Stamps {
    /// Nanoseconds.
    Fine,
    /// Whole seconds.
    WholeSeconds,
}

/// Begins a call, which fails if no calls are left.
pub(crate) fn begin(calls_left: &mut u64) -> io::Result<()> {
    if *calls_left == 0 {
        return Err(io::Error::from(ErrorKind::Other));
    }
    *calls_left -= 1;
    Ok(())
}

/// Advances both clocks, up to their greatest values.
pub(crate) fn tick(clock: &mut SystemTime, instant: &mut Instant, pause: Duration) {
    if let Some(later) = clock.checked_add(pause) {
        *clock = later;
    }
    if let Some(later) = instant.checked_add(pause) {
        *instant = later;
    }
}

/// The stamp of a change at this time.
pub(crate) fn stamp_at(clock: SystemTime, stamps: Stamps) -> SystemTime {
    match clock.duration_since(UNIX_EPOCH) {
        Ok(since) if stamps == Stamps::WholeSeconds => {
            match clock.checked_sub(Duration::from_nanos(u64::from(since.subsec_nanos()))) {
                Some(second) => second,
                None => clock,
            }
        }
        _ => clock,
    }
}
