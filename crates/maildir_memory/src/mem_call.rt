// A call that was made of a file system in memory.
use maildir_calls::Facts;
use std::fmt::{Display, Formatter};
use std::time::{Duration, Instant, SystemTime};
use std::{fmt, io};

/// A file or a folder that is open.
#[derive(Clone, Copy)]
pub struct Handle {
    /// The number of the call that opened it. The first call has the number 0.
    pub call: usize,
}

/// A call, by its path or its open file, and what it answered. `Display` writes the call without its
/// answer, as `mkdir(maildir, 700)`.
#[derive(Drop)]
pub enum MemCall {
    /// mkdir(2) with a mode.
    FolderMade(String, u32, io::Result<()>),
    /// rmdir(2).
    FolderRemoved(String, io::Result<()>),
    /// open(2) for reading.
    Opened(String, io::Result<Handle>),
    /// readdir(3), which found nothing.
    Listed(String, io::Result<()>),
    /// stat(2).
    Looked(String, io::Result<Facts>),
    /// lstat(2).
    LookedAt(String, io::Result<Facts>),
    /// fstat(2).
    LookedThrough(Handle, io::Result<Facts>),
    /// open(2) with O_EXCL and a mode, for writing.
    FileMade(String, u32, io::Result<Handle>),
    /// open(2) of what is there, for reading and writing.
    FileOpened(String, io::Result<Handle>),
    /// ftruncate(2).
    Emptied(Handle, io::Result<()>),
    /// write(2).
    Written(Handle, Vec<u8>, io::Result<usize>),
    /// fsync(2).
    Synced(Handle, io::Result<()>),
    /// flock(2).
    LockTried(Handle, io::Result<()>),
    /// rename(2).
    Moved(String, String, io::Result<()>),
    /// unlink(2).
    FileRemoved(String, io::Result<()>),
    /// The wall clock.
    ClockRead(io::Result<SystemTime>),
    /// The monotonic clock.
    InstantRead(io::Result<Instant>),
    /// A wait.
    Waited(Duration),
}

impl Display for MemCall {
    fn fmt<W: fmt::Write>(&self, f: &mut Formatter<W>) -> fmt::Result {
        match self {
            MemCall::FolderMade(path, mode, _) => write!(f, "mkdir({path}, {mode:o})"),
            MemCall::FolderRemoved(path, _) => write!(f, "rmdir({path})"),
            MemCall::Opened(path, _) => write!(f, "open({path})"),
            MemCall::Listed(path, _) => write!(f, "readdir({path})"),
            MemCall::Looked(path, _) => write!(f, "stat({path})"),
            MemCall::LookedAt(path, _) => write!(f, "lstat({path})"),
            MemCall::LookedThrough(file, _) => write!(f, "fstat({})", file.call),
            MemCall::FileMade(path, mode, _) => write!(f, "open({path}, O_EXCL, {mode:o})"),
            MemCall::FileOpened(path, _) => write!(f, "open({path}, O_RDWR)"),
            MemCall::Emptied(file, _) => write!(f, "ftruncate({}, 0)", file.call),
            MemCall::Written(file, bytes, _) => write!(f, "write({}, {})", file.call, bytes.len()),
            MemCall::Synced(file, _) => write!(f, "fsync({})", file.call),
            MemCall::LockTried(file, _) => write!(f, "flock({})", file.call),
            MemCall::Moved(from, to, _) => write!(f, "rename({from}, {to})"),
            MemCall::FileRemoved(path, _) => write!(f, "unlink({path})"),
            MemCall::ClockRead(_) => write!(f, "clock"),
            MemCall::InstantRead(_) => write!(f, "instant"),
            MemCall::Waited(_) => write!(f, "wait"),
        }
    }
}
