// The machine's own calls of files and clocks, one each.
ghost use Rattle.std.specs.Prelude.{◌≡◌};
ghost use Rattle.maildir_calls.specs.Made.{no_trace};

use maildir_calls::{Calls, Facts};
use std::alloc::Global;
use std::fs::{DirBuilder, File, Metadata, OpenFile, OpenOptions};
use std::io::Write;
use std::os::unix::fs::{DirBuilderExt, MetadataExt, OpenOptionsExt};
use std::rt::{Clock, Files};
use std::time::{Duration, Instant, SystemTime};
use std::{fs, io, thread};

/// The calls of files and clocks that the machine of this runtime makes.
#[derive(Drop)]
pub struct Host<'a, R> {
    rt: &'a R,
    alloc: Global,
}

impl<'a, R> Host<'a, R> {
    /// The calls of this runtime.
    pub fn new(rt: &'a R, alloc: Global) -> Self
        ensures { (result.rt.now ≡ rt.now) × (result.alloc ≡ alloc) }
    {
        Host { rt, alloc }
    }
}

// No proof knows which calls a real machine makes, or what they do.
impl<'a, R: Files<File = File> + Clock> Calls for Host<'a, R> {
    type File = File;

    ghost trace = { λ _. no_trace };

    fn make_folder(&mut self, path: &str, mode: u32) -> io::Result<()> {
        let mut builder = DirBuilder::new();
        builder.mode(mode);
        builder.create(self.rt, path)
    }

    fn remove_folder(&mut self, path: &str) -> io::Result<()> {
        fs::remove_dir(self.rt, path)
    }

    fn open(&mut self, path: &str) -> io::Result<File> {
        fs::open(self.rt, path)
    }

    fn list(&mut self, path: &str) -> io::Result<Vec<String>> {
        let mut names = Vec::new(self.alloc);
        for entry in fs::read_dir(&(self.rt, self.alloc), path)? {
            names.push(String::from_str(self.alloc, entry?.file_name())?)?;
        }
        Ok(names)
    }

    fn look(&mut self, path: &str) -> io::Result<Facts> {
        Ok(facts(&fs::metadata(self.rt, path)?))
    }

    fn look_at(&mut self, path: &str) -> io::Result<Facts> {
        Ok(facts(&fs::symlink_metadata(self.rt, path)?))
    }

    fn look_through(&mut self, file: &File) -> io::Result<Facts> {
        Ok(facts(&file.metadata()?))
    }

    fn make_file(&mut self, path: &str, mode: u32) -> io::Result<File> {
        let mut options = OpenOptions::new();
        options.write(true).create_new(true);
        options.mode(mode);
        options.open(self.rt, path)
    }

    fn open_file(&mut self, path: &str) -> io::Result<File> {
        let mut options = OpenOptions::new();
        // for reading too: opening a FIFO for writing alone blocks until a reader opens it (fifo(7))
        options.read(true).write(true).open(self.rt, path)
    }

    fn empty(&mut self, file: &File) -> io::Result<()> {
        file.set_len(0)
    }

    fn write(&mut self, file: &mut File, bytes: &[u8]) -> io::Result<usize> {
        file.write(bytes)
    }

    fn sync(&mut self, file: &File) -> io::Result<()> {
        file.sync_all()
    }

    fn try_lock(&mut self, file: &File) -> io::Result<()> {
        file.try_lock().map_err(io::Error::from)
    }

    fn rename(&mut self, from: &str, to: &str) -> io::Result<()> {
        fs::rename(self.rt, from, to)
    }

    fn remove_file(&mut self, path: &str) -> io::Result<()> {
        fs::remove_file(self.rt, path)
    }

    fn now(&mut self) -> io::Result<SystemTime> {
        SystemTime::now(self.rt)
    }

    fn instant(&mut self) -> io::Result<Instant> {
        Instant::now(self.rt)
    }

    fn sleep(&mut self, pause: Duration) {
        thread::sleep(self.rt, pause);
    }
}

// The facts that a look gives.
fn facts(found: &Metadata) -> Facts {
    Facts {
        mode: found.mode(),
        links: found.nlink(),
        owner: found.uid(),
        device: found.dev(),
        number: found.ino(),
        seconds: found.ctime(),
        nanos: found.ctime_nsec(),
    }
}
