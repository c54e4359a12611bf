// A command that is killed: from one of its calls on, no call is made but the closing of a Maildir.
ghost use Rattle.std.specs.Prelude.{◌≡◌, List, ℕ, IfErr, Option, map, string_bytes};
ghost use Rattle.std.specs.Io.Buffered.{writer_contents};
ghost use Rattle.std.specs.IoError.{error_kind};
ghost use Rattle.maildir_commands.specs.Commands.{ChangesMaildirs};
ghost use Rattle.maildir_commands.specs.Killed.{CameOut, inside};
ghost use Rattle.maildir_commands.specs.Program.{RanOn};
ghost use Rattle.maildir_commands.specs.Seen.{seen_with, streams};
ghost use Rattle.maildir_commands.specs.Words.{AreOfAForm};

use crate::machine::Machine;
use crate::program::run;
use maildir_disk::{OpenFault, System};
use maildir_name::Place;
use maildir_run::{FolderFault, Sub};
use std::alloc::Global;
use std::cell::Cell;
use std::io;
use std::io::{BufWriter, ErrorKind, Read, Write};
use std::time::{Duration, Instant, SystemTime};

/// A machine, a Maildir, a reader or a writer, of a process that is killed: some calls are made as
/// ever, and from then on none is made, and each fails. Only the closing of a Maildir is made at
/// any time. Calls of whatever shares a count, and of what a machine opens, are counted together.
#[derive(Drop)]
pub struct Killed<'a, T> {
    inner: T,
    calls_left: &'a Cell<u64>,
}

impl<'a, T> Killed<'a, T> {
    /// What is called, and how many calls are made before the kill.
    pub fn new(inner: T, calls_left: &'a Cell<u64>) -> Self
        ensures { inside result ≡ inner }
    {
        Killed { inner, calls_left }
    }

    /// What was called.
    pub fn into_inner(self) -> T
        ensures { result ≡ inside self.entry }
    {
        self.inner
    }

    // Begins a call, unless the process was killed.
    fn begin(&self) -> io::Result<()>
        ensures { IfErr result (λ error. error_kind error ≡ ErrorKind.Other) }
    {
        match self.calls_left.get().checked_sub(1) {
            Some(left) => {
                self.calls_left.set(left);
                Ok(())
            }
            None => Err(io::Error::from(ErrorKind::Other)),
        }
    }
}

impl<'a, R: Read> Read for Killed<'a, R> {
    ghost remaining = { λ killed. R.remaining killed.inner };

    fn read(&mut self, buf: &mut [u8]) -> io::Result<usize> {
        self.begin()?;
        self.inner.read(buf)
    }
}

impl<'a, W: Write> Write for Killed<'a, W> {
    ghost contents = { λ killed. W.contents killed.inner };

    fn write(&mut self, buf: &[u8]) -> io::Result<usize> {
        self.begin()?;
        self.inner.write(buf)
    }

    fn flush(&mut self) -> io::Result<()> {
        self.begin()?;
        self.inner.flush()
    }
}

impl<'a, S: System> System for Killed<'a, S> {
    type File = S::File;

    ghost at = { λ killed. S.at killed.inner };

    ghost name_of = { S.name_of };

    ghost is_current = { λ killed. S.is_current killed.inner };

    ghost quiet_is_honest = { λ killed. S.quiet_is_honest killed.inner };

    ghost fewer_honest = { λ killed. S.fewer_honest killed.inner };

    ghost may_stay = { λ killed. S.may_stay killed.inner };

    fn names(&mut self, sub: Sub) -> io::Result<Vec<String>> {
        self.begin()?;
        self.inner.names(sub)
    }

    fn stamp(&mut self, sub: Sub) -> io::Result<SystemTime> {
        self.begin()?;
        self.inner.stamp(sub)
    }

    fn now(&mut self) -> io::Result<SystemTime> {
        self.begin()?;
        self.inner.now()
    }

    fn instant(&mut self) -> io::Result<Instant> {
        self.begin()?;
        self.inner.instant()
    }

    fn sleep(&mut self, pause: Duration) {
        if self.begin().is_ok() {
            self.inner.sleep(pause);
        }
    }

    fn create(&mut self, name: &str) -> io::Result<S::File> {
        self.begin()?;
        self.inner.create(name)
    }

    fn append(&mut self, file: &mut S::File, bytes: &[u8]) -> io::Result<usize> {
        self.begin()?;
        self.inner.append(file, bytes)
    }

    fn sync_file(&mut self, file: &S::File) -> io::Result<()> {
        self.begin()?;
        self.inner.sync_file(file)
    }

    fn rename(&mut self, name: &str, place: Place, target: &str) -> io::Result<()> {
        self.begin()?;
        self.inner.rename(name, place, target)
    }

    fn unlink(&mut self, name: &str) -> io::Result<()> {
        self.begin()?;
        self.inner.unlink(name)
    }

    fn sync_folder(&mut self, place: Place) -> io::Result<()> {
        self.begin()?;
        self.inner.sync_folder(place)
    }

    fn sync_root(&mut self) -> io::Result<()> {
        self.begin()?;
        self.inner.sync_root()
    }
}

impl<'a, M: Machine> Machine for Killed<'a, M> {
    ghost use Rattle.maildir_commands.specs.Killed.{as_killed};

    type Source = Killed<'a, M::Source>;

    type Maildir = Killed<'a, M::Maildir>;

    ghost at = { λ killed. as_killed (M.at killed.inner) };

    ghost quiet_is_honest = { λ killed. M.quiet_is_honest killed.inner };

    ghost fewer_honest = { λ killed. M.fewer_honest killed.inner };

    ghost same_paths = { λ one other. M.same_paths one.inner other.inner };

    ghost same_maildir = { λ killed. M.same_maildir killed.inner };

    ghost may_stay = { λ killed. M.may_stay killed.inner };

    fn open_source(&mut self, path: &str) -> io::Result<Killed<'a, M::Source>> {
        self.begin()?;
        let source = self.inner.open_source(path)?;
        Ok(Killed::new(source, self.calls_left))
    }

    fn open_maildir(&mut self, path: &str) -> Result<Killed<'a, M::Maildir>, OpenFault> {
        if self.begin().is_err() {
            return Err(OpenFault::Folder(FolderFault::Failed));
        }
        let maildir = self.inner.open_maildir(path)?;
        Ok(Killed::new(maildir, self.calls_left))
    }

    // The kernel closes what a killed process had open.
    fn close_maildir(&mut self, path: &str, maildir: Killed<'a, M::Maildir>) {
        self.inner.close_maildir(path, maildir.into_inner());
    }
}

/// Does the program's work as [`run`] does, in a process that is killed at one of its calls. What it
/// leaves is what a command could leave that ended with status 1, whichever of the bytes that it
/// gave to its output came out, from the first on; of standard error nothing is said. If the call at
/// which it was killed was cut short, that is a call of the machine that failed.
pub fn run_killed<M: Machine, I: Read, W: Write + Drop, E: Write>(
    machine: &mut Killed<'_, M>,
    alloc: Global,
    words: &[String],
    input: &mut Killed<'_, I>,
    out: &mut BufWriter<Killed<'_, W>>,
    err: &mut Killed<'_, E>,
)
    ensures ran { let contents = writer_contents (λ killed. W.contents (inside killed)) in
        (after : Option (List ℕ)) → CameOut (contents out.old) after (contents out.new) →
        AreOfAForm (map string_bytes words.now) → (errors : Option (List ℕ)) →
        RanOn M.at (map string_bytes words.now) 1 (inside machine.old) (inside machine.new)
        (streams (I.remaining (inside input.old)) (contents out.old) errors)
        (streams (I.remaining (inside input.new)) after errors) }
    ensures did { let contents = writer_contents (λ killed. W.contents (inside killed)) in
        (after : Option (List ℕ)) → CameOut (contents out.old) after (contents out.new) →
        ChangesMaildirs (map string_bytes words.now) 1
        (seen_with (M.at (inside machine.old)) (I.remaining (inside input.old))
        (contents out.old))
        (seen_with (M.at (inside machine.new)) (I.remaining (inside input.new)) after) }
{
    run(machine, alloc, words, input, out, err);
}
