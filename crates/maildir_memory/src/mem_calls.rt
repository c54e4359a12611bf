// The calls of a file system in memory, which are recorded.
ghost use Rattle.std.specs.Prelude.{◌≡◌, [], IfOk, IsFalse, OnErr, string_bytes};
ghost use Rattle.maildir_calls.specs.Made.{MakesCall};
ghost use Rattle.maildir_memory.specs.Recorded.{made_of, recorded};

use crate::mem_call::{Handle, MemCall};
use maildir_calls::{Calls, Facts};
use std::alloc::{AllocError, Global};
use std::io;
use std::time::{Duration, Instant, SystemTime};

/// What a call answers.
#[derive(Clone, Copy)]
pub enum Answer {
    /// It works. What is opened has the number of the call, a folder that is listed is empty, and all
    /// bytes are written. A look finds a file whose facts are all 0.
    Done,
    /// A look finds this; any other call works.
    Found(Facts),
    /// It fails with this errno.
    Fails(i32),
}

/// A file system that answers each call as a script says, and records the calls: what was made of
/// it is known. Nothing is on it. Both clocks stand still.
#[derive(Drop)]
pub struct MemCalls {
    alloc: Global,
    clock: SystemTime,
    instant: Instant,
    // one for each call; the calls after them work
    script: Vec<Answer>,
    made: Vec<MemCall>,
    // there was memory to record each
    is_whole: bool,
}

const NOTHING: Facts = Facts {
    mode: 0,
    links: 0,
    owner: 0,
    device: 0,
    number: 0,
    seconds: 0,
    nanos: 0,
};

impl MemCalls {
    /// Calls that answer so, in this order; those after them work.
    pub fn new(alloc: Global, clock: SystemTime, instant: Instant, script: Vec<Answer>) -> Self
        ensures known { (⟦<MemCalls as Calls>⟧.trace result).known }
        ensures none { (⟦<MemCalls as Calls>⟧.trace result).calls ≡ [] }
    {
        MemCalls {
            alloc,
            clock,
            instant,
            script,
            made: Vec::new(alloc),
            is_whole: true,
        }
    }

    /// The calls that were made, the oldest first, while there was memory to record them.
    pub fn made(&self) -> &[MemCall]
        ensures { result.now ≡ self.now.made.items }
    {
        self.made.as_slice()
    }

    fn next(&self) -> Answer {
        match self.script.get(self.made.len()) {
            Some(answer) => *answer,
            None => Answer::Done,
        }
    }

    // What the next call answers that gives this if it works.
    fn answer<T: Copy>(&self, value: T) -> io::Result<T>
        ensures { IfOk result (λ given. given ≡ value) }
    {
        match self.next() {
            Answer::Fails(code) => Err(io::Error::from_raw_os_error(code)),
            Answer::Done | Answer::Found(_) => Ok(value),
        }
    }

    // What the next call answers, if it is a look.
    fn facts(&self) -> io::Result<Facts> {
        match self.next() {
            Answer::Fails(code) => Err(io::Error::from_raw_os_error(code)),
            Answer::Found(facts) => Ok(facts),
            Answer::Done => Ok(NOTHING),
        }
    }

    // What the next call opens.
    fn opened(&self) -> io::Result<Handle> {
        self.answer(Handle {
            call: self.made.len(),
        })
    }

    fn text(&self, path: &str) -> Result<String, AllocError>
        ensures { IfOk result (λ text. string_bytes text ≡ path.now) }
    {
        String::from_str(self.alloc, path)
    }

    // Records a call, if there is memory.
    fn note(&mut self, call: Result<MemCall, AllocError>)
        ensures noted { IfOk call (λ call.
            MakesCall (made_of call) (recorded self.old) (recorded self.new)) }
        ensures no_memory { OnErr call (IsFalse self.new.is_whole) }
    {
        match call {
            Ok(call) => {
                if self.made.push(call).is_err() {
                    self.is_whole = false;
                }
            }
            Err(_) => self.is_whole = false,
        }
    }
}

impl Calls for MemCalls {
    type File = Handle;

    ghost trace = { recorded };

    fn make_folder(&mut self, path: &str, mode: u32) -> io::Result<()> {
        let (text, answer) = (self.text(path), self.answer(()));
        self.note(text.map(|path| MemCall::FolderMade(path, mode, answer)));
        answer
    }

    fn remove_folder(&mut self, path: &str) -> io::Result<()> {
        let (text, answer) = (self.text(path), self.answer(()));
        self.note(text.map(|path| MemCall::FolderRemoved(path, answer)));
        answer
    }

    fn open(&mut self, path: &str) -> io::Result<Handle> {
        let (text, answer) = (self.text(path), self.opened());
        self.note(text.map(|path| MemCall::Opened(path, answer)));
        answer
    }

    fn list(&mut self, path: &str) -> io::Result<Vec<String>> {
        let (text, answer) = (self.text(path), self.answer(()));
        self.note(text.map(|path| MemCall::Listed(path, answer)));
        match answer {
            Ok(()) => Ok(Vec::new(self.alloc)),
            Err(error) => Err(error),
        }
    }

    fn look(&mut self, path: &str) -> io::Result<Facts> {
        let (text, answer) = (self.text(path), self.facts());
        self.note(text.map(|path| MemCall::Looked(path, answer)));
        answer
    }

    fn look_at(&mut self, path: &str) -> io::Result<Facts> {
        let (text, answer) = (self.text(path), self.facts());
        self.note(text.map(|path| MemCall::LookedAt(path, answer)));
        answer
    }

    fn look_through(&mut self, file: &Handle) -> io::Result<Facts> {
        let answer = self.facts();
        self.note(Ok(MemCall::LookedThrough(*file, answer)));
        answer
    }

    fn make_file(&mut self, path: &str, mode: u32) -> io::Result<Handle> {
        let (text, answer) = (self.text(path), self.opened());
        self.note(text.map(|path| MemCall::FileMade(path, mode, answer)));
        answer
    }

    fn open_file(&mut self, path: &str) -> io::Result<Handle> {
        let (text, answer) = (self.text(path), self.opened());
        self.note(text.map(|path| MemCall::FileOpened(path, answer)));
        answer
    }

    fn empty(&mut self, file: &Handle) -> io::Result<()> {
        let answer = self.answer(());
        self.note(Ok(MemCall::Emptied(*file, answer)));
        answer
    }

    fn write(&mut self, file: &mut Handle, bytes: &[u8]) -> io::Result<usize> {
        let answer = self.answer(bytes.len());
        let copy = Vec::from_slice(self.alloc, bytes);
        self.note(copy.map(|bytes| MemCall::Written(*file, bytes, answer)));
        answer
    }

    fn sync(&mut self, file: &Handle) -> io::Result<()> {
        let answer = self.answer(());
        self.note(Ok(MemCall::Synced(*file, answer)));
        answer
    }

    fn try_lock(&mut self, file: &Handle) -> io::Result<()> {
        let answer = self.answer(());
        self.note(Ok(MemCall::LockTried(*file, answer)));
        answer
    }

    fn rename(&mut self, from: &str, to: &str) -> io::Result<()> {
        let (from, to, answer) = (self.text(from), self.text(to), self.answer(()));
        self.note(from.and_then(|from| to.map(|to| MemCall::Moved(from, to, answer))));
        answer
    }

    fn remove_file(&mut self, path: &str) -> io::Result<()> {
        let (text, answer) = (self.text(path), self.answer(()));
        self.note(text.map(|path| MemCall::FileRemoved(path, answer)));
        answer
    }

    fn now(&mut self) -> io::Result<SystemTime> {
        let answer = self.answer(self.clock);
        self.note(Ok(MemCall::ClockRead(answer)));
        answer
    }

    fn instant(&mut self) -> io::Result<Instant> {
        let answer = self.answer(self.instant);
        self.note(Ok(MemCall::InstantRead(answer)));
        answer
    }

    fn sleep(&mut self, pause: Duration) {
        self.note(Ok(MemCall::Waited(pause)));
    }
}
