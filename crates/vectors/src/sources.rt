// Sources for tests: they come in pieces, and end, fail or never end.
ghost use Rattle.std.specs.Prelude.{◌≡◌, ◌++◌, None, Some};
ghost use Rattle.vectors.specs.declared.sources.Then.TheVariants.{Ends, Fails, GoesOn};

use maildir_run::RunFault;
use std::io;
use std::io::{ErrorKind, Read};

/// No test makes this many reads.
pub(crate) const LIMIT: u64 = 1_099_511_627_776;

/// How a source goes on after its bytes.
#[derive(Clone, Copy)]
pub(crate) enum Then {
    Ends,
    Fails,
    GoesOn,
}

/// A source that gives its bytes in pieces of at most a size. If it fails after them, the text is
/// its bytes and then what is lost.
#[derive(Drop)]
pub(crate) struct Cut<'a> {
    pub bytes: &'a [u8],
    pub lost: &'a [u8],
    pub piece: usize,
    pub then: Then,
    pub reads: u64,
}

impl<'a> Cut<'a> {
    pub(crate) fn new(bytes: &'a [u8], piece: usize, then: Then) -> Cut<'a> {
        Cut {
            bytes,
            lost: &[],
            piece,
            then,
            reads: 0,
        }
    }

    /// A source that gives a text in pieces of this size, and ends.
    pub(crate) fn pieces(text: &'a [u8], piece: usize) -> Cut<'a> {
        Cut::new(text, piece, Then::Ends)
    }

    /// A source that fails after this many bytes of a text, or at the end of the text.
    pub(crate) fn broken(text: &'a [u8], bytes: usize, piece: usize) -> Cut<'a>
        ensures fails { result.then ≡ Fails }
        ensures text { result.bytes.now ++ result.lost.now ≡ text.now }
    {
        let (bytes, lost) = text.split_at(bytes.min(text.len()));
        Cut {
            bytes,
            lost,
            piece,
            then: Then::Fails,
            reads: 0,
        }
    }
}

// It tells what it has to give and what is lost, unless it has no end.
impl Read for Cut<'_> {
    ghost remaining = { λ cut. elim cut.then [
      | Ends ↦ Some cut.bytes.now
      | Fails ↦ Some (cut.bytes.now ++ cut.lost.now)
      | GoesOn ↦ None
    ] };

    fn read(&mut self, buf: &mut [u8]) -> io::Result<usize> {
        self.reads = self.reads.saturating_add(1);
        let n = self.piece.max(1).min(buf.len()).min(self.bytes.len());
        let (prefix, rest) = self.bytes.split_at(n);
        buf[..n].copy_from_slice(prefix);
        self.bytes = rest;
        if n > 0 {
            return Ok(n);
        }
        match self.then {
            Then::Ends => Ok(0),
            Then::Fails => Err(io::Error::from(ErrorKind::Other)),
            Then::GoesOn => {
                let more = self.piece.min(buf.len());
                for byte in &mut buf[..more] {
                    *byte = b'a';
                }
                Ok(more)
            }
        }
    }
}

/// A source, in pieces of a size, that has a fault before a message of it is complete.
pub(crate) type Faulty<'a> = (&'a str, usize, Then);

/// Sources with a fault: how many reads may be made, the fault, and how many reads are made.
pub(crate) const FAULTY: &[(Faulty<'_>, u64, RunFault, u64)] = &[
    (("", 1, Then::Ends), 0, RunFault::TooManyReads, 0),
    (("From x\n", 1, Then::Ends), 0, RunFault::TooManyReads, 0),
    (("From x\nabc", 1, Then::Ends), 3, RunFault::TooManyReads, 3),
    (
        ("From x\nabc", 1, Then::Ends),
        10,
        RunFault::TooManyReads,
        10,
    ),
    (("From x\nabc", 1, Then::Fails), 99, RunFault::ReadFault, 11),
    (
        ("From x\n", 1, Then::GoesOn),
        12,
        RunFault::TooManyReads,
        12,
    ),
    (
        ("From x\n", 65_536, Then::GoesOn),
        5,
        RunFault::TooManyReads,
        5,
    ),
    (("X", 1, Then::GoesOn), 99, RunFault::NoFromLine, 1),
    (("Fro", 1, Then::Ends), 3, RunFault::TooManyReads, 3),
    (("Fro", 1, Then::Ends), 4, RunFault::NoFromLine, 4),
    (("Subject: x\n", 1, Then::Ends), 99, RunFault::NoFromLine, 1),
    (("\nFrom a\n", 1, Then::Ends), 99, RunFault::NoFromLine, 1),
];
