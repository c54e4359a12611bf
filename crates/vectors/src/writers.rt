// Writers for tests: they take so much, and then fail or take none.
use std::alloc::Global;
use std::io;
use std::io::{ErrorKind, Write};

/// A writer that takes this many bytes, in pieces of at most a size, and then fails or takes none.
#[derive(Drop)]
pub(crate) struct Narrow {
    pub taken: Vec<u8>,
    pub room: usize,
    pub piece: usize,
    pub fails: bool,
}

impl Narrow {
    pub(crate) fn new(alloc: Global, room: usize, piece: usize, fails: bool) -> Narrow {
        Narrow {
            taken: Vec::new(alloc),
            room,
            piece,
            fails,
        }
    }
}

impl Write for Narrow {
    fn write(&mut self, buf: &[u8]) -> io::Result<usize> {
        let n = self.room.min(self.piece).min(buf.len());
        if n == 0 && self.fails {
            return Err(io::Error::from(ErrorKind::StorageFull));
        }
        self.taken.extend_from_slice(&buf[..n])?;
        self.room -= n;
        Ok(n)
    }

    fn flush(&mut self) -> io::Result<()> {
        Ok(())
    }
}

/// Writers that do not take `From x\nabc\n\n` whole: how much they take in all and at a time,
/// whether they fail then, and what they have taken.
pub(crate) const FULL: &[(usize, usize, bool, &[u8])] = &[
    (4, 4, true, b"From"),
    (4, 4, false, b"From"),
    (11, 1, false, b"From x\nabc\n"),
    (100, 0, false, b""),
];
