// From_ lines: the lines that begin a message.
ghost use Rattle.std.specs.Prelude.{◌≡◌, ◌↔◌, IsTrue};
ghost use Rattle.mbox_text.specs.FromLine.{IsFromLine};
ghost use Rattle.mbox_text.specs.Lines.{NoEnd};
ghost use Rattle.mbox_text.specs.Quoting.{begins_from, begins_with, from_bytes};

use memchr::memchr;

/// Whether the bytes are a From_ line without its `\n`: they begin with `From ` and hold no `\n`
/// (mbox(5)).
pub fn is_from_line(line: &[u8]) -> bool
    ensures { IsTrue result ↔ IsFromLine line.now }
{
    begins_with_from(line) && holds_no_end(line)
}

// Whether the bytes hold no `\n`.
fn holds_no_end(line: &[u8]) -> bool
    ensures { IsTrue result ↔ NoEnd line.now }
{
    memchr(b'\n', line).is_none()
}

/// Whether the bytes begin with `From `.
pub(crate) fn begins_with_from(line: &[u8]) -> bool
    ensures { result ≡ begins_from line.now }
{
    line.starts_with(b"From ")
}

/// Whether the bytes are a prefix of `From `, so that the rest of it may follow.
pub(crate) fn is_from_start(line: &[u8]) -> bool
    ensures { result ≡ begins_with line.now from_bytes }
{
    b"From ".starts_with(line)
}
