// The quoting of lines that would read as From_ lines.
ghost use Rattle.std.specs.Prelude.{◌≡◌, ◌<◌, length, drop, MatchBool};
ghost use Rattle.mbox_text.specs.Private.Lines.{FindsQuotable};
ghost use Rattle.mbox_text.specs.Quoting.{quotable, unquoted};

use crate::from_line::begins_with_from;
use crate::lines::{line_len, whole_len};
use memchr::memmem::Finder;

/// Whether the bytes begin with zero or more `>` and then `From `: such a line of a body is written
/// with one `>` more (mbox(5)).
pub fn is_quotable(line: &[u8]) -> bool
    ensures { result ≡ quotable line.now }
{
    let mut at = 0;
    while at < line.len() && line[at] == b'>' {
        at += 1;
    }
    begins_with_from(&line[at..])
}

/// Whether a line loses its first byte when it is unquoted.
pub(crate) fn is_quoted(line: &[u8]) -> bool
    ensures { MatchBool result
        ((0 < length line.now) × (unquoted line.now ≡ drop 1 line.now))
        (unquoted line.now ≡ line.now) }
{
    if line.len() == 0 || line[0] != b'>' {
        return false;
    }
    is_quotable(line)
}

/// Where the first quotable line begins, or None if no line is quotable. The time is linear in the
/// bytes up to the end of that line.
pub(crate) fn find_quotable(text: &[u8]) -> Option<usize>
    ensures { FindsQuotable text.now result }
{
    let finder = Finder::new(b"From ");
    let mut at = 0;
    while let Some(n) = finder.find(&text[at..]) {
        let start = at + whole_len(&text[at..at + n]);
        if is_quotable(&text[start..]) {
            return Some(start);
        }
        at = start + line_len(&text[start..]);
    }
    None
}
