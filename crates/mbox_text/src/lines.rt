// Where the lines of a text end.
ghost use Rattle.std.specs.Prelude.{◌<◌, ◌≤◌, length, take, drop};
ghost use Rattle.mbox_text.specs.Lines.{Ended, NoEnd};
ghost use Rattle.mbox_text.specs.Private.Lines.{IsLine};

use memchr::{memchr, memrchr};

/// The length of the first line, its `\n` included.
pub(crate) fn line_len(text: &[u8]) -> usize
    requires { 0 < length text.now }
    ensures { IsLine text.now result }
{
    match memchr(b'\n', text) {
        Some(n) => n + 1,
        None => text.len(),
    }
}

/// The length of the text up to and with its last `\n`.
pub(crate) fn whole_len(text: &[u8]) -> usize
    ensures within { result ≤ length text.now }
    ensures ended { Ended (take result text.now) }
    ensures rest { NoEnd (drop result text.now) }
{
    match memrchr(b'\n', text) {
        Some(n) => n + 1,
        None => 0,
    }
}
