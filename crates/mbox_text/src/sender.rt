// The sender of a From_ line, and the rest after it.
ghost use Rattle.std.specs.Prelude.{◌≡◌, ◌≤◌, drop, length, take};
ghost use Rattle.mbox_text.specs.FromLine.{IsFromLine, before_space, past_spaces, rest, sender};

use memchr::memchr;

/// The sender of a From_ line: what follows `From `, up to the next space or the line's end (this
/// project's own rule). It may be empty. Allocates nothing.
pub fn sender_of(from_line: &[u8]) -> &[u8]
    requires { IsFromLine from_line.now }
    ensures { result.now ≡ sender from_line.now }
{
    let after = after_from(from_line);
    &after[..first_space(after)]
}

/// The rest of a From_ line: what follows the sender and all spaces directly after it (this
/// project's own rule). It is not parsed: in most texts it is a date. Allocates nothing.
pub fn rest_of(from_line: &[u8]) -> &[u8]
    requires { IsFromLine from_line.now }
    ensures { result.now ≡ rest from_line.now }
{
    let after = after_from(from_line);
    without_spaces(&after[first_space(after)..])
}

// What follows `From `.
fn after_from(from_line: &[u8]) -> &[u8]
    requires { 5 ≤ length from_line.now }
    ensures { result.now ≡ drop 5 from_line.now }
{
    &from_line[5..]
}

// The index of the first space, or the length if there is none.
fn first_space(bytes: &[u8]) -> usize
    ensures within { result ≤ length bytes.now }
    ensures before { take result bytes.now ≡ before_space bytes.now }
{
    match memchr(b' ', bytes) {
        Some(at) => at,
        None => bytes.len(),
    }
}

// The bytes without their leading spaces.
fn without_spaces(bytes: &[u8]) -> &[u8]
    ensures { result.now ≡ past_spaces bytes.now }
{
    let mut at = 0;
    while at < bytes.len() && bytes[at] == b' ' {
        at += 1;
    }
    &bytes[at..]
}
