// Bodies: unquoted lines, without the blank line that ends the message.
ghost use Rattle.std.specs.Prelude.{◌≡◌, ◌-◌, ◌<◌, ◌≤◌, ◌++◌, ◌⊎◌, [], ◌∷◌, true, length, take};
ghost use Rattle.std.specs.Prelude.{drop, IfOk, OnOk, MatchBool};
ghost use Rattle.std.specs.List.{flat_map};
ghost use Rattle.mbox_text.specs.Lines.{lines, Ended, NoEnd};
ghost use Rattle.mbox_text.specs.Quoting.{begins_from, unquoted};
ghost use Rattle.mbox_text.specs.Mbox.{NoFrom};
ghost use Rattle.mbox_text.specs.Private.Moved.{chopped};

use crate::from_line::begins_with_from;
use crate::lines::whole_len;
use crate::quoting::{find_quotable, is_quoted};
use memchr::memchr;
use std::alloc::AllocError;

/// Appends a line, unquoted, and a `\n`.
pub(crate) fn add_line(body: &mut Vec<u8>, line: &[u8]) -> Result<(), AllocError>
    ensures { OnOk result (body.new.items ≡ (body.old.items ++ unquoted line.now) ++ 10 ∷ []) }
{
    add_unquoted(body, line)?;
    body.push(b'\n')?;
    Ok(())
}

// Whether the last line is `\n` alone.
fn last_is_blank(text: &[u8]) -> bool
    ensures { MatchBool result
        ((0 < length text.now) × (take (length text.now - 1) text.now ≡ chopped text.now))
        (text.now ≡ chopped text.now) }
{
    text == b"\n".as_slice() || text.ends_with(b"\n\n")
}

/// Removes the last line if it is `\n` alone.
pub(crate) fn drop_blank(body: &mut Vec<u8>)
    ensures { body.new.items ≡ chopped body.old.items }
{
    if last_is_blank(body) {
        let n = body.len();
        body.truncate(n - 1);
    }
}

/// Appends a line, unquoted.
pub(crate) fn add_unquoted(body: &mut Vec<u8>, line: &[u8]) -> Result<(), AllocError>
    ensures { OnOk result (body.new.items ≡ body.old.items ++ unquoted line.now) }
{
    if is_quoted(line) {
        body.extend_from_slice(&line[1..])
    } else {
        body.extend_from_slice(line)
    }
}

/// Appends the complete lines of the text up to the first From_ line, unquoted. Returns the index
/// at which that From_ line begins; if there is none, the index after the last `\n`.
pub(crate) fn take_lines(body: &mut Vec<u8>, text: &[u8]) -> Result<usize, AllocError>
    ensures within { IfOk result (λ n. n ≤ length text.now) }
    ensures added { IfOk result
        (λ n. body.new.items ≡ body.old.items ++ flat_map unquoted (lines (take n text.now))) }
    ensures ended { IfOk result (λ n. Ended (take n text.now)) }
    ensures none { IfOk result (λ n. NoFrom (lines (take n text.now))) }
    ensures stops { IfOk result
        (λ n. (begins_from (drop n text.now) ≡ true) ⊎ NoEnd (drop n text.now)) }
{
    let mut at = 0;
    while let Some(n) = find_quotable(&text[at..]) {
        body.extend_from_slice(&text[at..at + n])?;
        at += n;
        let line = &text[at..];
        if begins_with_from(line) {
            return Ok(at);
        }
        match memchr(b'\n', line) {
            Some(end) => {
                add_unquoted(body, &line[..end + 1])?;
                at += end + 1;
            }
            None => return Ok(at),
        }
    }
    let n = whole_len(&text[at..]);
    body.extend_from_slice(&text[at..at + n])?;
    Ok(at + n)
}
