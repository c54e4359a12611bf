// Writing a message in its regular spelling.
ghost use Rattle.std.specs.Prelude.{◌≡◌, [], ◌∷◌, IfErr, IsOk};
ghost use Rattle.std.specs.List.{flat_map};
ghost use Rattle.mbox_text.specs.Lines.{lines};
ghost use Rattle.mbox_text.specs.Quoting.{quoted};
ghost use Rattle.mbox_text.specs.Spelling.{missing_end, spelling};
ghost use Rattle.mbox_text.specs.Writing.{Writes};

use crate::entry::Entry;
use crate::fault::TextFault;
use crate::lines::line_len;
use crate::quoting::find_quotable;
use std::io::{ErrorKind, Write};

/// Writes the message in its regular spelling (mbox(5)): the From_ line and `\n`; the body, with
/// one `>` more before each line that is zero or more `>` and then `From `; the `\n` that the body
/// lacks at its end; and a blank line. Allocates nothing.
///
/// Errors: `WriteFault` if the writer failed, or took no byte though some were offered; it has
/// taken a prefix of the spelling.
pub fn write_entry<W: Write>(entry: &Entry, out: &mut W) -> Result<(), TextFault>
    ensures written { Writes (W.contents out.old) (W.contents out.new) result (spelling entry.now) }
    ensures causes { IfErr result (λ fault. fault ≡ TextFault.WriteFault) }
{
    write_bytes(entry.from_line.as_slice(), out)?;
    write_bytes(b"\n", out)?;
    write_body(entry.body.as_slice(), out)?;
    write_bytes(missing_end(entry.body.as_slice()), out)?;
    write_bytes(b"\n", out)
}

/// Writes the bytes as they stand.
///
/// Errors: `WriteFault` if the writer failed, or took no byte though some were offered; it has
/// taken a prefix of the bytes. An interrupted write is retried.
pub fn write_bytes<W: Write>(bytes: &[u8], out: &mut W) -> Result<(), TextFault>
    ensures written { Writes (W.contents out.old) (W.contents out.new) result bytes.now }
    ensures causes { IfErr result (λ fault. fault ≡ TextFault.WriteFault) }
    ensures empty { bytes.now ≡ [] → IsOk result }
{
    if bytes.is_empty() {
        return Ok(());
    }
    let mut at = 0;
    'writes: for _ in 0..u64::MAX {
        if at >= bytes.len() {
            return Ok(());
        }
        match out.write(&bytes[at..]) {
            Ok(0) => return Err(TextFault::WriteFault),
            Ok(n) => at += n,
            Err(error) => {
                if error.kind() != ErrorKind::Interrupted {
                    return Err(TextFault::WriteFault);
                }
            }
        }
    }
    Err(TextFault::WriteFault)
}

// Writes the lines of a body, quoted.
fn write_body<W: Write>(body: &[u8], out: &mut W) -> Result<(), TextFault>
    ensures written { Writes (W.contents out.old) (W.contents out.new) result
        (flat_map quoted (lines body.now)) }
    ensures causes { IfErr result (λ fault. fault ≡ TextFault.WriteFault) }
{
    let mut at = 0;
    while let Some(n) = find_quotable(&body[at..]) {
        write_bytes(&body[at..at + n], out)?;
        at += n;
        let len = line_len(&body[at..]);
        write_quoted(&body[at..at + len], out)?;
        at += len;
    }
    write_bytes(&body[at..], out)
}

// Writes `>` and a line.
fn write_quoted<W: Write>(line: &[u8], out: &mut W) -> Result<(), TextFault>
    ensures written { Writes (W.contents out.old) (W.contents out.new) result (62 ∷ line.now) }
    ensures causes { IfErr result (λ fault. fault ≡ TextFault.WriteFault) }
{
    write_bytes(b">", out)?;
    write_bytes(line, out)
}

// The `\n` that a body lacks at its end.
fn missing_end(body: &[u8]) -> &'static [u8]
    ensures { result.now ≡ missing_end body.now }
{
    if body.is_empty() || body[body.len() - 1] == b'\n' {
        return b"";
    }
    b"\n"
}
