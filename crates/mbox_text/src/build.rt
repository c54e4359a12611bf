// Building a From_ line.
ghost use Rattle.std.specs.Prelude.{◌≡◌, ◌++◌, ◌⊎◌, ◌↔◌, Contains, IfErr, IfOk, IsErrOf, OnOk};
ghost use Rattle.mbox_text.specs.FromLine.{IsFromLine, built, cleaned, hyphened};

use crate::fault::TextFault;
use memchr::memchr;
use std::alloc::{AllocError, Global};

/// The From_ line of a sender and a rest, without its `\n` (qmail's mbox(5)): `From `, the sender
/// with a hyphen for each space, tab and `\n`, or `MAILER-DAEMON` for an empty one, and, where the
/// rest is not empty, a space and the rest.
///
/// Errors: `LineEndInRest` exactly if the rest holds a `\n`; else `OutOfMemory` if an allocation
/// failed.
pub fn build_from(alloc: Global, sender: &[u8], rest: &[u8]) -> Result<Vec<u8>, TextFault>
    ensures built { IfOk result (λ line. line.items ≡ built sender.now rest.now) }
    ensures from_line { IfOk result (λ line. IsFromLine line.items) }
    ensures line_end_in_rest { IsErrOf result TextFault.LineEndInRest ↔ Contains rest.now 10 }
    ensures causes { IfErr result
        (λ fault. (fault ≡ TextFault.LineEndInRest) ⊎ (fault ≡ TextFault.OutOfMemory)) }
{
    if memchr(b'\n', rest).is_some() {
        return Err(TextFault::LineEndInRest);
    }
    Ok(join(alloc, sender, rest)?)
}

// The From_ line of a sender and a rest that holds no `\n`.
fn join(alloc: Global, sender: &[u8], rest: &[u8]) -> Result<Vec<u8>, AllocError>
    ensures { IfOk result (λ line. line.items ≡ built sender.now rest.now) }
{
    let mut line = Vec::from_slice(alloc, b"From ")?;
    add_cleaned(&mut line, sender)?;
    if !rest.is_empty() {
        line.push(b' ')?;
        line.extend_from_slice(rest)?;
    }
    Ok(line)
}

// Appends the sender as it is written.
fn add_cleaned(line: &mut Vec<u8>, sender: &[u8]) -> Result<(), AllocError>
    ensures { OnOk result (line.new.items ≡ line.old.items ++ cleaned sender.now) }
{
    if sender.is_empty() {
        return line.extend_from_slice(b"MAILER-DAEMON");
    }
    for byte in sender {
        line.push(hyphen_for(*byte))?;
    }
    Ok(())
}

// A byte of a sender as it is written.
fn hyphen_for(byte: u8) -> u8
    ensures { result ≡ hyphened byte }
{
    match byte {
        b' ' | b'\t' | b'\n' => b'-',
        _ => byte,
    }
}
