// The row of a message in the table of a text.
ghost use Rattle.std.specs.Prelude.{◌≡◌, ◌++◌, [], ◌∷◌, IfOk, OnOk, string_bytes};
ghost use Rattle.std.specs.Fmt.{decimal};
ghost use Rattle.mbox_text.specs.FromLine.{IsFromLine};
ghost use Rattle.maildir_run.specs.Folders.{folder_name, folder_of_place};
ghost use Rattle.maildir_run.specs.Table.{info, message_row, shown_byte, shown_sender};

use crate::folder::Sub;
use maildir_name::Target;
use mbox_text::{Entry, sender_of};
use std::alloc::{AllocError, Global};

/// The row of a message: its index, base, place, info (or `-`), size in bytes and sender, with one
/// space between two of them and a `\n` at the end (this project's own rule).
pub(crate) fn row_of(
    alloc: Global,
    index: u64,
    entry: &Entry,
    target: &Target,
) -> Result<Vec<u8>, AllocError>
    requires { IsFromLine entry.now.from_line }
    ensures { IfOk result (λ row. row.items ≡ message_row index entry.now target.now) }
{
    let prefix = prefix_of(alloc, index, target, entry.body.as_slice().len())?;
    let mut row = Vec::from_slice(alloc, prefix.as_bytes())?;
    add_sender(&mut row, sender_of(entry.from_line.as_slice()))?;
    row.push(b'\n')?;
    Ok(row)
}

// The row up to the sender.
fn prefix_of(alloc: Global, index: u64, target: &Target, size: usize) -> Result<String, AllocError>
    ensures { let place = folder_name (folder_of_place target.now.place) in
        IfOk result (λ prefix. string_bytes prefix ≡ decimal index ++ 32 ∷
        (target.now.base ++ 32 ∷ (place
        ++ 32 ∷ (info target.now.name ++ 32 ∷ (decimal size ++ 32 ∷ []))))) }
{
    let base = target.base.as_str();
    let place = Sub::of_place(target.place).name();
    let info = info_of(target.name.as_str());
    format!(in alloc; "{index} {base} {place} {info} {size} ")
}

// What follows the first colon of a name, or a hyphen.
fn info_of(name: &str) -> &str
    ensures { result.now ≡ info name.now }
{
    match name.split_once(':') {
        Some((_, info)) => info,
        None => "-",
    }
}

// Appends a sender, with `?` for each byte that is no visible ASCII character, or a hyphen for
// none.
fn add_sender(line: &mut Vec<u8>, sender: &[u8]) -> Result<(), AllocError>
    ensures { OnOk result (line.new.items ≡ line.old.items ++ shown_sender sender.now) }
{
    if sender.is_empty() {
        line.push(b'-')?;
        return Ok(());
    }
    for byte in sender {
        line.push(show_byte(*byte))?;
    }
    Ok(())
}

// A byte of a sender as it is shown.
fn show_byte(byte: u8) -> u8
    ensures { result ≡ shown_byte byte }
{
    if 0x21 <= byte && byte <= 0x7e {
        byte
    } else {
        b'?'
    }
}
