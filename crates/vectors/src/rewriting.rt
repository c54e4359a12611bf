// Texts in their regular spelling whose source fails.
ghost use Rattle.std.specs.Prelude.{List, OnErr, Some};
ghost use Rattle.std.specs.List.{flat_map};
ghost use Rattle.mbox_text.specs.declared.entry.Entry.{Entry};
ghost use Rattle.mbox_text.specs.Mbox.{Mbox};
ghost use Rattle.mbox_text.specs.Spelling.{spelling};
ghost use Rattle.mbox_text.specs.Writing.{AppendsPrefix};

use crate::rows::{Shown, same};
use crate::sources::{Cut, LIMIT};
use crate::texts::TWO_LINES;
use maildir_run::{RunFault, rewrite};
use std::alloc::Global;
use std::test::Fail;

// Writes a text whose source fails after this many bytes. The text, with what is lost of it,
// is possible for what was read, so what is written is a prefix of the output for all of it.
fn rewrite_broken(
    alloc: Global,
    text: &[u8],
    bytes: usize,
    piece: usize,
    out: &mut Vec<u8>,
) -> Result<u64, RunFault>
    ensures { OnErr result ((entries : List Entry) → Mbox text.now entries →
        AppendsPrefix (Some out.old.items) (Some out.new.items) (flat_map spelling entries)) }
{
    let mut source = Cut::broken(text, bytes, piece);
    rewrite(alloc, &mut source, out, LIMIT)
}

#[test]
fn source_fails(rt: HostRuntime) -> Result<(), Fail> {
    for piece in [1, 65_536] {
        let mut out = Vec::new(rt.alloc());
        let answer = rewrite_broken(rt.alloc(), TWO_LINES, 22, piece, &mut out);
        let wanted: &[u8] = b"From x\nabc\n\n";
        same(
            &piece,
            &(answer, Shown(&out)),
            &(Err(RunFault::ReadFault), Shown(wanted)),
        )?;
    }
    Ok(())
}
