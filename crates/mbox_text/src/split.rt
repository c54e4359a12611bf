// Splitting a text that is in memory as a whole.
ghost use Rattle.std.specs.Prelude.{◌≡◌, ◌↔◌, ◌⊎◌, IfOk, IfErr, IsErrOf};
ghost use Rattle.mbox_text.specs.Mbox.{Mbox, IsMboxText, IsUnreadable};

use crate::entry::Entry;
use crate::fault::TextFault;
use crate::from_line::begins_with_from;
use crate::splitter::Splitter;
use std::alloc::Global;

/// The messages of a whole text, in order (mbox(5)): each From_ line begins one, and no blank line
/// is needed before it.
///
/// Errors: `NoFromLine` exactly if the text is not empty and doesn't begin with `From ` (this
/// project's own rule), before any allocation; else `OutOfMemory` if an allocation failed.
pub fn split_all(alloc: Global, text: &[u8]) -> Result<Vec<Entry>, TextFault>
    ensures entries { IfOk result (λ entries. Mbox text.now entries.items) }
    ensures no_from_line { IsErrOf result TextFault.NoFromLine ↔ ¬ IsMboxText text.now }
    ensures unreadable { IsErrOf result TextFault.NoFromLine → IsUnreadable text.now }
    ensures causes { IfErr result
        (λ fault. (fault ≡ TextFault.NoFromLine) ⊎ (fault ≡ TextFault.OutOfMemory)) }
{
    if !text.is_empty() && !begins_with_from(text) {
        return Err(TextFault::NoFromLine);
    }
    let mut splitter = Splitter::new(alloc);
    let mut entries = Vec::new(alloc);
    splitter.feed(text, &mut entries)?;
    if let Some(last) = splitter.finish()? {
        entries.push(last)?;
    }
    Ok(entries)
}
