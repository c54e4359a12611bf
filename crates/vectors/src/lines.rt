// The crate for texts and the crate for names each have their own definition of lines.
ghost use Rattle.std.specs.Prelude.{◌≡◌, ℕ, List};
ghost use Rattle.mbox_text.specs.Lines as messages;
ghost use Rattle.maildir_name.specs.Flags as names;

/// Both mean the same. The function does nothing: its contract is the law, for any text.
pub(crate) fn same_lines()
    ensures { (text : List ℕ) → names.lines text ≡ messages.lines text }
{}
