//! Laws of the definitions. Each function's contract is a law of all lines, texts and messages; its
//! body is empty.
ghost use Rattle.std.specs.Prelude.{◌≡◌, ℕ, ◌++◌, [], ◌∷◌, ◌↔◌, false, List, map};
ghost use Rattle.std.specs.List.{flat_map};
ghost use Rattle.mbox_text.specs.FromLine.{built, cleaned, past_spaces, rest, sender};
ghost use Rattle.mbox_text.specs.Quoting.{begins_from, quoted, unquoted};
ghost use Rattle.mbox_text.specs.Prefixes.{IsProperPrefix};
ghost use Rattle.mbox_text.specs.Lines.{Ended};
ghost use Rattle.mbox_text.specs.Mbox.{IsMboxText, Mbox};
ghost use Rattle.mbox_text.specs.Spelling.{FromLines, completed, spelling};
ghost use Rattle.mbox_text.specs.declared.entry.Entry.{Entry};

/// Unquoting undoes quoting, and a quoted line begins no message.
pub fn unquote_of_quote()
    ensures read { (line : List ℕ) → unquoted (quoted line) ≡ line }
    ensures inside { (line : List ℕ) → begins_from (quoted line) ≡ false }
{}

/// A text has at most one list of messages, and one exactly if it is empty or begins with `From `.
pub fn one_reading()
    ensures one { (text : List ℕ) (one other : List Entry)
        → Mbox text one → Mbox text other → one ≡ other }
    ensures read { (text : List ℕ)
        → IsMboxText text ↔ ((entries : List Entry) × Mbox text entries) }
{}

/// The parts of a built From_ line are the sender as it is written, and the rest without its
/// leading spaces.
pub fn parts_of_built()
    ensures sender { (from after : List ℕ) → sender (built from after) ≡ cleaned from }
    ensures rest { (from after : List ℕ) → rest (built from after) ≡ past_spaces after }
{}

/// All messages of a text but the last are a proper prefix of the messages of each longer text that
/// begins with it.
pub fn prefix_reading()
    ensures { (text more : List ℕ) (entries given : List Entry) (last : Entry)
        → Mbox text (given ++ last ∷ []) → Mbox (text ++ more) entries
        → IsProperPrefix given entries }
{}

/// The spelling of messages reads as the same messages, with the `\n` that a body lacked at its
/// end. Spelling those gives the same text: rewriting twice is rewriting once.
pub fn spelled_again()
    ensures read { (entries : List Entry) → FromLines entries
        → Mbox (flat_map spelling entries) (map completed entries) }
    ensures same { (entries : List Entry)
        → flat_map spelling (map completed entries) ≡ flat_map spelling entries }
{}

/// Where one text ends with `\n` or is empty, another may be appended: the messages of both, one
/// after the other, are those of the whole. So mailboxes may be joined, and what is appended to one
/// changes no message that was there. What is appended in its regular spelling reads as the same
/// messages, if their bodies are complete.
pub fn joined_texts()
    ensures joined { (one other : List ℕ) (these those : List Entry) → Ended one
        → Mbox one these → Mbox other those → Mbox (one ++ other) (these ++ those) }
    ensures appended { (text : List ℕ) (these those : List Entry) → Ended text → Mbox text these
        → FromLines those → Mbox (text ++ flat_map spelling those) (these ++ map completed those) }
    ensures grown { (text more : List ℕ) (these all : List Entry) → Ended text → Mbox text these
        → IsMboxText more → Mbox (text ++ more) all
        → (rest : List Entry) × (all ≡ these ++ rest) }
{}
