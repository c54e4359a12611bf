//! Laws that follow from what is assumed of a system alone.
ghost use Rattle.std.specs.Prelude.{ℕ, ◌≤◌};
ghost use Rattle.maildir_disk.specs.Stamps.{IsFarAhead, IsSettled};
ghost use Rattle.maildir_disk.specs.Misread.{Misread};

/// No shorter wait will do: if a folder's stamp has not settled when a listing begins, and is not
/// far ahead when it has ended, the listing may be wrong though the stamp is the same before and
/// after it.
pub fn no_shorter_wait()
    ensures { (now later stamp : ℕ) → now ≤ later → ¬ IsSettled stamp now →
        ¬ IsFarAhead stamp later → Misread now later stamp }
{}
