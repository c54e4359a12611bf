//! Laws over the contracts of the program alone. Each function's contract is a law; its body is
//! empty.
ghost use Rattle.std.specs.Prelude.{◌≡◌, ℕ, List, [], ◌∷◌, All, AllPairs, Contains, IsTrue};
ghost use Rattle.maildir_name.specs.Names.{is_converter_name};
ghost use Rattle.maildir_run.specs.Files.{AreFewer, Spared};
ghost use Rattle.maildir_run.specs.Several.{Text};
ghost use Rattle.maildir_run.specs.Touched.{FileName};
ghost use Rattle.maildir_commands.specs.Machines.{AreFit, FitTogether, HasItsMessages};
ghost use Rattle.maildir_commands.specs.Machines.{IsSoundFor, OthersStay};
ghost use Rattle.maildir_commands.specs.Episodes.{Cut, Episode, IsHistory, LeftByPowerCut};
ghost use Rattle.maildir_commands.specs.Promise.{AnyCommands, IsNewTo, OncePromised, Promised};
ghost use Rattle.maildir_commands.specs.Program.{RanOn};
ghost use Rattle.maildir_commands.specs.Promise.{all_whole};
ghost use Rattle.maildir_commands.specs.Seen.{Streams};
ghost use Rattle.maildir_commands.specs.Words.{convert_words};

use crate::machine::Machine;

/// What is left after any commands that follow one another, with any words and any statuses, with
/// other programs and power cuts between them. A command that was killed counts as one with status
/// 1 whose calls failed from some moment on. A Maildir that is sound for the texts stays sound for
/// all of them, so that the same words may be given again; a Maildir that has none of their
/// messages is sound for them. Once a command that was to deliver some of the texts has ended with
/// status 0, each message of these texts is in exactly one file of `new` or `cur`, with exactly its
/// bytes, and stays so through all that follows. Right after that command `tmp` has no converter's
/// name with such a base. If a command ended with a fault, each of its texts whose line it had
/// begun to print is there in the same way. What is in its file between two episodes stays there as
/// long as the power is not cut, whatever the statuses are. All of this is said of the messages
/// whose bases other programs spare, whatever they do to all others.
pub fn after_any_commands<M: Machine>()
    ensures begins { (spared : Spared) (path : List ℕ) (texts : List Text) (old : M) →
        IsNewTo spared texts ((M.at old).maildir_at path) →
        IsSoundFor spared texts ((M.at old).maildir_at path) }
    ensures promised { (spared : Spared) (path : List ℕ) (texts : List Text)
        (episodes : List Episode) (old new : M) →
        AnyCommands spared M.at path texts episodes old new →
        Promised spared texts episodes ((M.at new).maildir_at path) }
    ensures kept { (spared : Spared) (path : List ℕ) (texts : List Text)
        (earlier later : List Episode) (old mid new : M) →
        AnyCommands spared M.at path texts earlier old mid →
        IsHistory spared M.at path texts later mid new → ¬ Contains later Cut →
        OthersStay spared texts ((M.at mid).maildir_at path) ((M.at new).maildir_at path) }
{}

/// What is left of one text after any commands, if it is the only one that goes into a Maildir, the
/// Maildir was new to it, other programs only move and flag its messages, and a power cut keeps or
/// loses each rename as one change. Nothing is lost, doubled or cut short: each message is missing,
/// or in exactly one file with exactly its bytes. Once a conversion whose words name this text once
/// has ended with status 0, or has printed anything, each message is in exactly one file, and so it
/// is after any power cut.
pub fn after_commands_over_one_text<M: Machine>()
    ensures { (path : List ℕ) (text : Text) (episodes : List Episode) (old new : M) →
        (M.at old).honest all_whole → HasItsMessages text →
        IsNewTo all_whole (text ∷ []) ((M.at old).maildir_at path) →
        IsHistory all_whole M.at path (text ∷ []) episodes old new →
        OncePromised text episodes ((M.at new).maildir_at path) }
{}

/// Texts fit into one Maildir if of each two of them one is the other with mail appended, or
/// different messages of them have different digests. So a mailbox that grew between two commands
/// fits with what it was, whatever SHA-256 does.
pub fn texts_fit()
    ensures { (texts : List Text) → All HasItsMessages texts →
        AllPairs FitTogether texts →
        AreFit texts }
{}

/// If no file of the Maildir into which a command converts had been touched as the command began,
/// each file that is touched as it ends has a converter's name. This says nothing of a machine in
/// which everything counts as touched from the start.
pub fn only_own_files_are_touched<M: Machine>()
    ensures { (spared : Spared) (words : List (List ℕ)) (path : List ℕ) (files : List (List ℕ))
        (status : ℕ) (old new : M) (was is : Streams) →
        (M.at old).honest spared → words ≡ convert_words path files →
        RanOn M.at words status old new was is →
        ((file : FileName) → ¬ ((M.at old).maildir_at path).touched file) →
        (file : FileName) → ((M.at new).maildir_at path).touched file →
        IsTrue (is_converter_name file.name) }
{}

/// A power cut or a history in which more messages are spared is also one in which fewer are
/// spared, if both sets say the same of renames in a cut. So the promise on any commands holds for
/// each set of messages that stayed spared, whatever was done to all others.
pub fn histories_spare_fewer<M: Machine>()
    ensures cut { (fewer more : Spared) (path : List ℕ) (old new : M) → AreFewer fewer more →
        (IsTrue more.whole → IsTrue fewer.whole) →
        LeftByPowerCut more ((M.at old).maildir_at path) ((M.at new).maildir_at path) →
        LeftByPowerCut fewer ((M.at old).maildir_at path) ((M.at new).maildir_at path) }
    ensures history { (fewer more : Spared) (path : List ℕ) (texts : List Text)
        (episodes : List Episode) (old new : M) → AreFewer fewer more →
        (IsTrue more.whole → IsTrue fewer.whole) →
        (M.at old).honest more →
        IsHistory more M.at path texts episodes old new →
        IsHistory fewer M.at path texts episodes old new }
{}
