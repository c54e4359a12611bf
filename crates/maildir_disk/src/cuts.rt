//! Laws on power cuts, over the definitions alone. Each function's contract is a law; its body is
//! empty.
ghost use Rattle.std.specs.Prelude.{ℕ, ◌<◌, ◌^◌, List, length, Err, IsTrue, Result};
ghost use Rattle.maildir_run.specs.declared.fault.RunFault.{RunFault};
ghost use Rattle.maildir_run.specs.declared.report.Report.{Report};
ghost use Rattle.maildir_run.specs.Delivery.{AllSpared, Message, AreNamed, IsHome, IsSoundAt};
ghost use Rattle.maildir_run.specs.Files.{Files, Spared};
ghost use Rattle.maildir_run.specs.Runs.{IsRun};
ghost use Rattle.maildir_run.specs.Tasks.{Listings, Performs, leaving, planned_tasks};
ghost use Rattle.maildir_run.specs.Texts.{MessagesOf};
ghost use Rattle.maildir_disk.specs.PowerCuts.{AreAlike, FilesAndLeft, HasBody, IsIntact, IsKilled};
ghost use Rattle.maildir_disk.specs.PowerCuts.{IsSingle, LeavesOneEach, LeftByOthers, Syncs};

/// What a power cut leaves of a run, whatever the run answered, over this text or another that has
/// the same body under each common base. Messages that were intact in what a cut would have left
/// before the run are intact after it. Each message that a cut would have left before the run is
/// left after it.
pub fn left_of_a_run()
    ensures intact { (spared : Spared) (t : List ℕ) (ms others : List Message) (names : Listings)
        (before now : Files)
        (answer : Result Report RunFault) →
        MessagesOf t ms → length t < 2 ^ 63 →
        Performs (leaving spared) (planned_tasks names ms) before answer now → AreNamed others →
        AreAlike others ms → AllSpared spared (IsIntact spared before) others →
        AllSpared spared (IsIntact spared now) others }
    ensures bodies { (spared : Spared) (t : List ℕ) (ms others : List Message) (names : Listings)
        (before now : Files)
        (answer : Result Report RunFault) →
        MessagesOf t ms → length t < 2 ^ 63 →
        Performs (leaving spared) (planned_tasks names ms) before answer now → AreNamed others →
        AreAlike others ms → AllSpared spared (HasBody before) others →
        AllSpared spared (HasBody now) others }
{}

/// A run that was killed, after any of its calls or within one, is a run that ended with a fault,
/// whichever that is. The same is true of what a power cut leaves of it. So all promises on any
/// runs hold for a killed run too.
pub fn killed_runs()
    ensures owes { (spared : Spared) (t : List ℕ) (old new : FilesAndLeft) (fault : RunFault) →
        length t < 2 ^ 63 → IsKilled spared t old new →
        IsRun spared t old.files (Err fault) new.files }
    ensures left { (spared : Spared) (t : List ℕ) (old new : FilesAndLeft) (fault : RunFault)
        (ms : List Message) →
        IsKilled spared t old new → MessagesOf t ms →
        (names : Listings) ×
        Performs {A = Report} (leaving spared) (planned_tasks names ms) old.left (Err fault)
        new.left }
{}

/// What other programs do takes nothing away from what a power cut leaves, and changes no bytes of
/// it.
pub fn left_by_others()
    ensures intact { (spared : Spared) (ms : List Message) (before now : Files) → AreNamed ms →
        LeftByOthers spared before now →
        AllSpared spared (IsIntact spared before) ms → AllSpared spared (IsIntact spared now) ms }
    ensures bodies { (spared : Spared) (ms : List Message) (before now : Files) → AreNamed ms →
        LeftByOthers spared before now →
        AllSpared spared (HasBody before) ms → AllSpared spared (HasBody now) ms }
{}

/// A sync that answered Ok makes the messages at home durable, if a power cut would have left them
/// intact.
pub fn kept_by_a_sync()
    ensures { (spared : Spared) (ms : List Message) (old before new left : Files) → AreNamed ms →
        AllSpared spared (IsHome old) ms →
        AllSpared spared (IsIntact spared before) ms →
        Syncs spared old before new left → AllSpared spared (HasBody left) ms }
{}

/// A power cut that leaves no file under two names leaves a sound folder sound, and each message
/// that is at home and survives in exactly one file.
pub fn one_name_each()
    ensures sound { (spared : Spared) (ms : List Message) (s left : Files) → AreNamed ms →
        AllSpared spared (IsSoundAt s) ms →
        AllSpared spared (IsIntact spared left) ms →
        IsSingle spared s left → AllSpared spared (IsSoundAt left) ms }
    ensures home { (spared : Spared) (ms : List Message) (s left : Files) → AreNamed ms →
        AllSpared spared (IsHome s) ms →
        AllSpared spared (HasBody left) ms →
        LeavesOneEach spared s left → AllSpared spared (IsHome left) ms }
    ensures whole { (spared : Spared) (ms : List Message) (left : Files) → IsTrue spared.whole →
        AllSpared spared (IsIntact spared left) ms →
        AllSpared spared (HasBody left) ms → AllSpared spared (IsHome left) ms }
{}
