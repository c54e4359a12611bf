//! Laws over the definitions alone. Each function's contract is a law; its body is empty.
ghost use Rattle.std.specs.Prelude.{◌≡◌, ◌↔◌, ℕ, map, ◌<◌, ◌≤◌, ◌+◌, ◌-◌, ◌%◌, ◌^◌, length, List, [], ◌∷◌, ◌++◌};
ghost use Rattle.std.specs.Prelude.{Some, Ok, Result, All, Contains, IsTrue, IsFalse, IsPermutation};
ghost use Rattle.std.specs.List.{list_any};
ghost use Rattle.std.specs.FinMap.{get};
ghost use Rattle.maildir_name.specs.declared.target.Place.{Place};
ghost use Rattle.maildir_name.specs.declared.target.Target.{Target};
ghost use Rattle.maildir_run.specs.declared.folder.Sub.{Sub};
ghost use Rattle.maildir_run.specs.declared.folder.Sub.TheVariants as sub;
ghost use Rattle.maildir_run.specs.declared.fault.RunFault.{RunFault};
ghost use Rattle.maildir_run.specs.declared.report.Report.{Report};
ghost use Rattle.maildir_run.specs.MemFiles.{without_file};
ghost use Rattle.maildir_run.specs.Cuts.{Leaves};
ghost use Rattle.maildir_run.specs.Files.{AreFewer, Spared, SparesAll, all_bases, is_spared, is_spared_name};
ghost use Rattle.maildir_run.specs.Files.{Files, Action, KeepsSpared, acted, all_acted, homes, has_base};
ghost use Rattle.maildir_run.specs.Files.Action.{Outside};
ghost use Rattle.maildir_run.specs.Calls.{Call, Move, after, Lists, Succeeded, PlacesElsewhere, WritesElsewhere};
ghost use Rattle.maildir_run.specs.Calls.{StaysOrGoes, NoneOrOne};
ghost use Rattle.maildir_run.specs.Calls.Call.{Placing};
ghost use Rattle.maildir_run.specs.Delivery.{has_home, leftover_count, there_count, Message, IsMissing, IsHome};
ghost use Rattle.maildir_run.specs.Delivery.{IsSoundAt, IsSpared, AllSpared, AreNamed, AreDistinct, Sound};
ghost use Rattle.maildir_run.specs.Delivery.{Delivered};
ghost use Rattle.maildir_run.specs.Texts.{MessagesOf};
ghost use Rattle.maildir_run.specs.Runs.{CountsRun, Link, IsRun, ReportsMessages, Runs};
ghost use Rattle.maildir_run.specs.Several.{Text, IsText, OfEach, SoundForAll, LinkOver, RunsOver};
ghost use Rattle.maildir_run.specs.Several.{link_over, link_of, AreFresh, StandsAfter};
ghost use Rattle.maildir_run.specs.Several.LinkOver.{RanOver};
ghost use Rattle.maildir_run.specs.Alone.{alone};
ghost use Rattle.maildir_run.specs.Plan.{is_listed, planned, each_alone};
ghost use Rattle.maildir_run.specs.Tasks.{Listings, planned_tasks, listing_tasks};
ghost use Rattle.maildir_run.specs.Parts.{sweep_of, deliveries_of};

/// The plan for some targets is the plan for none, followed by the steps of each target alone over
/// an empty `tmp`.
pub fn plan_is_each_alone()
    ensures { (tmp new cur : List (List ℕ)) (targets : List Target) →
        planned tmp new cur targets ≡ planned tmp new cur [] ++ each_alone 0 new cur targets }
{}

/// The calls that a run makes for some messages, one after the other, are those of the plan for all
/// of them: the listings, and then the steps that `plan` answers for what they listed and the
/// messages' targets.
pub fn runs_are_planned()
    ensures { (names : Listings) (ms : List Message) → planned_tasks names ms
        ≡ listing_tasks names ++
        (sweep_of names.tmp ++ deliveries_of (is_listed names.new names.cur) ms) }
{}

/// A base that is spared keeps what its homes hold, whatever another program does, and within each
/// call that places no file under it: a listing, a write, a removal, and a placement under another
/// base.
pub fn homes_are_kept()
    ensures acted { (spared : Spared) (b : List ℕ) (action : Action) (s : Files) →
        IsTrue (is_spared spared b) →
        IsPermutation (homes s b) (homes (acted spared action s) b) }
    ensures moved { (spared : Spared) (b : List ℕ) (call : Call) (moves : List Move) (s : Files) →
        IsTrue (is_spared spared b) → PlacesElsewhere b call →
        IsPermutation (homes s b) (homes (after spared s call moves) b) }
{}

/// An outside action leaves all names that are spared, and their bytes, as they are. Each state
/// that leaves them so is reached by one: the deletion of a file whose name is not spared is an
/// example. If fewer bases are spared, other programs may do all that they may do if more are.
pub fn outside_actions()
    ensures leaves { (spared : Spared) (files s : Files) →
        KeepsSpared spared s (acted spared (Outside files) s) }
    ensures reaches { (spared : Spared) (s t : Files) → KeepsSpared spared s t →
        acted spared (Outside t) s ≡ t }
    ensures deletes { (spared : Spared) (folder : Sub) (name : List ℕ) (s : Files) →
        IsFalse (is_spared_name spared name) →
        acted spared (Outside (without_file folder name s)) s ≡ without_file folder name s }
    ensures fewer { (more fewer : Spared) (action : Action) (s : Files) →
        ((b : List ℕ) → IsTrue (fewer.bases b) → IsTrue (more.bases b)) →
        (other : Action) × (acted fewer other s ≡ acted more action s) }
{}

/// What holds where more bases are spared holds where fewer are: of what other programs do, of what
/// a power cut leaves of a call, and of a run over a folder that was sound for all messages of
/// more.
pub fn fewer_are_spared()
    ensures acted { (fewer more : Spared) (actions : List Action) (s : Files) →
        AreFewer fewer more →
        (others : List Action) × (all_acted fewer others s ≡ all_acted more actions s) }
    ensures left { (fewer more : Spared) (call : Call) (before now : Files) →
        AreFewer fewer more → Leaves more call before now → Leaves fewer call before now }
    ensures run { (fewer more : Spared) (t : List ℕ) (answer : Result Report RunFault)
        (old new : Files) →
        AreFewer fewer more →
        ((ms : List Message) → MessagesOf t ms → AllSpared more (IsSoundAt old) ms) →
        IsRun more t old answer new → IsRun fewer t old answer new }
{}

/// A placement of a spared name under a spared base without a home leaves no home, or one that
/// holds what `tmp` had under the name. With Ok it leaves one.
pub fn place_delivers_one()
    ensures any { (spared : Spared) (b name target : List ℕ) (place : Place) (moves : List Move)
        (s : Files) →
        IsTrue (is_spared spared b) → IsTrue (is_spared_name spared name) →
        IsTrue (has_base b target) → homes s b ≡ [] →
        NoneOrOne b (get s.tmp name) (after spared s (Placing name place target) moves) }
    ensures ok { (spared : Spared) (b name target : List ℕ) (place : Place) (old new : Files) →
        IsTrue (is_spared spared b) → IsTrue (is_spared_name spared name) →
        IsTrue (has_base b target) → homes old b ≡ [] →
        Succeeded spared (Placing name place target) old new →
        (bytes : List ℕ) × (get old.tmp name ≡ Some bytes) × (homes new b ≡ bytes ∷ []) }
{}

/// Only a write adds a spared name to `tmp`, or changes what that holds there; and it does so only
/// to its own name.
pub fn only_write_adds()
    ensures { (spared : Spared) (name : List ℕ) (call : Call) (moves : List Move) (s : Files) →
        IsTrue (is_spared_name spared name) → WritesElsewhere name call →
        StaysOrGoes name s (after spared s call moves) }
{}

/// If every converter's base is spared, no action of another program adds a converter's name to
/// `tmp`.
pub fn leftovers_never_grow()
    ensures { (spared : Spared) (action : Action) (s : Files) → SparesAll spared →
        leftover_count (acted spared action s) ≤ leftover_count s }
{}

/// A spared base that is neither in a listing of `new` nor in a later one of `cur` has no home,
/// whatever other programs did.
pub fn listed_nowhere()
    ensures { (spared : Spared) (b : List ℕ) (s t u v : Files) (in_new in_cur : List (List ℕ))
        (actions : List Action) →
        IsTrue (is_spared spared b) → Lists spared sub.New s in_new t →
        u ≡ all_acted spared actions t →
        Lists spared sub.Cur u in_cur v → IsFalse (list_any (has_base b) in_new) →
        IsFalse (list_any (has_base b) in_cur) → homes v b ≡ [] }
{}

/// The bases of a text's messages are a converter's, and no two messages have the same base.
pub fn messages_have_bases()
    ensures named { (t : List ℕ) (ms : List Message) → MessagesOf t ms → length t < 2 ^ 63 →
        AreNamed ms }
    ensures distinct { (t : List ℕ) (ms : List Message) → MessagesOf t ms → length t < 2 ^ 63 →
        AreDistinct ms }
{}

/// What is left after any chain of runs over a text, with any answers, and of other programs'
/// actions. A folder that had none of the text's spared messages is sound for these. One more run
/// that answers Ok delivers them, and no other program undoes that, whatever it does to all other
/// messages.
pub fn after_any_runs()
    ensures sound { (spared : Spared) (t : List ℕ) (ms : List Message) (links : List Link)
        (old new : Files) →
        MessagesOf t ms → length t < 2 ^ 63 → AllSpared spared (IsMissing old) ms →
        Runs spared t links old new →
        Sound spared ms old new }
    ensures delivered { (spared : Spared) (t : List ℕ) (ms : List Message) (links : List Link)
        (old mid new : Files) (report : Report) →
        MessagesOf t ms → length t < 2 ^ 63 → AllSpared spared (IsMissing old) ms →
        Runs spared t links old mid →
        IsRun spared t mid (Ok report) new → Delivered spared ms new }
    ensures kept { (spared : Spared) (t : List ℕ) (ms : List Message) (action : Action)
        (s : Files) →
        MessagesOf t ms → length t < 2 ^ 63 → Delivered spared ms s →
        Delivered spared ms (acted spared action s) }
{}

/// What is left after any chain of runs over several texts, with any answers, and of other
/// programs' actions. A folder in which no converter's base had the digest of one of their bodies
/// is sound for all of them, and each body has the numbers 1 to n, and no others. A body is there
/// at least as often as in each text of which a run answered Ok, and at most as often as in one of
/// which a run was made. Each message of a text of which a run answered Ok is at home. The premise
/// is that distinct bodies have distinct digests.
pub fn several_texts()
    ensures sound { (spared : Spared) (texts : List Text) (links : List LinkOver)
        (old new : Files) →
        AreFresh spared texts old → RunsOver spared texts links old new →
        SoundForAll spared texts old new }
    ensures counted { (spared : Spared) (texts : List Text) (links : List LinkOver)
        (old new : Files) →
        AreFresh spared texts old → RunsOver spared texts links old new →
        OfEach (λ m. StandsAfter spared links m.body new) texts }
    ensures whole { (spared : Spared) (texts : List Text) (links : List LinkOver)
        (old new : Files) (text : Text) (report : Report) →
        AreFresh spared texts old → RunsOver spared texts links old new →
        Contains links (RanOver text (Ok report)) →
        AllSpared spared (IsHome new) text.messages }
{}

/// The words for several texts mean, for a list of one text, what the words for one text mean: the
/// same folders are sound, and the same chains lead from one moment to another.
pub fn one_text()
    ensures sound { (spared : Spared) (text : Text) (old new : Files) → IsText text →
        SoundForAll spared (text ∷ []) old new ↔ Sound spared text.messages old new }
    ensures runs { (spared : Spared) (text : Text) (links : List LinkOver) (old new : Files) →
        RunsOver spared (text ∷ []) links old new →
        Runs spared text.bytes (map link_of links) old new }
    ensures runs_over { (spared : Spared) (text : Text) (links : List Link) (old new : Files) →
        Runs spared text.bytes links old new →
        RunsOver spared (text ∷ []) (map (link_over text) links) old new }
{}

/// The set of all bases has each base: each message is spared, and a report is exact.
pub fn all_are_spared()
    ensures each { (b : List ℕ) → IsTrue (all_bases.bases b) }
    ensures all { SparesAll all_bases }
    ensures spared { (ms : List Message) → All (IsSpared all_bases) ms }
    ensures reports { (ms : List Message) (s : Files) (report : Report) →
        ReportsMessages all_bases ms s report →
        let there = there_count (has_home s) ms in
        (report.there ≡ there) × (report.placed ≡ length ms - there) ×
        (report.swept ≤ leftover_count s) }
{}

/// If the messages are delivered, a quiet run changes no file, and a run that answers Ok places
/// nothing, sweeps nothing and makes three calls, the listings.
pub fn nothing_left_to_do()
    ensures same { (ms : List Message) (s : Files) → Delivered all_bases ms s → alone ms s ≡ s }
    ensures three_calls { (t : List ℕ) (ms : List Message) (s new : Files) (report : Report) →
        MessagesOf t ms → Delivered all_bases ms s →
        IsRun all_bases t s (Ok report) new → (before after : ℕ) → CountsRun report before after →
        (report.placed ≡ 0) × (report.swept ≡ 0) × (after % 2 ^ 128 ≡ (before + 3) % 2 ^ 128) }
{}
