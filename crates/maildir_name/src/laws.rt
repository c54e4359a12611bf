//! Laws of targets. Each function's contract is a law of all bodies; its body is empty.
ghost use Rattle.std.specs.Prelude.{◌≡◌, ◌≢◌, ℕ, ◌^◌, ◌≤◌, List, [], ◌∷◌, ◌++◌, length, take};
ghost use Rattle.std.specs.Prelude.{count_by, All, AllPairs};
ghost use Rattle.std.specs.Str.{bytes_eq};
ghost use Rattle.sha2.specs.Sha256.{sha256};
ghost use Rattle.maildir_name.specs.Names.{base, IsConverterBase};
ghost use Rattle.maildir_name.specs.Targets.{target, targets, bases_of, numbered_up_to};

/// No two targets of one text have the same base.
pub fn distinct_bases()
    ensures { (bodies : List (List ℕ)) → length bodies ≤ 2 ^ 63 →
        AllPairs (λ one other. one.base ≢ other.base) (targets bodies) }
{}

/// The base of each target is a converter's base. It is the base of itself and of the target's
/// name.
pub fn named_targets()
    ensures { (bodies : List (List ℕ)) → length bodies ≤ 2 ^ 63 →
        All (λ target. IsConverterBase target.base × (base target.base ≡ target.base) ×
        (base target.name ≡ target.base)) (targets bodies) }
{}

/// The base of a converter's base is that base itself.
pub fn own_bases()
    ensures { (b : List ℕ) → IsConverterBase b → base b ≡ b }
{}

/// There are as many targets as bodies, and one more body adds one target after the others.
pub fn one_more_target()
    ensures as_many { (bodies : List (List ℕ)) → length (targets bodies) ≡ length bodies }
    ensures added { (bodies : List (List ℕ)) (body : List ℕ) →
        targets (bodies ++ body ∷ []) ≡ targets bodies ++ target bodies body ∷ [] }
{}

/// The targets of a prefix of the bodies are a prefix of the targets.
pub fn first_targets()
    ensures { (bodies more : List (List ℕ)) →
        take (length bodies) (targets (bodies ++ more)) ≡ targets bodies }
{}

/// The bases of a body that occurs n times have the numbers 1 to n, in order, if no other body has
/// the same digest.
pub fn equal_bodies()
    ensures { (bodies : List (List ℕ)) (body : List ℕ) →
        All (λ other. sha256 other ≡ sha256 body → other ≡ body) bodies →
        bases_of body bodies ≡ numbered_up_to body (count_by (bytes_eq body) bodies) }
{}
