// The namer, which numbers the bodies that have the same digest.
ghost use Rattle.std.specs.Prelude.{◌≡◌, ℕ, ◌^◌, ◌<◌, [], ◌∷◌, ◌++◌, List, length, IfOk, OnOk};
ghost use Rattle.std.specs.Prelude.{OnErr, if◌then◌else◌, string_bytes};
ghost use Rattle.std.specs.Fmt.{decimal};
ghost use Rattle.std.specs.Str.{bytes_eq};
ghost use Rattle.hex.specs.Hex.{encode_lower};
ghost use Rattle.maildir_name.specs.Named.{Named, count_of};
ghost use Rattle.maildir_name.specs.Names.{base as base_lem, IsConverterBase};
ghost use Rattle.maildir_name.specs.Targets.{targets};

use crate::fault::NameFault;
use crate::flags::flags_of;
use crate::target::Target;
use sha2::{Digest, Sha256};
use std::alloc::{AllocError, Global};
use std::collections::BTreeMap;
use std::marker::Model;

/// Makes the targets of the bodies of a text, in order. It keeps each distinct digest with its
/// count in memory; contracts see these counts.
#[derive(Drop)]
pub struct Namer {
    alloc: Global,
    counts: BTreeMap<[u8; 32], u64>,
}

impl Model for Namer {
    ghost use Rattle.maildir_name.specs.Named.{Counts};

    ghost Value = { Counts };

    ghost view = { λ namer. namer.counts.entries };
}

impl Namer {
    /// A namer that has named no body. Allocates nothing; later calls allocate from this allocator.
    pub fn new(alloc: Global) -> Namer
        ensures { Named [] result }
    {
        Namer {
            alloc,
            counts: BTreeMap::new(alloc),
        }
    }

    /// The target of the next body: its base is the digits of the body's SHA-256, a dot, and how
    /// many bodies up to and with this one have that digest (this project's own rule).
    ///
    /// Errors: `OutOfMemory` if an allocation failed; the namer is then unchanged.
    pub fn target(&mut self, body: &[u8]) -> Result<Target, NameFault>
        ensures next { IfOk result (λ target. (bodies : List (List ℕ)) → Named bodies self.old →
            length bodies < 2 ^ 63 →
            (targets (bodies ++ body.now ∷ []) ≡ targets bodies ++ target ∷ []) ×
            Named (bodies ++ body.now ∷ []) self.new) }
        ensures base { IfOk result
            (λ target. IsConverterBase target.base × (base_lem target.base ≡ target.base) ×
            (base_lem target.name ≡ target.base)) }
        ensures refused { OnErr result (self.new ≡ self.old) }
    {
        let digest = Sha256::digest(body);
        let number = self.count(&digest).saturating_add(1);
        let base = numbered(self.alloc, &digest, number)?;
        let target = Target::under_flags(self.alloc, base, flags_of(body))?;
        self.set_count(digest, number)?;
        Ok(target)
    }

    // How many bodies so far have this digest.
    fn count(&self, digest: &[u8; 32]) -> u64
        ensures { result ≡ count_of self.now digest.now }
    {
        self.counts.get(digest).copied().unwrap_or(0)
    }

    // Stores how many bodies so far have this digest.
    fn set_count(&mut self, digest: [u8; 32], number: u64) -> Result<(), AllocError>
        ensures set { OnOk result
            ((other : List ℕ) → count_of self.new other ≡
            (if bytes_eq digest other then number else count_of self.old other)) }
        ensures refused { OnErr result (self.new ≡ self.old) }
    {
        self.counts.insert(digest, number)?;
        Ok(())
    }
}

// The digits of a digest, a dot and a number.
fn numbered(alloc: Global, digest: &[u8; 32], number: u64) -> Result<String, AllocError>
    ensures { IfOk result
        (λ text. string_bytes text ≡ encode_lower digest.now ++ 46 ∷ decimal number) }
{
    let digits = hex::encode(alloc, digest)?;
    format!(in alloc; "{digits}.{number}")
}
