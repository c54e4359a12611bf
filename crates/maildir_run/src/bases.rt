// The bases of listed names.
ghost use Rattle.std.specs.Prelude.{◌≡◌, ℕ, List, map, string_bytes, IfOk, OnOk};
ghost use Rattle.std.specs.FinMap.{contains_key, empty, insert};
ghost use Rattle.maildir_name.specs.Names.{base};
ghost use Rattle.maildir_run.specs.Plan.{is_listed};
ghost use Rattle.maildir_run.specs.Private.Bases.{with_bases};

use maildir_name::base_of;
use std::alloc::{AllocError, Global};
use std::collections::BTreeSet;
use std::marker::Model;

/// The bases of some names, kept in order. Contracts see them as a set.
#[derive(Drop)]
pub(crate) struct Bases<'a> {
    bases: BTreeSet<&'a str>,
}

impl<'a> Model for Bases<'a> {
    ghost use Rattle.maildir_run.specs.Private.Bases.{BaseSet, base_set_code, set_of};

    ghost Value = { BaseSet };

    ghost coded = { base_set_code };

    ghost view = { λ s. set_of s.bases.keys };
}

impl<'a> Bases<'a> {
    fn new(alloc: Global) -> Self
        ensures { result ≡ empty }
    {
        Bases {
            bases: BTreeSet::new(alloc),
        }
    }

    /// The bases of the names that were listed in `new` and in `cur`.
    pub(crate) fn of_listings(
        alloc: Global,
        new: &'a [String],
        cur: &'a [String],
    ) -> Result<Self, AllocError>
        ensures { IfOk result (λ bases. (b : List ℕ) → contains_key bases b
            ≡ is_listed (map string_bytes new.now) (map string_bytes cur.now) b) }
    {
        let mut bases = Bases::new(alloc);
        bases.add_all(new)?;
        bases.add_all(cur)?;
        Ok(bases)
    }

    fn add_all(&mut self, names: &'a [String]) -> Result<(), AllocError>
        ensures { OnOk result (self.new ≡ with_bases self.old (map string_bytes names.now)) }
    {
        for name in names {
            self.add(base_of(name.as_str()))?;
        }
        Ok(())
    }

    fn add(&mut self, base: &'a str) -> Result<(), AllocError>
        ensures { OnOk result (self.new ≡ insert self.old base.now tt) }
    {
        self.bases.insert(base)?;
        Ok(())
    }

    /// Whether a base is among them.
    pub(crate) fn contains(&self, base: &str) -> bool
        ensures { result ≡ contains_key self.now base.now }
    {
        self.bases.contains(base)
    }
}
