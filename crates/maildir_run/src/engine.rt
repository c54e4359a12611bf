// A run over a folder after its listings, message by message.
ghost use Rattle.std.specs.Prelude.{◌≡◌, ◌<◌, ◌≤◌, ◌+◌, ◌-◌, ◌^◌, [], ◌∷◌, List, ℕ, OnOk, length};
ghost use Rattle.std.specs.Prelude.{IfOk, IfErr};
ghost use Rattle.std.specs.FinMap.{contains_key};
ghost use Rattle.maildir_name.specs.Named.{Named};
ghost use Rattle.maildir_run.specs.Calls.{names_of};
ghost use Rattle.maildir_run.specs.Counting.{IsOfFolder, fault_of};
ghost use Rattle.maildir_run.specs.Plan.{is_listed};
ghost use Rattle.maildir_run.specs.Parts.{sweep_of};
ghost use Rattle.maildir_run.specs.Texts.{bodies_of};

use crate::bases::Bases;
use crate::calls::Calls;
use crate::fault::RunFault;
use crate::folder::Folder;
use crate::listings::Listings;
use crate::report::Report;
use crate::sweep::sweep;
use maildir_name::Namer;
use mbox_text::Entry;
use std::alloc::Global;

/// A run that has listed what is there and swept `tmp`.
#[derive(Drop)]
pub(crate) struct Engine<'a> {
    pub(crate) there: Bases<'a>,
    pub(crate) namer: Namer,
    pub(crate) calls: Calls,
    pub(crate) messages: u64,
    pub(crate) placed: u64,
    pub(crate) swept: u64,
    ghost within: { placed ≤ messages },
}

impl<'a> Engine<'a> {
    ghost use Rattle.maildir_run.specs.Private.Parts.{DeliversMessages, Performed};

    /// A run whose listings answered these names. It removes what interrupted runs left in `tmp`.
    pub(crate) fn begin<F: Folder>(
        alloc: Global,
        folder: &mut F,
        calls: Calls,
        listings: &'a Listings,
    ) -> Result<Engine<'a>, RunFault>
        ensures ran { let at = F.at in (made : ℕ)
            × Performed (sweep_of (names_of listings.now.tmp)) (at folder.old)
            (at folder.new) calls.made made (fault_of result)
            × IfOk result (λ engine. engine.calls.made ≡ made) }
        ensures there { IfOk result
            (λ engine. (b : List ℕ) →
            contains_key engine.there b ≡ is_listed (names_of listings.now.new)
            (names_of listings.now.cur) b) }
        ensures namer { IfOk result (λ engine. Named [] engine.namer) }
        ensures counts { IfOk result
            (λ engine. (engine.messages ≡ 0) × (engine.placed ≡ 0) ×
            (engine.swept ≡ length (sweep_of (names_of listings.now.tmp)))) }
        ensures causes { IfErr result IsOfFolder }
    {
        let mut calls = calls;
        let swept = sweep(alloc, folder, &mut calls, &listings.tmp)?;
        let there = Bases::of_listings(alloc, &listings.new, &listings.cur)?;
        Ok(Engine {
            there,
            namer: Namer::new(alloc),
            calls,
            messages: 0,
            placed: 0,
            swept,
        })
    }

    /// What the run did.
    pub(crate) fn report(&self) -> Report
        ensures messages { result.messages ≡ self.now.messages }
        ensures there { result.there ≡ self.now.messages - self.now.placed }
        ensures placed { result.placed ≡ self.now.placed }
        ensures swept { result.swept ≡ self.now.swept }
    {
        Report {
            messages: self.messages,
            there: self.messages - self.placed,
            placed: self.placed,
            swept: self.swept,
        }
    }

    // Delivers the next message, if it was not there: writes it in `tmp` under its base, and then
    // places it at its target by one rename. Only what this call itself wrote is placed
    // (maildir(5)).
    fn deliver<F: Folder>(&mut self, folder: &mut F, body: &[u8]) -> Result<(), RunFault>
        requires { self.old.messages < 2 ^ 63 }
        ensures delivers { let at = F.at in (bodies : List (List ℕ)) → Named bodies self.old.namer →
            length bodies < 2 ^ 63 →
            DeliversMessages bodies (body.now ∷ []) (at folder.old)
            (at folder.new) self.old self.new (fault_of result) }
        ensures one { OnOk result (self.new.messages ≡ self.old.messages + 1) }
        ensures causes { IfErr result IsOfFolder }
    {
        let target = self.namer.target(body)?;
        self.messages += 1;
        let base = target.base.as_str();
        if !self.there.contains(base) {
            self.calls.write(folder, base, body)?;
            self.calls
                .place(folder, base, target.place, target.name.as_str())?;
            self.placed += 1;
        }
        Ok(())
    }

    /// Delivers the messages of some entries, in their order.
    pub(crate) fn deliver_entries<F: Folder>(
        &mut self,
        folder: &mut F,
        entries: &[Entry],
    ) -> Result<(), RunFault>
        requires { self.old.messages + length entries.now < 2 ^ 63 }
        ensures delivers { let at = F.at in
            (bodies : List (List ℕ)) → Named bodies self.old.namer →
            length bodies + length entries.now ≤ 2 ^ 63 →
            DeliversMessages bodies (bodies_of entries.now) (at folder.old)
            (at folder.new) self.old self.new (fault_of result) }
        ensures all { OnOk result (self.new.messages ≡ self.old.messages + length entries.now) }
        ensures causes { IfErr result IsOfFolder }
    {
        for entry in entries {
            self.deliver(folder, entry.body.as_slice())?;
        }
        Ok(())
    }
}
