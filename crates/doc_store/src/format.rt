//! The format of a store, and how it is brought to another.
ghost use Rattle.std.specs.Prelude.{◌≡◌, ◌≢◌, ◌⊎◌, ◌↔◌, ◌≤◌, ◌<◌, ◌+◌, ◌-◌, IfErr, IfOk, IsTrue, OnOk, None, length, true, false};
ghost use Rattle.sector_device.specs.Charges.{Failed, Made};
ghost use Rattle.sector_device.specs.Disk.{Image, LeavesOnly};
ghost use Rattle.store_journal.specs.Calls.{Broke};
ghost use Rattle.store_journal.specs.Carries.{EitherCarried, turned};
ghost use Rattle.store_journal.specs.JournalView.{IsKept, carried_of};
ghost use Rattle.store_journal.specs.Layout.{FitsBetween, capacity_of};
ghost use Rattle.store_journal.specs.Models.{model};
ghost use Rattle.store_journal.specs.Turning.{Downgraded, Halted, Unwritten, Upgraded};
ghost use Rattle.store_journal.specs.Writes.{downgrade_calls, upgrade_calls};
ghost use Rattle.schema_rules.specs.declared.profile.Profile.TheVariants.{Two};
ghost use Rattle.doc_changes.specs.State.{Good};
ghost use Rattle.doc_changes.specs.Within.{AreBeyond, AreWithin};
ghost use Rattle.doc_changes.specs.Refusals.{plain};
ghost use Rattle.refusals.specs.declared.numbers.TheConstants.{DEVICE, MEMORY, SEQ_END};
ghost use Rattle.store_commits.specs.Account.{IsStanding, account_broken};
ghost use Rattle.store_commits.specs.Snapshot.{snapshot_bytes, snapshot_size};
ghost use Rattle.doc_store.specs.Formats.{FormatAnswers, HasWay, InEither, IsImageOf, OneOf, OneOfThree, StaysAs, account_over, account_ready, account_turned, calls_to, calls_to_ready, format_of, half_from, number_of, rides_in, size_in};
ghost use Rattle.doc_store.specs.declared.format.Format.TheVariants.{Three as FormatThree, Two as FormatTwo};

use crate::store::Store;
use doc_machine::laws::earlier_profiles_stay;
use doc_machine::{Profile, Refusal};
use refusals::numbers::{BROKEN, DEVICE, NO_ROOM, SEQ_END};
use sector_device::SectorDevice;
use std::alloc::{AllocError, Global};
use store_commits::{commit_snapshot, creations};
use store_journal::Journal;
use store_journal::geometry::capacity;

/// The format of a store.
#[derive(Clone, Copy, Debug, PartialEq, Eq)]
pub enum Format {
    /// Format 2: each commit waits for two syncs.
    Two,
    /// Format 3: a commit of at most 11,333 bytes waits for one sync, and a crash may tear blocks of sectors.
    Three,
}

impl Format {
    /// Its number, 2 or 3.
    pub fn number(self) -> u64
        ensures { result ≡ number_of self }
    {
        match self {
            Format::Two => 2,
            Format::Three => 3,
        }
    }

    /// Whether the last bytes ride in slots: in format 3.
    pub fn rides(self) -> bool
        ensures { result ≡ rides_in self }
    {
        match self {
            Format::Two => false,
            Format::Three => true,
        }
    }
}

impl<D: SectorDevice> Store<D> {
    /// The format of the store. One that was opened in format 1 is in format 2.
    pub fn format(&self) -> Format
        ensures { result ≡ format_of self.now.account }
    {
        if self.journal.rides() {
            Format::Three
        } else {
            Format::Two
        }
    }

    /// Brings the store to a format. The documents, their revisions and the number of accepted changes stay. From format 2
    /// to 3 it takes this identity, and has no marks yet; on the way back it loses its own, and all marks. A store in that format already makes no call of its
    /// device, and keeps the identity that it has.
    ///
    /// It goes from half 1 of format 2 to half 0 of format 3, and back. A store in the other half is brought there by a
    /// snapshot first, and a snapshot is what it has then; a copy that runs is dropped. To format 3 each schema stays,
    /// since profile 3 accepts those of profile 2.
    ///
    /// To format 2, `TOO_MANY` if there are over 1,024 documents; else `NEWER_SCHEMA` if a document's schema isn't one of
    /// profile 2. Then `NO_ROOM` if a half hasn't room for the snapshot, or the device has none for both formats; `SEQ_END` if no number of a commit is left in format 3. `MEMORY`
    /// may come in place of any. Nothing is written then, and nothing changes; but to format 3 `MEMORY` and `SEQ_END` may
    /// also come once the store is in half 1.
    ///
    /// `BROKEN` if the device failed before; then nothing changes. `DEVICE` if it failed in this call.
    pub fn set_format(&mut self, format: Format, identity: u128) -> Result<(), Refusal>
        ensures answer { FormatAnswers self.old.account format identity result self.new.account }
        ensures made { OnOk result (Made (D.disk self.old.device) (D.disk self.new.device) (calls_to format self.old.account)) }
        ensures failed { IfErr result (λ refusal. refusal.number ≡ DEVICE
            → Failed (D.disk self.old.device) (D.disk self.new.device) (calls_to format self.old.account)) }
        ensures any_moment { (D.disk self.new.device).honest → self.old.account.broken ≡ false
            → LeavesOnly (model self.old.account.rides (D.disk self.old.device)) (model self.old.account.rides (D.disk self.new.device)) (InEither self.old.account format identity) }
        ensures done { OnOk result ((D.disk self.new.device).honest → (image : Image) → (model self.new.account.rides (D.disk self.new.device)).left image → IsImageOf self.new.account image) }
        ensures standing { IsStanding (D.disk self.new.device) self.new.account }
        ensures honest { (D.disk self.new.device).honest → (D.disk self.old.device).honest }
        ensures unchanged { IfErr result (λ refusal. refusal.number ≢ DEVICE
            → (format ≡ FormatThree → (refusal.number ≢ MEMORY) × (refusal.number ≢ SEQ_END)) → self.new ≡ self.old) }
        ensures good { Good self.new.account.state }
    {
        if self.journal.is_broken() {
            return Err(Refusal::plain(BROKEN));
        }
        if self.journal.rides() == format.rides() {
            return Ok(());
        }
        match format {
            Format::Two => self.lower(),
            Format::Three => self.raise(identity),
        }
    }

    // Brings a store in format 2, which works, to format 3.
    fn raise(&mut self, identity: u128) -> Result<(), Refusal>
        requires works { self.old.account.broken ≡ false }
        requires two { self.old.account.rides ≡ false }
        ensures ok { OnOk result (self.new.account ≡ account_turned true identity self.old.account) }
        ensures err { IfErr result (λ refusal.
            ((refusal ≡ plain DEVICE) × ((self.new.account ≡ account_broken self.old.account) ⊎ (self.new.account ≡ account_broken (account_ready self.old.account))))
            ⊎ (StaysAs FormatThree self.old.account refusal × (self.new ≡ self.old))
            ⊎ (((refusal ≡ plain MEMORY) ⊎ (refusal ≡ plain SEQ_END)) × (self.new.account ≡ account_ready self.old.account))) }
        ensures made { OnOk result (Made (D.disk self.old.device) (D.disk self.new.device) (calls_to_ready self.old.account + upgrade_calls (size_in true self.old.account))) }
        ensures failed { IfErr result (λ refusal. refusal.number ≡ DEVICE → Failed (D.disk self.old.device) (D.disk self.new.device) (calls_to_ready self.old.account + upgrade_calls (size_in true self.old.account))) }
        ensures any_moment { (D.disk self.new.device).honest
            → LeavesOnly (model self.old.account.rides (D.disk self.old.device)) (model self.old.account.rides (D.disk self.new.device)) (OneOfThree self.old.account (account_turned true identity self.old.account)) }
        ensures done { OnOk result ((D.disk self.new.device).honest → (image : Image) → (model self.new.account.rides (D.disk self.new.device)).left image → IsImageOf self.new.account image) }
        ensures standing { IsStanding (D.disk self.new.device) self.new.account }
        ensures honest { (D.disk self.new.device).honest → (D.disk self.old.device).honest }
        ensures good { Good self.new.account.state }
    {
        self.know_images();
        let frames = self.way_up()?;
        self.make_ready()?;
        self.turn_up(&frames, identity)
    }

    // Brings a store in format 3, which works, to format 2.
    fn lower(&mut self) -> Result<(), Refusal>
        requires works { self.old.account.broken ≡ false }
        requires three { self.old.account.rides ≡ true }
        ensures ok { OnOk result (self.new.account ≡ account_turned false 0 self.old.account) }
        ensures err { IfErr result (λ refusal.
            ((refusal ≡ plain DEVICE) × ((self.new.account ≡ account_broken self.old.account) ⊎ (self.new.account ≡ account_broken (account_ready self.old.account))))
            ⊎ (StaysAs FormatTwo self.old.account refusal × (self.new ≡ self.old))) }
        ensures made { OnOk result (Made (D.disk self.old.device) (D.disk self.new.device) (calls_to_ready self.old.account + downgrade_calls (size_in false self.old.account))) }
        ensures failed { IfErr result (λ refusal. refusal.number ≡ DEVICE → Failed (D.disk self.old.device) (D.disk self.new.device) (calls_to_ready self.old.account + downgrade_calls (size_in false self.old.account))) }
        ensures any_moment { (D.disk self.new.device).honest
            → LeavesOnly (model self.old.account.rides (D.disk self.old.device)) (model self.old.account.rides (D.disk self.new.device)) (OneOfThree self.old.account (account_turned false 0 self.old.account)) }
        ensures done { OnOk result ((D.disk self.new.device).honest → (image : Image) → (model self.new.account.rides (D.disk self.new.device)).left image → IsImageOf self.new.account image) }
        ensures standing { IsStanding (D.disk self.new.device) self.new.account }
        ensures honest { (D.disk self.new.device).honest → (D.disk self.old.device).honest }
        ensures good { Good self.new.account.state }
    {
        self.know_images();
        let frames = self.way_down()?;
        self.make_ready()?;
        self.turn_down(&frames)
    }

    /// For the prover alone: who calls it knows from there on what the images hold, and that the half is one of two.
    pub fn know_images(&self)
        ensures still { (D.disk self.now.device).honest → self.now.account.broken ≡ false
            → LeavesOnly (model self.now.account.rides (D.disk self.now.device)) (model self.now.account.rides (D.disk self.now.device)) (IsImageOf self.now.account) }
        ensures standing { IsStanding (D.disk self.now.device) self.now.account }
        ensures half { self.now.account.half ≤ 1 }
        ensures good { Good self.now.account.state }
    {
        self.journal.know();
    }

    // The snapshot, in format 3, of a store in format 2, if there is a way for it to format 3.
    fn way_up(&self) -> Result<Vec<u8>, Refusal>
        requires two { self.now.account.rides ≡ false }
        ensures frames { IfOk result (λ frames. frames.items ≡ snapshot_bytes true self.now.account.state.documents self.now.account.state.marks) }
        ensures way { OnOk result (HasWay self.now.account) }
        ensures refused { IfErr result (StaysAs FormatThree self.now.account) }
    {
        let frames = creations(self.alloc, &self.machine.look(), true)?;
        // In format 2 there are no marks, so the snapshot is as long in both formats.
        let len = frames.len() as u64;
        if self.has_way(len, len, len) {
            return Ok(frames);
        }
        Err(Refusal::plain(NO_ROOM))
    }

    // The snapshot, in format 2, of a store in format 3, if there is a way for it to format 2.
    fn way_down(&self) -> Result<Vec<u8>, Refusal>
        requires three { self.now.account.rides ≡ true }
        ensures frames { IfOk result (λ frames. frames.items ≡ snapshot_bytes false self.now.account.state.documents self.now.account.state.marks) }
        ensures within { OnOk result (AreWithin Two self.now.account.state.documents) }
        ensures way { OnOk result (HasWay self.now.account) }
        ensures refused { IfErr result (StaysAs FormatTwo self.now.account) }
    {
        let frames = self.snapshot_in_profile_2()?;
        let in_slots = self.snapshot_len()?;
        let used = if self.journal.active_half() == 0 {
            self.journal.used()
        } else {
            in_slots
        };
        if self.has_way(frames.len() as u64, in_slots, used) {
            return Ok(frames);
        }
        Err(Refusal::plain(NO_ROOM))
    }

    // The bytes of the snapshot in format 3.
    fn snapshot_len(&self) -> Result<u64, AllocError>
        ensures { IfOk result (λ len. len ≡ size_in true self.now.account) }
    {
        let snapshot = creations(self.alloc, &self.machine.look(), true)?;
        Ok(snapshot.len() as u64)
    }

    // Whether a half of either format has room for the snapshot, which has this many bytes in format 2 and in format 3, and
    // both formats can be on the device together, with `used` bytes in half 0 of format 3.
    fn has_way(&self, snapshot: u64, in_slots: u64, used: u64) -> bool
        ensures { IsTrue result ↔ ((snapshot ≤ capacity_of false self.now.account.sectors) × (in_slots ≤ capacity_of true self.now.account.sectors) × FitsBetween self.now.account.sectors used) }
    {
        let sectors = self.journal.sectors();
        self.journal.know();
        snapshot <= capacity(false, sectors)
            && in_slots <= capacity(true, sectors)
            && self.journal.fits_between(used)
    }

    // Brings a store, which works, to the half from which its format gives way to the other: by a snapshot in its format,
    // if it is in the other one.
    fn make_ready(&mut self) -> Result<(), Refusal>
        requires works { self.old.account.broken ≡ false }
        requires fits { snapshot_size self.old.account ≤ capacity_of self.old.account.rides self.old.account.sectors }
        ensures ok { OnOk result (self.new.account ≡ account_ready self.old.account) }
        ensures err { IfErr result (λ refusal. ((refusal ≡ plain DEVICE) × (self.new.account ≡ account_broken self.old.account))
            ⊎ (((refusal ≡ plain MEMORY) ⊎ (refusal ≡ plain SEQ_END)) × (self.new ≡ self.old))) }
        ensures made { OnOk result (Made (D.disk self.old.device) (D.disk self.new.device) (calls_to_ready self.old.account)) }
        ensures failed { IfErr result (λ refusal. refusal.number ≡ DEVICE → Failed (D.disk self.old.device) (D.disk self.new.device) (calls_to_ready self.old.account)) }
        ensures any_moment { (D.disk self.old.device).honest → LeavesOnly (model self.old.account.rides (D.disk self.old.device)) (model self.old.account.rides (D.disk self.new.device))
            (OneOf self.old.account (account_ready self.old.account)) }
        ensures standing { IsStanding (D.disk self.new.device) self.new.account }
        ensures honest { (D.disk self.old.device).honest ↔ (D.disk self.new.device).honest }
        ensures good { Good self.new.account.state }
    {
        self.journal.know();
        if self.journal.active_half() == half_of(self.journal.rides()) {
            self.copy = None;
            return Ok(());
        }
        if !self.journal.has_number() {
            return Err(Refusal::plain(SEQ_END));
        }
        let snapshot = self.frames()?;
        self.copy = None;
        commit_snapshot(&mut self.journal, &snapshot)?;
        Ok(())
    }

    // Brings a store in half 1 of format 2, which works, to format 3.
    fn turn_up(&mut self, snapshot: &[u8], identity: u128) -> Result<(), Refusal>
        requires works { self.old.account.broken ≡ false }
        requires two { self.old.account.rides ≡ false }
        requires half { self.old.account.half ≡ 1 }
        requires snapshot { snapshot.now ≡ snapshot_bytes true self.old.account.state.documents self.old.account.state.marks }
        requires between { FitsBetween self.old.account.sectors (length snapshot.now) }
        ensures ok { OnOk result (self.new.account ≡ account_over true identity self.old.account) }
        ensures err { IfErr result (λ refusal. ((refusal ≡ plain DEVICE) × (self.new.account ≡ account_broken self.old.account))
            ⊎ (((refusal ≡ plain MEMORY) ⊎ (refusal ≡ plain SEQ_END)) × (self.new.account ≡ record self.old.account { copy = None }))) }
        ensures made { OnOk result (Made (D.disk self.old.device) (D.disk self.new.device) (upgrade_calls (size_in true self.old.account))) }
        ensures failed { IfErr result (λ refusal. refusal.number ≡ DEVICE → Failed (D.disk self.old.device) (D.disk self.new.device) (upgrade_calls (size_in true self.old.account))) }
        ensures any_moment { (D.disk self.new.device).honest → LeavesOnly (model self.old.account.rides (D.disk self.old.device)) (model self.old.account.rides (D.disk self.new.device))
            (OneOf self.old.account (account_over true identity self.old.account)) }
        ensures done { OnOk result ((D.disk self.new.device).honest → (image : Image) → (model self.new.account.rides (D.disk self.new.device)).left image → IsImageOf self.new.account image) }
        ensures standing { IsStanding (D.disk self.new.device) self.new.account }
        ensures honest { (D.disk self.new.device).honest → (D.disk self.old.device).honest }
        ensures good { Good self.new.account.state }
    {
        earlier_profiles_stay();
        self.copy = None;
        upgrade(self.alloc, &mut self.journal, identity, snapshot)?;
        self.machine.set_profile(Profile::Three);
        Ok(())
    }

    // Brings a store in half 0 of format 3, which works, to format 2.
    fn turn_down(&mut self, snapshot: &[u8]) -> Result<(), Refusal>
        requires works { self.old.account.broken ≡ false }
        requires three { self.old.account.rides ≡ true }
        requires half { self.old.account.half ≡ 0 }
        requires snapshot { snapshot.now ≡ snapshot_bytes false self.old.account.state.documents self.old.account.state.marks }
        requires within { AreWithin Two self.old.account.state.documents }
        requires between { FitsBetween self.old.account.sectors self.old.account.used }
        requires fits { length snapshot.now ≤ capacity_of false self.old.account.sectors }
        ensures ok { OnOk result (self.new.account ≡ account_over false 0 self.old.account) }
        ensures err { IfErr result (λ refusal. (refusal ≡ plain DEVICE) × (self.new.account ≡ account_broken self.old.account)) }
        ensures made { OnOk result (Made (D.disk self.old.device) (D.disk self.new.device) (downgrade_calls (size_in false self.old.account))) }
        ensures failed { IfErr result (λ refusal. refusal.number ≡ DEVICE → Failed (D.disk self.old.device) (D.disk self.new.device) (downgrade_calls (size_in false self.old.account))) }
        ensures any_moment { (D.disk self.old.device).honest → LeavesOnly (model self.old.account.rides (D.disk self.old.device)) (model self.old.account.rides (D.disk self.new.device))
            (OneOf self.old.account (account_over false 0 self.old.account)) }
        ensures done { OnOk result ((D.disk self.new.device).honest → (image : Image) → (model self.new.account.rides (D.disk self.new.device)).left image → IsImageOf self.new.account image) }
        ensures standing { IsStanding (D.disk self.new.device) self.new.account }
        ensures honest { (D.disk self.old.device).honest ↔ (D.disk self.new.device).honest }
        ensures good { Good self.new.account.state }
    {
        self.copy = None;
        downgrade(&mut self.journal, snapshot)?;
        self.machine.set_profile(Profile::Two);
        Ok(())
    }

    /// The bytes of the snapshot in format 2, if a store in it may hold the documents: else `TOO_MANY` or `NEWER_SCHEMA`,
    /// for which it takes no memory. It only reads.
    pub(crate) fn snapshot_in_profile_2(&self) -> Result<Vec<u8>, Refusal>
        ensures frames { IfOk result (λ frames. frames.items ≡ snapshot_bytes false self.now.account.state.documents self.now.account.state.marks) }
        ensures within { OnOk result (AreWithin Two self.now.account.state.documents) }
        ensures refused { IfErr result (λ refusal. AreBeyond Two self.now.account.state.documents refusal ⊎ (refusal ≡ plain MEMORY)) }
        ensures standing { IsStanding (D.disk self.now.device) self.now.account }
        ensures good { Good self.now.account.state }
    {
        let look = self.machine.look();
        look.check_profile(Profile::Two)?;
        Ok(creations(self.alloc, &look, false)?)
    }
}

// The half from which a format gives way to the other.
fn half_of(rides: bool) -> u32
    ensures { result ≡ half_from rides }
{
    if rides { 0 } else { 1 }
}

// Makes the target, in the other half, what counts, in format 3.
fn upgrade<D: SectorDevice>(
    alloc: Global,
    journal: &mut Journal<D>,
    identity: u128,
    target: &[u8],
) -> Result<(), Refusal>
    requires works { journal.old.broken ≡ false }
    requires plain { journal.old.rides ≡ false }
    requires half { journal.old.half ≡ 1 }
    requires between { FitsBetween journal.old.sectors (length target.now) }
    ensures ok { OnOk result (Upgraded (D.disk journal.old.device) (D.disk journal.new.device) journal.old journal.new identity target.now) }
    ensures err { IfErr result (λ refusal.
        (((refusal ≡ plain MEMORY) ⊎ (refusal ≡ plain SEQ_END)) × Unwritten (D.disk journal.old.device) (D.disk journal.new.device) journal.old journal.new)
        ⊎ ((refusal ≡ plain DEVICE) × Halted (D.disk journal.old.device) (D.disk journal.new.device) (upgrade_calls (length target.now)) journal.old journal.new)) }
    ensures any_moment { (D.disk journal.new.device).honest → LeavesOnly (model journal.old.rides (D.disk journal.old.device)) (model journal.old.rides (D.disk journal.new.device))
        (EitherCarried (carried_of journal.old) (turned true identity (carried_of journal.old) target.now)) }
    ensures honest { (D.disk journal.new.device).honest → (D.disk journal.old.device).honest }
    ensures kept { IsKept (D.disk journal.new.device) journal.new }
{
    match journal.upgrade(alloc, identity, target) {
        Ok(()) => Ok(()),
        Err(fault) => Err(Refusal::plain(fault.number)),
    }
}

// Makes the target, in the other half, what counts, in format 2.
fn downgrade<D: SectorDevice>(journal: &mut Journal<D>, target: &[u8]) -> Result<(), Refusal>
    requires works { journal.old.broken ≡ false }
    requires rides { journal.old.rides ≡ true }
    requires settled { journal.old.settled ≡ true }
    requires half { journal.old.half ≡ 0 }
    requires between { FitsBetween journal.old.sectors (length journal.old.bytes) }
    requires fits { length target.now ≤ capacity_of false journal.old.sectors }
    ensures ok { OnOk result (Downgraded (D.disk journal.old.device) (D.disk journal.new.device) journal.old journal.new target.now) }
    ensures err { IfErr result (λ refusal. (refusal ≡ plain DEVICE)
        × Broke (D.disk journal.old.device) (D.disk journal.new.device) (downgrade_calls (length target.now)) journal.old journal.new) }
    ensures any_moment { (D.disk journal.old.device).honest → LeavesOnly (model journal.old.rides (D.disk journal.old.device)) (model journal.old.rides (D.disk journal.new.device))
        (EitherCarried (carried_of journal.old) (turned false 0 (carried_of journal.old) target.now)) }
    ensures honest { (D.disk journal.old.device).honest ↔ (D.disk journal.new.device).honest }
    ensures kept { IsKept (D.disk journal.new.device) journal.new }
{
    match journal.downgrade(target) {
        Ok(()) => Ok(()),
        Err(_) => Err(Refusal::plain(DEVICE)),
    }
}
