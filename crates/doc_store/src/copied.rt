//! A store's documents on another device.
ghost use Rattle.std.specs.Prelude.{◌≡◌, ◌≢◌, ◌⊎◌, IfOk, IfErr, OnOk, true};
ghost use Rattle.sector_device.specs.Charges.{IsSameRead};
ghost use Rattle.sector_device.specs.Disk.{LeavesOnly};
ghost use Rattle.schema_rules.specs.declared.profile.Profile.TheVariants.{Two};
ghost use Rattle.doc_changes.specs.Refusals.{plain};
ghost use Rattle.doc_changes.specs.State.{Good};
ghost use Rattle.doc_changes.specs.Within.{AreBeyond, AreWithin};
ghost use Rattle.refusals.specs.declared.numbers.TheConstants.{MEMORY, NEWER_SCHEMA, TOO_MANY};
ghost use Rattle.store_commits.specs.Images.{profile_in};
ghost use Rattle.store_commits.specs.Snapshot.{snapshot_bytes};
ghost use Rattle.store_journal.specs.Filling.{FillRefusal, NoneOrAll};
ghost use Rattle.store_journal.specs.Models.{model};
ghost use Rattle.doc_store.specs.Formats.{rides_in};
ghost use Rattle.doc_store.specs.Opening.{IsCopied, IsCopyOf, copied_of};
ghost use Rattle.doc_store.specs.declared.format.Format.TheVariants.{Two as FormatTwo};

use crate::format::Format;
use crate::store::Store;
use doc_machine::Refusal;
use doc_machine::laws::earlier_profiles_stay;
use sector_device::SectorDevice;
use store_commits::creations;
use store_journal::format_with;

impl<D: SectorDevice> Store<D> {
    /// Makes `device`, of whatever size, a store in that format, in format 3 with this identity, of the same documents, in their order, with their schemas and
    /// revisions, in format 3 with the same marks, of the same number of accepted changes, and opened as often; and answers the number of used bytes there. A crash at
    /// any moment leaves no store on it, or all of this; in format 3 also if it tears blocks of sectors. The store itself is
    /// only read, and its device isn't called; one that is broken is copied as it was last committed.
    ///
    /// In format 2 `TOO_MANY` if there are over 1,024 documents, else `NEWER_SCHEMA` if a document's schema isn't one of
    /// profile 2; then `SMALL` if `device` has under 3 sectors, in format 3 under 160, or over 2^32; else `NO_ROOM` if a half
    /// of it doesn't hold the frames of the documents' creations and, in format 3, of the marks; else `ALREADY_A_STORE` if its sector 0 begins as a commit
    /// sector does, and in format 3 also if another slot begins so. `DEVICE` if it failed. All but `DEVICE` leave what it
    /// held. `MEMORY` may come in place of any other, before it is called.
    pub fn copy_to<E: SectorDevice>(
        &self,
        device: &mut E,
        format: Format,
        identity: u128,
    ) -> Result<u64, Refusal>
        ensures copied { IfOk result (IsCopied format identity (E.disk device.old) (E.disk device.new) self.now.account) }
        ensures refused { IfErr result (λ refusal. refusal ≢ plain MEMORY → refusal ≢ plain TOO_MANY → refusal ≢ plain NEWER_SCHEMA
            → (refusal ≡ plain refusal.number) × FillRefusal (E.disk device.old) (E.disk device.new) (copied_of format identity self.now.account) refusal.number) }
        ensures beyond { IfErr result (λ refusal. (refusal ≡ plain TOO_MANY) ⊎ (refusal ≡ plain NEWER_SCHEMA)
            → (format ≡ FormatTwo) × AreBeyond Two self.now.account.state.documents refusal × (device.new ≡ device.old)) }
        ensures memory { IfErr result (λ refusal. refusal ≡ plain MEMORY → device.new ≡ device.old) }
        ensures any_moment { (E.disk device.new).honest → LeavesOnly (model (rides_in format) (E.disk device.old)) (model (rides_in format) (E.disk device.new))
            (NoneOrAll (rides_in format) (E.disk device.old) (IsCopyOf format identity self.now.account)) }
        ensures same { IsSameRead (E.disk device.old) (E.disk device.new) }
    {
        let status = self.status();
        let frames = self.snapshot_in(format)?;
        match format_with(
            device,
            &frames,
            status.seq,
            status.opens,
            format.rides(),
            identity,
        ) {
            Ok(()) => Ok(frames.len() as u64),
            Err(fault) => Err(Refusal::plain(fault.number)),
        }
    }

    // The bytes of the snapshot in the format, if a store in it may hold the documents.
    fn snapshot_in(&self, format: Format) -> Result<Vec<u8>, Refusal>
        ensures frames { IfOk result (λ frames. frames.items ≡ snapshot_bytes (rides_in format) self.now.account.state.documents self.now.account.state.marks) }
        ensures within { OnOk result (AreWithin (profile_in (rides_in format)) self.now.account.state.documents) }
        ensures refused { IfErr result (λ refusal. ((format ≡ FormatTwo) × AreBeyond Two self.now.account.state.documents refusal) ⊎ (refusal ≡ plain MEMORY)) }
        ensures good { Good self.now.account.state }
    {
        match format {
            Format::Two => self.snapshot_in_profile_2(),
            Format::Three => self.snapshot_in_profile_3(),
        }
    }

    // Without a look at the documents, since profile 3 accepts those of each profile.
    fn snapshot_in_profile_3(&self) -> Result<Vec<u8>, Refusal>
        ensures frames { IfOk result (λ frames. frames.items ≡ snapshot_bytes true self.now.account.state.documents self.now.account.state.marks) }
        ensures within { AreWithin (profile_in true) self.now.account.state.documents }
        ensures refused { IfErr result (λ refusal. refusal ≡ plain MEMORY) }
        ensures good { Good self.now.account.state }
    {
        earlier_profiles_stay();
        Ok(creations(self.alloc, &self.machine.look(), true)?)
    }
}
