//! The opening of a device, and what it says of the slots.
ghost use Rattle.std.specs.Prelude.{◌≡◌, ◌≢◌, ◌↔◌, Bool, IfOk, IfErr, IsTrue, MatchResult};
ghost use Rattle.sector_device.specs.Disk.{LeavesOnly};
ghost use Rattle.sector_device.specs.Sectors.{KeepsImages};
ghost use Rattle.store_journal.specs.Models.{model};
ghost use Rattle.doc_changes.specs.State.{Good, State};
ghost use Rattle.refusals.specs.declared.numbers.TheConstants.{DEVICE};
ghost use Rattle.store_commits.specs.Account.{IsStanding};
ghost use Rattle.store_commits.specs.Images.{Stands};
ghost use Rattle.doc_store.specs.Opening.{IsOfFormat, OldOrStands, Opened, WasRead};
ghost use Rattle.doc_store.specs.Strict.{IsRefusedBy, IsSaidOf, IsTaken, NotTaken};

use crate::finding::find;
use crate::settling::settle;
use crate::store::Store;
use refusals::numbers::CUT_OFF;
use sector_device::SectorDevice;
use std::alloc::Global;
use store_journal::{Notice, OpenFault};

/// Which stores are opened.
#[derive(Clone, Copy, Debug, PartialEq, Eq)]
pub enum Strictness {
    /// Each that holds a state.
    AnyState,
    /// Each but one of which a commit was cut off: the last answered change may be missing in it.
    RefusesCutOff,
}

impl Strictness {
    /// Whether a store of which that is said is opened.
    pub fn takes(self, notice: Notice) -> bool
        ensures { IsTrue result ↔ IsTaken self notice }
    {
        match (self, notice) {
            (Strictness::RefusesCutOff, Notice::CutOff) => false,
            _ => true,
        }
    }
}

impl<D: SectorDevice> Store<D> {
    /// Opens what a device holds, as `open` does, and says what its slots say in format 3 beside the commit that counts.
    /// After `CutOff` the documents are those of an earlier commit, if both copies of the last one were damaged; else
    /// nothing is missing that was answered. In formats 1 and 2 it is `Whole`, whatever was damaged. The bytes are those
    /// that it read of the half that counts, from which it made the documents: in format 3 a log.
    ///
    /// Refused as by `open`; and as `CUT_OFF` before `NO_ROOM`, if so it was asked and the notice is `CutOff`: then
    /// nothing was written, and the opening isn't counted.
    pub fn open_with(
        alloc: Global,
        device: D,
        strictness: Strictness,
    ) -> Result<(Store<D>, Notice, Vec<u8>), OpenFault<D>>
        ensures opened { IfOk result (λ opened. Opened (D.disk device) (D.disk opened.0.device) opened.0.account) }
        ensures notice { IfOk result (λ opened. (D.disk opened.0.device).honest → IsSaidOf (D.disk device).seen opened.1) }
        ensures taken { IfOk result (λ opened. IsTaken strictness opened.1) }
        ensures standing { IfOk result (λ opened. IsStanding (D.disk opened.0.device) opened.0.account) }
        ensures good { IfOk result (λ opened. Good opened.0.account.state) }
        ensures read { IfOk result (λ opened. WasRead (D.disk device) (D.disk opened.0.device) opened.0.account opened.2.items) }
        ensures refused { IfErr result (λ fault. NotTaken strictness (D.disk device) (D.disk fault.device) fault.number) }
        ensures exact { (state : State) → Stands state (D.disk device).seen
            → MatchResult result (λ opened. (D.disk opened.0.device).honest → opened.0.account.state ≡ state)
            (λ fault. (D.disk fault.device).honest → IsRefusedBy strictness (D.disk device).seen fault.number) }
        ensures any_moment { IfOk result (λ opened. (D.disk opened.0.device).honest
            → LeavesOnly (model opened.0.account.rides (D.disk device)) (model opened.0.account.rides (D.disk opened.0.device)) (OldOrStands (model opened.0.account.rides (D.disk device)))) }
        ensures any_moment_err { IfErr result (λ fault. (D.disk fault.device).honest
            → (rides : Bool) → IsOfFormat rides (D.disk device).seen → LeavesOnly (model rides (D.disk device)) (model rides (D.disk fault.device)) (OldOrStands (model rides (D.disk device)))) }
        ensures untouched { IfErr result (λ fault. (D.disk fault.device).honest
            → fault.number ≢ DEVICE → (rides : Bool) → KeepsImages (model rides (D.disk device)) (model rides (D.disk fault.device))) }
        ensures sectors_err { IfErr result (λ fault. (D.disk fault.device).honest → (D.disk fault.device).sectors ≡ (D.disk device).sectors) }
        ensures honest { IfOk result (λ opened. (D.disk opened.0.device).honest → (D.disk device).honest) }
        ensures honest_err { IfErr result (λ fault. (D.disk fault.device).honest → (D.disk device).honest) }
    {
        let (mut journal, bytes, machine, notice) = match find(alloc, device) {
            Err(fault) => return Err(fault),
            Ok(found) => found,
        };
        if !strictness.takes(notice) {
            return Err(OpenFault {
                number: CUT_OFF,
                device: journal.into_device(),
            });
        }
        if let Err(refusal) = settle(alloc, &mut journal, &bytes, &machine) {
            return Err(OpenFault {
                number: refusal.number,
                device: journal.into_device(),
            });
        }
        let store = Store {
            alloc,
            journal,
            machine,
            copy: None,
        };
        Ok((store, notice, bytes))
    }
}
