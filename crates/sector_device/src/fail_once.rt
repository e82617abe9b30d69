//! A device of which one call fails, passed on or not, and no other.
ghost use Rattle.std.specs.Prelude.{◌≡◌, ◌≢◌, ◌-◌, ◌<◌, Bool, List, ℕ, None, true, false, ◌↔◌};
ghost use Rattle.sector_device.specs.Disk.{Counts, Reads, StaysHonest, Writes, Syncs, Tears, tearing};

use crate::{DeviceFault, SectorDevice};

/// Fails one call of `D`, which has no limit of calls of its own.
#[derive(Drop)]
pub struct FailOnce<D: SectorDevice> {
    device: D,
    left: u64,
    pass: bool,
    failed: bool,
    ghost unlimited: { (D.disk device).calls_left ≡ None },
    ghost once: { failed ≡ true → left ≡ 0 },
}

impl<D: SectorDevice> FailOnce<D> {
    ghost use Rattle.sector_device.specs.FailOnce.{fail_once_disk};

    /// Fails the call number `call`, counted from 1 (0: none). With `pass` that call takes effect and is answered
    /// as failed; without it the device is not touched.
    pub fn new(device: D, call: u64, pass: bool) -> Self
        requires unlimited { (D.disk device).calls_left ≡ None }
        ensures device { result.device ≡ device }
        ensures call { result.left ≡ call }
        ensures pass { result.pass ≡ pass }
        ensures failures { (fail_once_disk result).failures ≡ (D.disk device).failures }
    {
        FailOnce {
            device,
            left: call,
            pass,
            failed: false,
        }
    }

    /// The device below, as it is now.
    pub fn into_inner(self) -> D
        ensures { result ≡ self.device }
    {
        let FailOnce {
            device,
            left: _,
            pass: _,
            failed: _,
        } = self;
        device
    }
}

impl<D: SectorDevice> SectorDevice for FailOnce<D> {
    ghost use Rattle.sector_device.specs.FailOnce.{fail_once_disk, FailsOnce, IsPassedOn};

    ghost disk = { fail_once_disk };

    ghost coherent = { λ device honest. let inner = D.coherent device.device honest in record { seen = inner.seen; shape = inner.shape; now = inner.now; only_now = inner.only_now } };

    ghost torn_coherent = { λ device honest torn. let inner = D.torn_coherent device.device honest torn in record { coherent = record { seen = inner.coherent.seen; shape = inner.coherent.shape; now = inner.coherent.now; only_now = inner.coherent.only_now }; adds = inner.adds; adds_since = inner.adds_since } };

    fn sectors(&self) -> u64 {
        self.device.sectors()
    }

    fn read(&mut self, at: u64, into: &mut [u8; 512]) -> Result<(), DeviceFault>
        requires { at < (D.disk self.old.device).sectors }
        ensures counts { Counts (fail_once_disk self.old) (fail_once_disk self.new) result }
        ensures reads { (D.disk self.new.device).honest → Reads (fail_once_disk self.old) (fail_once_disk self.new) at into.new result }
        ensures stays { StaysHonest (fail_once_disk self.old) (fail_once_disk self.new) at into.new result }
        ensures torn { (torn : List ℕ → Bool) → (D.disk self.new.device).honest → Reads (tearing torn (fail_once_disk self.old)) (tearing torn (fail_once_disk self.new)) at into.new result }
        // It is as honest as before, if the device below is.
        ensures honest { ((D.disk self.old.device).honest → (D.disk self.new.device).honest)
            → ((fail_once_disk self.old).honest ↔ (fail_once_disk self.new).honest) }
        ensures fails { FailsOnce self.old self.new result }
        ensures passed { IsPassedOn self.old self.new (λ answer. (D.disk self.new.device).honest → Reads (D.disk self.old.device) (D.disk self.new.device) at into.new answer) }
    {
        if !is_due(&mut self.left, &mut self.failed) {
            return self.device.read(at, into);
        }
        if self.pass {
            let _ = self.device.read(at, into);
        }
        Err(DeviceFault)
    }

    fn write(&mut self, at: u64, from: &[u8; 512]) -> Result<(), DeviceFault>
        requires { at < (D.disk self.old.device).sectors }
        ensures counts { Counts (fail_once_disk self.old) (fail_once_disk self.new) result }
        ensures writes { (D.disk self.old.device).honest → Writes (fail_once_disk self.old) (fail_once_disk self.new) at from.now result }
        ensures torn { (torn : List ℕ → Bool) → (D.disk self.old.device).honest → Tears torn (fail_once_disk self.old) (fail_once_disk self.new) at from.now }
        ensures fails { FailsOnce self.old self.new result }
        ensures passed { IsPassedOn self.old self.new (λ answer. (D.disk self.old.device).honest → Writes (D.disk self.old.device) (D.disk self.new.device) at from.now answer) }
    {
        if !is_due(&mut self.left, &mut self.failed) {
            return self.device.write(at, from);
        }
        if self.pass {
            let _ = self.device.write(at, from);
        }
        Err(DeviceFault)
    }

    fn sync(&mut self) -> Result<(), DeviceFault>
        ensures counts { Counts (fail_once_disk self.old) (fail_once_disk self.new) result }
        ensures syncs { (D.disk self.old.device).honest → Syncs (fail_once_disk self.old) (fail_once_disk self.new) result }
        ensures torn { (torn : List ℕ → Bool) → (D.disk self.old.device).honest → Syncs (tearing torn (fail_once_disk self.old)) (tearing torn (fail_once_disk self.new)) result }
        ensures fails { FailsOnce self.old self.new result }
        ensures passed { IsPassedOn self.old self.new (λ answer. (D.disk self.old.device).honest → Syncs (D.disk self.old.device) (D.disk self.new.device) answer) }
    {
        if !is_due(&mut self.left, &mut self.failed) {
            return self.device.sync();
        }
        if self.pass {
            let _ = self.device.sync();
        }
        Err(DeviceFault)
    }
}

// Counts a call: whether it is the one that fails.
fn is_due(left: &mut u64, failed: &mut bool) -> bool
    ensures counted { left.new ≡ left.old - 1 }
    ensures due { result ≡ true → (left.old ≡ 1) × (failed.new ≡ true) }
    ensures other { result ≡ false → (left.old ≢ 1) × (failed.new ≡ failed.old) }
{
    let due = *left == 1;
    *left = left.saturating_sub(1);
    if due {
        *failed = true;
    }
    due
}
