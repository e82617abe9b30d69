//! A device that passes a given number of calls, and then fails each without touching the device below, as one whose
//! power fails.
ghost use Rattle.std.specs.Prelude.{◌≡◌, ◌+◌, ◌<◌, Bool, List, ℕ, ◌↔◌, true, false, Some, IsErr};
ghost use Rattle.sector_device.specs.Disk.{Counts, IsRaised, Reads, StaysHonest, Writes, Syncs, Tears, tearing};

use crate::{DeviceFault, SectorDevice};

/// Passes a number of calls to `D`, and then fails each.
#[derive(Drop)]
pub struct Fuse<D: SectorDevice> {
    device: D,
    calls: u64,
    failures: u64,
}

impl<D: SectorDevice> Fuse<D> {
    ghost use Rattle.sector_device.specs.Fuse.{fuse_disk, at_most};

    /// Passes `calls` calls to `device`.
    pub fn new(device: D, calls: u64) -> Self
        ensures device { result.device ≡ device }
        ensures calls { result.calls ≡ calls }
        ensures passes { (fuse_disk D.disk result).calls_left ≡ Some (at_most (D.disk device).calls_left calls) }
        ensures failures { (fuse_disk D.disk result).failures ≡ (D.disk device).failures }
    {
        Fuse {
            device,
            calls,
            failures: 0,
        }
    }

    /// The device below, as it is now.
    pub fn into_inner(self) -> D
        ensures { result ≡ self.device }
    {
        let Fuse {
            device,
            calls: _,
            failures: _,
        } = self;
        device
    }
}

impl<D: SectorDevice> SectorDevice for Fuse<D> {
    ghost use Rattle.sector_device.specs.Fuse.{fuse_disk};

    ghost disk = { fuse_disk D.disk };

    ghost coherent = { λ fuse honest. let inner = D.coherent fuse.device honest in record { seen = inner.seen; shape = inner.shape; now = inner.now; only_now = inner.only_now } };

    ghost torn_coherent = { λ fuse honest torn. let inner = D.torn_coherent fuse.device honest torn in record { coherent = record { seen = inner.coherent.seen; shape = inner.coherent.shape; now = inner.coherent.now; only_now = inner.coherent.only_now }; adds = inner.adds; adds_since = inner.adds_since } };

    fn sectors(&self) -> u64 {
        self.device.sectors()
    }

    fn read(&mut self, at: u64, into: &mut [u8; 512]) -> Result<(), DeviceFault>
        requires { at < (D.disk self.old.device).sectors }
        ensures counts { Counts (fuse_disk D.disk self.old) (fuse_disk D.disk self.new) result }
        ensures reads { (D.disk self.new.device).honest → Reads (fuse_disk D.disk self.old) (fuse_disk D.disk self.new) at into.new result }
        ensures stays { StaysHonest (fuse_disk D.disk self.old) (fuse_disk D.disk self.new) at into.new result }
        ensures torn { (torn : List ℕ → Bool) → (D.disk self.new.device).honest → Reads (tearing torn (fuse_disk D.disk self.old)) (tearing torn (fuse_disk D.disk self.new)) at into.new result }
        // It is as honest as before, if the device below is.
        ensures honest { ((D.disk self.old.device).honest → (D.disk self.new.device).honest)
            → ((fuse_disk D.disk self.old).honest ↔ (fuse_disk D.disk self.new).honest) }
        ensures spent { self.old.calls ≡ 0 → IsErr result × (self.new.device ≡ self.old.device) }
    {
        if !takes_call(&mut self.calls, &mut self.failures) {
            return Err(DeviceFault);
        }
        self.device.read(at, into)
    }

    fn write(&mut self, at: u64, from: &[u8; 512]) -> Result<(), DeviceFault>
        requires { at < (D.disk self.old.device).sectors }
        ensures counts { Counts (fuse_disk D.disk self.old) (fuse_disk D.disk self.new) result }
        ensures writes { (D.disk self.old.device).honest → Writes (fuse_disk D.disk self.old) (fuse_disk D.disk self.new) at from.now result }
        ensures torn { (torn : List ℕ → Bool) → (D.disk self.old.device).honest → Tears torn (fuse_disk D.disk self.old) (fuse_disk D.disk self.new) at from.now }
        ensures spent { self.old.calls ≡ 0 → IsErr result × (self.new.device ≡ self.old.device) }
    {
        if !takes_call(&mut self.calls, &mut self.failures) {
            return Err(DeviceFault);
        }
        self.device.write(at, from)
    }

    fn sync(&mut self) -> Result<(), DeviceFault>
        ensures counts { Counts (fuse_disk D.disk self.old) (fuse_disk D.disk self.new) result }
        ensures syncs { (D.disk self.old.device).honest → Syncs (fuse_disk D.disk self.old) (fuse_disk D.disk self.new) result }
        ensures torn { (torn : List ℕ → Bool) → (D.disk self.old.device).honest → Syncs (tearing torn (fuse_disk D.disk self.old)) (tearing torn (fuse_disk D.disk self.new)) result }
        ensures spent { self.old.calls ≡ 0 → IsErr result × (self.new.device ≡ self.old.device) }
    {
        if !takes_call(&mut self.calls, &mut self.failures) {
            return Err(DeviceFault);
        }
        self.device.sync()
    }
}

// Whether a call passes. One that does is used up; else a failure is counted.
fn takes_call(calls: &mut u64, failures: &mut u64) -> bool
    ensures passes { result ≡ true → (calls.old ≡ calls.new + 1) × (failures.new ≡ failures.old) }
    ensures spent { result ≡ false → (calls.old ≡ 0) × (calls.new ≡ 0) × IsRaised failures.old failures.new }
{
    if *calls == 0 {
        *failures = failures.saturating_add(1);
        return false;
    }
    *calls -= 1;
    true
}
