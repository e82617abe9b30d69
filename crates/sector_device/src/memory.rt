//! A disk in memory, with a record of all its calls and the contents that a crash needs.
ghost use Rattle.std.specs.Prelude.{◌≡◌, ◌<◌, ◌++◌, ◌∷◌, ◌↔◌, [], All, Bool, List, ℕ, IfOk, OnOk, OnErr, replicate, slice_index, slice_index_or, length};
ghost use Rattle.sector_device.specs.Disk.{HasShape, Image, IsDamage, IsRaised, Tears, tearing};
ghost use Rattle.sector_device.specs.Kept.{IsKept, put_all, written_near, written_to};
ghost use Rattle.sector_device.specs.Pick.{picked_of, torn_of};

use crate::call::DeviceCall;
use crate::damage::Damage;
use crate::history::{Held, History};
use crate::unsettled::Unsettled;
use crate::{DeviceFault, SectorDevice};
use std::alloc::{AllocError, Global};
use std::snapshot::Snapshot;

/// A disk in memory. Of contents it keeps what a crash needs: each sector as the last sync settled it and as it reads
/// now, and what was written since that sync. Of calls it keeps all, so it grows by 16 bytes a call, up to a crash.
#[derive(Drop)]
pub struct MemDisk {
    settled: Vec<[u8; 512]>,
    current: Vec<[u8; 512]>,
    calls: Vec<DeviceCall>,
    unsettled: Vec<Unsettled>,
    failures: u64,
    history: History,
    ghost kept: { IsKept history calls.items settled.items unsettled.items current.items },
}

impl MemDisk {
    ghost use Rattle.sector_device.specs.Memory.{mem_disk, calls_of, contents_of, is_at_risk};

    /// `sectors` sectors of zeros. `Err`: there is no memory for them.
    pub fn new(alloc: Global, sectors: u64) -> Result<MemDisk, AllocError>
        ensures sectors { IfOk result (λ disk. (mem_disk disk).sectors ≡ sectors) }
        ensures seen { IfOk result (λ disk. (mem_disk disk).seen ≡ replicate sectors (replicate 512 0)) }
        ensures left { IfOk result (λ disk. (image : Image) → (mem_disk disk).left image → image ≡ (mem_disk disk).seen) }
        ensures torn { IfOk result (λ disk. (torn : List ℕ → Bool) (image : Image) → (tearing torn (mem_disk disk)).left image → image ≡ (mem_disk disk).seen) }
        ensures calls { IfOk result (λ disk. calls_of disk ≡ []) }
        ensures failures { IfOk result (λ disk. (mem_disk disk).failures ≡ 0) }
    {
        let settled = zeros(alloc, sectors as usize)?;
        let current = zeros(alloc, sectors as usize)?;
        Ok(MemDisk {
            settled,
            current,
            calls: Vec::new(alloc),
            unsettled: Vec::new(alloc),
            failures: 0,
            history: History::Created { sectors },
        })
    }

    /// All calls since `new` or `crash`, the oldest first, but for those that found no memory for their record.
    pub fn calls(&self) -> &[DeviceCall]
        ensures { result.now ≡ calls_of self.now }
    {
        &self.calls
    }

    /// How many calls found no memory. It stays at 2^64 - 1.
    pub fn failures(&self) -> u64
        ensures { result ≡ (mem_disk self.now).failures }
    {
        self.failures
    }

    /// The disk after a crash, with one of the images that it may leave. Sector `i` holds the content after the last
    /// sync if `picks[i]` is 0, the k-th content written since if it is k, and the last one if it is past that. A
    /// sector past the picks takes 0. The record is empty, and no failure is counted.
    pub fn crash(self, picks: &[u64]) -> MemDisk
        ensures one { (mem_disk self).left (mem_disk result).seen }
        ensures alone { (image : Image) → (mem_disk result).left image → image ≡ (mem_disk result).seen }
        ensures picks { (i : ℕ) → i < (mem_disk self).sectors → slice_index_or (mem_disk result).seen i [] ≡ picked_of (slice_index picks.now i) (contents_of self i) }
        ensures size { (mem_disk result).sectors ≡ (mem_disk self).sectors }
        ensures calls { calls_of result ≡ [] }
        ensures failures { (mem_disk result).failures ≡ 0 }
    {
        let MemDisk {
            mut settled,
            current,
            calls,
            unsettled,
            failures: _,
            history: _,
        } = self;
        keep_picked(&mut settled, picks, &unsettled);
        MemDisk::restarted(settled, current, calls, unsettled)
    }

    /// The disk after a crash that tears sectors. It is that after `crash`, but each sector of `damage` holds what that
    /// says, the last of it: if it is at risk, for something was written to its block of 8 since the last sync.
    pub fn crash_torn(self, picks: &[u64], damage: &[Damage]) -> MemDisk
        ensures one { (torn : List ℕ → Bool) → All (λ d. IsDamage torn d.content) damage.now → (tearing torn (mem_disk self)).left (mem_disk result).seen }
        ensures alone { (torn : List ℕ → Bool) (image : Image) → (tearing torn (mem_disk result)).left image → image ≡ (mem_disk result).seen }
        ensures picks { (i : ℕ) → i < (mem_disk self).sectors → slice_index_or (mem_disk result).seen i []
            ≡ torn_of (is_at_risk self i) i damage.now (picked_of (slice_index picks.now i) (contents_of self i)) }
        ensures size { (mem_disk result).sectors ≡ (mem_disk self).sectors }
        ensures calls { calls_of result ≡ [] }
        ensures failures { (mem_disk result).failures ≡ 0 }
    {
        let MemDisk {
            mut settled,
            current,
            calls,
            unsettled,
            failures: _,
            history: _,
        } = self;
        keep_picked(&mut settled, picks, &unsettled);
        tear(&mut settled, damage, &unsettled);
        MemDisk::restarted(settled, current, calls, unsettled)
    }

    // A disk that a crash left so.
    fn restarted(
        settled: Vec<[u8; 512]>,
        mut current: Vec<[u8; 512]>,
        mut calls: Vec<DeviceCall>,
        mut unsettled: Vec<Unsettled>,
    ) -> MemDisk
        requires size { length settled.items ≡ length current.items }
        requires shape { HasShape (length settled.items) settled.items }
        ensures seen { (mem_disk result).seen ≡ settled.items }
        ensures size { (mem_disk result).sectors ≡ length settled.items }
        ensures alone { (image : Image) → (mem_disk result).left image → image ≡ (mem_disk result).seen }
        ensures torn { (torn : List ℕ → Bool) (image : Image) → (tearing torn (mem_disk result)).left image → image ≡ (mem_disk result).seen }
        ensures calls { calls_of result ≡ [] }
        ensures failures { (mem_disk result).failures ≡ 0 }
    {
        copy(&settled, &mut current);
        calls.clear();
        unsettled.clear();
        let left = Held {
            others: Vec::new(*settled.allocator()),
            seen: settled,
        };
        let held = Snapshot::of(&left);
        MemDisk {
            settled: left.seen,
            current,
            calls,
            unsettled,
            failures: 0,
            history: History::Opened { held },
        }
    }
}

// Puts the damage in each sector that is at risk.
fn tear(settled: &mut Vec<[u8; 512]>, damage: &[Damage], unsettled: &[Unsettled])
    ensures size { length settled.new.items ≡ length settled.old.items }
    ensures torn { (i : ℕ) → i < length settled.old.items → slice_index_or settled.new.items i [] ≡ torn_of (written_near i unsettled.now) i damage.now (slice_index_or settled.old.items i []) }
    ensures shape { HasShape (length settled.old.items) settled.old.items → HasShape (length settled.old.items) settled.new.items }
{
    for torn in damage {
        tear_one(settled, torn, unsettled);
    }
}

fn tear_one(settled: &mut Vec<[u8; 512]>, damage: &Damage, unsettled: &[Unsettled])
    ensures size { length settled.new.items ≡ length settled.old.items }
    ensures torn { (i : ℕ) → i < length settled.old.items → slice_index_or settled.new.items i [] ≡ torn_of (written_near i unsettled.now) i (damage.now ∷ []) (slice_index_or settled.old.items i []) }
    ensures shape { HasShape (length settled.old.items) settled.old.items → HasShape (length settled.old.items) settled.new.items }
{
    if damage.at >= settled.len() as u64 {
        return;
    }
    if !may_tear(damage.at, unsettled) {
        return;
    }
    settled[damage.at as usize] = content_of(damage);
}

fn content_of(damage: &Damage) -> [u8; 512]
    ensures { result ≡ damage.now.content }
{
    damage.content
}

// Whether a crash may tear sector `at`.
fn may_tear(at: u64, unsettled: &[Unsettled]) -> bool
    ensures { result ≡ written_near at unsettled.now }
{
    for write in unsettled {
        if write.at / 8 == at / 8 {
            return true;
        }
    }
    false
}

// Puts in each sector what a crash keeps of it.
fn keep_picked(settled: &mut Vec<[u8; 512]>, picks: &[u64], unsettled: &[Unsettled])
    ensures size { length settled.new.items ≡ length settled.old.items }
    ensures picked { (i : ℕ) → i < length settled.old.items → slice_index_or settled.new.items i []
        ≡ picked_of (slice_index picks.now i) (slice_index_or settled.old.items i [] ∷ written_to i unsettled.now) }
{
    for i in 0..settled.len() {
        let pick = if i < picks.len() { picks[i] } else { 0 };
        let content = picked(&settled[i], i as u64, pick, unsettled);
        settled[i] = content;
    }
}

fn copy(from: &[[u8; 512]], to: &mut Vec<[u8; 512]>)
    requires { length from.now ≡ length to.old.items }
    ensures { to.new.items ≡ from.now }
{
    for i in 0..from.len() {
        to[i] = from[i];
    }
}

// What a crash keeps of sector `i`.
fn picked(settled: &[u8; 512], i: u64, pick: u64, unsettled: &[Unsettled]) -> [u8; 512]
    ensures { result ≡ picked_of pick (settled.now ∷ written_to i unsettled.now) }
{
    let mut chosen = *settled;
    let mut left = pick;
    for write in unsettled {
        if write.at == i && left > 0 {
            chosen = write.content;
            left -= 1;
        }
    }
    chosen
}

// Puts each write in its sector, the oldest first.
fn settle(settled: &mut Vec<[u8; 512]>, unsettled: &[Unsettled])
    requires { All (λ write. write.at < length settled.old.items) unsettled.now }
    ensures { settled.new.items ≡ put_all settled.old.items unsettled.now }
{
    for write in unsettled {
        settled[write.at as usize] = write.content;
    }
}

impl SectorDevice for MemDisk {
    ghost use Rattle.sector_device.specs.Disk.{Counts, Reads, StaysHonest, Writes, Syncs};
    ghost use Rattle.sector_device.specs.Memory.{mem_disk, mem_coherent, mem_tearing, calls_of, IsRefused};

    ghost disk = { mem_disk };

    ghost coherent = { mem_coherent };

    ghost torn_coherent = { mem_tearing };

    fn sectors(&self) -> u64 {
        self.current.len() as u64
    }

    fn read(&mut self, at: u64, into: &mut [u8; 512]) -> Result<(), DeviceFault>
        requires { at < (mem_disk self.old).sectors }
        ensures counts { Counts (mem_disk self.old) (mem_disk self.new) result }
        ensures reads { (mem_disk self.new).honest → Reads (mem_disk self.old) (mem_disk self.new) at into.new result }
        ensures stays { StaysHonest (mem_disk self.old) (mem_disk self.new) at into.new result }
        ensures torn { (torn : List ℕ → Bool) → (mem_disk self.new).honest → Reads (tearing torn (mem_disk self.old)) (tearing torn (mem_disk self.new)) at into.new result }
        ensures honest { (mem_disk self.old).honest ↔ (mem_disk self.new).honest }
        ensures recorded { OnOk result (calls_of self.new ≡ calls_of self.old ++ DeviceCall.Read at ∷ []) }
        ensures refused { OnErr result (IsRefused self.old self.new) }
    {
        match record(&mut self.calls, DeviceCall::Read(at)) {
            Ok(()) => {
                *into = self.current[at as usize];
                let (earlier, content) = (Snapshot::of(&self.history), Snapshot::of(into));
                self.history = History::Read {
                    earlier,
                    at,
                    content,
                };
                Ok(())
            }
            Err(_) => Err(count(&mut self.failures)),
        }
    }

    fn write(&mut self, at: u64, from: &[u8; 512]) -> Result<(), DeviceFault>
        requires { at < (mem_disk self.old).sectors }
        ensures counts { Counts (mem_disk self.old) (mem_disk self.new) result }
        ensures writes { (mem_disk self.old).honest → Writes (mem_disk self.old) (mem_disk self.new) at from.now result }
        ensures torn { (torn : List ℕ → Bool) → (mem_disk self.old).honest → Tears torn (mem_disk self.old) (mem_disk self.new) at from.now }
        ensures recorded { OnOk result (calls_of self.new ≡ calls_of self.old ++ DeviceCall.Write at ∷ []) }
        ensures refused { OnErr result (IsRefused self.old self.new) }
    {
        match record_write(&mut self.calls, &mut self.unsettled, at, *from) {
            Ok(()) => {
                self.current[at as usize] = *from;
                let (earlier, content) = (Snapshot::of(&self.history), Snapshot::of(from));
                self.history = History::Written {
                    earlier,
                    at,
                    content,
                };
                Ok(())
            }
            Err(_) => Err(count(&mut self.failures)),
        }
    }

    fn sync(&mut self) -> Result<(), DeviceFault>
        ensures counts { Counts (mem_disk self.old) (mem_disk self.new) result }
        ensures syncs { (mem_disk self.old).honest → Syncs (mem_disk self.old) (mem_disk self.new) result }
        ensures torn { (torn : List ℕ → Bool) → (mem_disk self.old).honest → Syncs (tearing torn (mem_disk self.old)) (tearing torn (mem_disk self.new)) result }
        ensures recorded { OnOk result (calls_of self.new ≡ calls_of self.old ++ DeviceCall.Sync ∷ []) }
        ensures refused { OnErr result (IsRefused self.old self.new) }
    {
        match record(&mut self.calls, DeviceCall::Sync) {
            Ok(()) => {
                settle(&mut self.settled, &self.unsettled);
                self.unsettled.clear();
                let earlier = Snapshot::of(&self.history);
                self.history = History::Synced { earlier };
                Ok(())
            }
            Err(_) => Err(count(&mut self.failures)),
        }
    }
}

// Counts a call that found no memory.
fn count(failures: &mut u64) -> DeviceFault
    ensures { IsRaised failures.old failures.new }
{
    *failures = failures.saturating_add(1);
    DeviceFault
}

// Puts a call on record.
fn record(calls: &mut Vec<DeviceCall>, call: DeviceCall) -> Result<(), AllocError>
    ensures ok { OnOk result (calls.new.items ≡ calls.old.items ++ call ∷ []) }
    ensures err { OnErr result (calls.new.items ≡ calls.old.items) }
{
    calls.push(call)?;
    Ok(())
}

// Puts a write on record, and with its content among those that a sync has to settle, both or neither.
fn record_write(
    calls: &mut Vec<DeviceCall>,
    unsettled: &mut Vec<Unsettled>,
    at: u64,
    content: [u8; 512],
) -> Result<(), AllocError>
    ensures calls { OnOk result (calls.new.items ≡ calls.old.items ++ DeviceCall.Write at ∷ []) }
    ensures unsettled { OnOk result (unsettled.new.items ≡ unsettled.old.items ++ record { at = at; content = content } ∷ []) }
    ensures err_calls { OnErr result (calls.new.items ≡ calls.old.items) }
    ensures err_unsettled { OnErr result (unsettled.new.items ≡ unsettled.old.items) }
{
    unsettled.push(Unsettled { at, content })?;
    match calls.push(DeviceCall::Write(at)) {
        Ok(()) => Ok(()),
        Err(_) => {
            let _ = unsettled.pop();
            Err(AllocError)
        }
    }
}

fn zeros(alloc: Global, sectors: usize) -> Result<Vec<[u8; 512]>, AllocError>
    ensures { IfOk result (λ all. all.items ≡ replicate sectors (replicate 512 0)) }
{
    let mut all = Vec::new(alloc);
    for i in 0..sectors {
        all.push([0; 512])?;
    }
    Ok(all)
}
