//! A device of sectors: the trait that its callers use.
ghost use Rattle.std.specs.Prelude.{◌≡◌, ◌<◌, Bool, List, ℕ};
ghost use Rattle.sector_device.specs.Disk.{Disk, Counts, Reads, StaysHonest, Writes, Syncs, IsCoherent, IsTearing, Tears, tearing};

/// A device's call failed. Whether a write that failed took effect is not known.
#[derive(Clone, Copy, Debug, PartialEq, Eq)]
pub struct DeviceFault;

/// The bytes of a sector.
pub const SECTOR_BYTES: u64 = 512;

/// A device of sectors of 512 bytes, numbered from 0. A crash leaves in each sector, independently of the others, its
/// content after the last successful sync or any one content written to it since. If sectors tear, it may also leave
/// damage, in any sector of a block of 8 of which one was written since.
pub trait SectorDevice {
    /// All that contracts say of a device.
    ghost disk: { Self → Disk };

    /// The number of sectors. It never changes.
    fn sectors(&self) -> u64
        ensures { result ≡ (disk self.now).sectors };

    /// Reads the sector `at`, below `sectors()`: the content that was written last. `Err`: the device failed,
    /// and nothing is known of `into`.
    fn read(&mut self, at: u64, into: &mut [u8; 512]) -> Result<(), DeviceFault>
        requires { at < (disk self.old).sectors }
        ensures counts { Counts (disk self.old) (disk self.new) result }
        ensures reads { (disk self.new).honest → Reads (disk self.old) (disk self.new) at into.new result }
        ensures stays { StaysHonest (disk self.old) (disk self.new) at into.new result }
        ensures torn { (torn : List ℕ → Bool) → (disk self.new).honest → Reads (tearing torn (disk self.old)) (tearing torn (disk self.new)) at into.new result };

    /// Replaces the sector `at`, below `sectors()`. `Err`: the device failed, and the sector reads as before or
    /// as written.
    fn write(&mut self, at: u64, from: &[u8; 512]) -> Result<(), DeviceFault>
        requires { at < (disk self.old).sectors }
        ensures counts { Counts (disk self.old) (disk self.new) result }
        ensures writes { (disk self.old).honest → Writes (disk self.old) (disk self.new) at from.now result }
        ensures torn { (torn : List ℕ → Bool) → (disk self.old).honest → Tears torn (disk self.old) (disk self.new) at from.now };

    /// Settles what was written: a crash then leaves what reads give. `Err`: the device failed, and nothing is
    /// settled.
    fn sync(&mut self) -> Result<(), DeviceFault>
        ensures counts { Counts (disk self.old) (disk self.new) result }
        ensures syncs { (disk self.old).honest → Syncs (disk self.old) (disk self.new) result }
        ensures torn { (torn : List ℕ → Bool) → (disk self.old).honest → Syncs (tearing torn (disk self.old)) (tearing torn (disk self.new)) result };

    /// Of an honest device: as it reads it is one of the images that a crash may leave, and each has its size.
    ghost coherent: { (device : Self) → (disk device).honest → IsCoherent (disk device) };

    /// The same if its sectors tear.
    ghost torn_coherent: { (device : Self) → (disk device).honest → (torn : List ℕ → Bool) → IsTearing torn (disk device) };
}
