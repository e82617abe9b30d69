//! The changes that one commit makes.
ghost use Rattle.std.specs.Prelude.{◌≡◌, ◌≤◌, ◌*◌, ◌/◌, ◌%◌, List, ℕ, length, take, drop, if◌then◌else◌};
ghost use Rattle.half_journal.specs.Known.{half_begun, used_begun, version_begun};
ghost use Rattle.half_journal.specs.States.{HalfState, begun, one_more};
ghost use Rattle.half_journal.specs.Writes.{takes_one_sync, written_first};

use sector_device::SECTOR_BYTES;

/// The bytes with which a commit begins. Its frames follow them.
#[derive(Clone, Copy)]
pub enum Base<'a> {
    /// The committed bytes, in their half and their format.
    Kept,
    /// These bytes, in format `version`. The commit writes them into the other half.
    Written { target: &'a [u8], version: u32 },
    /// These bytes, in format `version`. A copy has written them into the other half.
    Copied { target: &'a [u8], version: u32 },
}

/// The changes that one commit makes, in format 1 or 2.
#[derive(Clone, Copy)]
pub struct Update<'a> {
    pub base: Base<'a>,
    /// The bytes after the base, in its format.
    pub frames: &'a [u8],
    /// By how much seq rises.
    pub adds: u64,
    /// Whether an opening is counted.
    pub counts_opening: bool,
}

/// The place at which the frames of a commit begin.
#[derive(Clone, Copy)]
pub struct Start<'a> {
    pub version: u32,
    pub half: u32,
    /// The number of bytes before the frames.
    pub used: u64,
    /// Those of them that the commit writes, from the first sector of the half on.
    pub target: &'a [u8],
    /// Those of them in the sector in which the frames begin.
    pub front: &'a [u8],
}

impl<'a> Update<'a> {
    /// Whether one sync makes the commit durable: it counts an opening alone.
    pub fn takes_one_sync(self) -> bool
        ensures { result ≡ takes_one_sync self.entry }
    {
        match self.base {
            Base::Kept => self.counts_opening && self.frames.is_empty(),
            _ => false,
        }
    }

    /// How often the device was opened, after the commit.
    pub fn opens_after(self, opens: u64) -> u64
        ensures { result ≡ (if self.entry.counts_opening then one_more opens else opens) }
    {
        if self.counts_opening {
            opens.saturating_add(1)
        } else {
            opens
        }
    }
}

impl<'a> Base<'a> {
    /// The place at which the frames begin, in a journal with `used` used bytes, of which `tail` has the last sector's.
    pub fn start(self, version: u32, half: u32, used: u64, tail: &'a [u8; 512]) -> Start<'a>
        requires { half ≤ 1 }
        ensures short { length result.front.now ≤ 512 }
        ensures target { result.target.now ≡ written_first self.entry }
        ensures version { result.version ≡ version_begun version self.entry }
        ensures half { result.half ≡ half_begun half self.entry }
        ensures used { result.used ≡ used_begun used self.entry }
        ensures front { (c : HalfState) → used ≡ length c.bytes → take (used % 512) tail.now ≡ drop (512 * (used / 512)) c.bytes
            → result.front.now ≡ drop (512 * (length (begun c self.entry).bytes / 512)) (begun c self.entry).bytes }
    {
        match self {
            Base::Kept => Start {
                version,
                half,
                used,
                target: &[],
                front: &tail[..(used % SECTOR_BYTES) as usize],
            },
            Base::Written { target, version } => Start {
                version,
                half: 1 - half,
                used: target.len() as u64,
                target,
                front: last_sector(target),
            },
            Base::Copied { target, version } => Start {
                version,
                half: 1 - half,
                used: target.len() as u64,
                target: &[],
                front: last_sector(target),
            },
        }
    }
}

// The bytes in the last sector of some that isn't full.
fn last_sector(bytes: &[u8]) -> &[u8]
    ensures { result.now ≡ drop (512 * (length bytes.now / 512)) bytes.now }
{
    &bytes[bytes.len() / 512 * 512..]
}
