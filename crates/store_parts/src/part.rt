//! A part of a device that may hold frames.
ghost use Rattle.std.specs.Prelude.{◌≤◌, ◌<◌, ◌+◌, ◌*◌, ◌≡◌, ◌^◌, IfOk};
ghost use Rattle.sector_device.specs.Charges.{IsSameRead};
ghost use Rattle.sector_device.specs.Sectors.{KeepsImages};
ghost use Rattle.store_parts.specs.Parts.{HasBytes, HasPart, IsReadBut};

use sector_device::{ReadFault, SECTOR_BYTES, SectorDevice, read_bytes};
use std::alloc::{AllocError, Global};

/// A part of a device that may hold frames: bytes of a half, and after them, of a commit in format 3, those in its slot.
#[derive(Drop)]
pub struct Part {
    /// The half, 0 or 1.
    pub half: u32,
    /// Its first sector.
    pub first: u64,
    /// How many bytes of the half it has.
    pub len: u64,
    /// A commit counts exactly these bytes.
    pub counted: bool,
    /// The checksum that the commit gives for those of the half.
    pub check: Option<u32>,
    /// The bytes in the slot.
    pub tail: Vec<u8>,
    /// The first sector of that slot.
    pub slot: u64,
    /// The number of its commit, if that is known: of the one that counts it, or else its bytes are those of some sectors
    /// of a slot alone, each of which has its checksum.
    pub number: Option<u64>,
}

/// The part as far as a device of `sectors` sectors has it.
pub(crate) fn within(sectors: u64, part: Part) -> Part
    requires { sectors ≤ 2 ^ 32 }
    ensures has { HasPart sectors result }
    ensures tail { (result.tail ≡ part.tail) × (result.slot ≡ part.slot) }
{
    let first = part.first.min(sectors);
    let room = SECTOR_BYTES * (sectors - first);
    let mut part = part;
    part.first = first;
    part.len = part.len.min(room);
    part
}

/// The bytes of a part.
#[derive(Drop)]
pub struct PartBytes {
    pub bytes: Vec<u8>,
    /// The sectors that the device doesn't read: zeros are in their place.
    pub unread: Vec<u64>,
}

/// Reads a part. It goes on after a sector that isn't read. `Err`: memory was refused.
pub fn read_part<D: SectorDevice>(
    alloc: Global,
    device: &mut D,
    part: &Part,
) -> Result<PartBytes, AllocError>
    requires { HasPart (D.disk device.old).sectors part.now }
    ensures same { IsSameRead (D.disk device.old) (D.disk device.new) }
    ensures later { (D.disk device.old).failures ≤ (D.disk device.new).failures }
    ensures unwritten { (D.disk device.new).honest → KeepsImages (D.disk device.old) (D.disk device.new) }
    ensures read { (D.disk device.new).honest → IfOk result (λ read. HasBytes (D.disk device.old).seen part.now read.unread.items read.bytes.items) }
{
    let mut read = match read_bytes(alloc, device, part.first, part.len) {
        Ok(bytes) => PartBytes {
            bytes,
            unread: Vec::new(alloc),
        },
        Err(ReadFault::Memory) => return Err(AllocError),
        Err(ReadFault::Device) => read_around(alloc, device, part.first, part.len)?,
    };
    read.bytes.extend_from_slice(&part.tail)?;
    Ok(read)
}

// The same, sector by sector.
fn read_around<D: SectorDevice>(
    alloc: Global,
    device: &mut D,
    first: u64,
    len: u64,
) -> Result<PartBytes, AllocError>
    requires room { 512 * first + len ≤ 512 * (D.disk device.old).sectors }
    requires small { 512 * first + len < 2 ^ 60 }
    ensures same { IsSameRead (D.disk device.old) (D.disk device.new) }
    ensures later { (D.disk device.old).failures ≤ (D.disk device.new).failures }
    ensures unwritten { (D.disk device.new).honest → KeepsImages (D.disk device.old) (D.disk device.new) }
    ensures read { (D.disk device.new).honest → IfOk result (λ read. IsReadBut (D.disk device.old).seen first len read.unread.items read.bytes.items) }
{
    let mut bytes = Vec::new(alloc);
    let mut unread = Vec::new(alloc);
    let count = (len + 511) / SECTOR_BYTES;
    for k in 0..count {
        let n = (len - SECTOR_BYTES * k).min(SECTOR_BYTES);
        match read_bytes(alloc, device, first + k, n) {
            Ok(sector) => bytes.extend_from_slice(&sector)?,
            Err(ReadFault::Memory) => return Err(AllocError),
            Err(ReadFault::Device) => {
                unread.push(first + k)?;
                bytes.extend_from_slice(&[0; 512][..n as usize])?;
            }
        }
    }
    Ok(PartBytes { bytes, unread })
}
