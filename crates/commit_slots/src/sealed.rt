//! A sector of a slot in bytes.
ghost use Rattle.std.specs.Prelude.{◌≡◌, ◌≤◌, ◌↔◌, ◌+◌, ◌++◌, length, take, drop, IsTrue};
ghost use Rattle.std.specs.Int.{w32, to_be_bytes};
ghost use Rattle.checksum.specs.Crc.{crc_of};
ghost use Rattle.commit_slots.specs.Sealed.{Verifies, beginning, magic, number_of, place_of, rest_of, sealed};

use checksum::crc32c;

/// The bytes of a slot's content in one of its sectors.
pub const PIECE_BYTES: usize = 484;

const BEGINNING: [u8; 12] = *b"JPSTORE1\0\0\0\x03";

const MAGIC: [u8; 8] = *b"JPSTORE1";

/// The sector with this piece.
pub fn seal(number: u64, place: u32, piece: &[u8; 484]) -> [u8; 512]
    ensures { result ≡ sealed (rest_of number place piece.now) }
{
    let mut sector = [0; 512];
    put(&mut sector, 16, &number.to_be_bytes());
    put(&mut sector, 24, &place.to_be_bytes());
    put(&mut sector, 28, piece);
    put(&mut sector, 0, &BEGINNING);
    let check = check_of(&sector);
    put(&mut sector, 12, &check);
    sector
}

// The checksum of bytes 16 to 511.
fn check_of(sector: &[u8; 512]) -> [u8; 4]
    ensures { result ≡ to_be_bytes w32 (crc_of (drop 16 sector.now)) }
{
    crc32c(&sector[16..]).to_be_bytes()
}

/// Whether the sector verifies.
pub fn is_sealed(sector: &[u8; 512]) -> bool
    ensures { IsTrue result ↔ Verifies sector.now }
{
    let check = check_of(sector);
    begins(sector, 0, &BEGINNING) && begins(sector, 12, &check)
}

/// Whether the sector begins as each store's first one: `JPSTORE1`.
pub fn has_magic(sector: &[u8; 512]) -> bool
    ensures { IsTrue result ↔ (take 8 sector.now ≡ magic) }
{
    begins(sector, 0, &MAGIC)
}

/// Whether it begins as those of slots do: `JPSTORE1`, format 3.
pub fn begins_slot(sector: &[u8; 512]) -> bool
    ensures { IsTrue result ↔ (take 12 sector.now ≡ beginning) }
{
    begins(sector, 0, &BEGINNING)
}

// Whether these bytes are at that place of the sector.
pub(crate) fn begins(sector: &[u8; 512], at: usize, bytes: &[u8]) -> bool
    requires { at + length bytes.now ≤ 512 }
    ensures { IsTrue result ↔ (take (length bytes.now) (drop at sector.now) ≡ bytes.now) }
{
    sector[at..at + bytes.len()] == bytes[..]
}

/// The number of its commit.
pub fn number_of(sector: &[u8; 512]) -> u64
    ensures { result ≡ number_of sector.now }
{
    u64::from_be_bytes([
        sector[16], sector[17], sector[18], sector[19], sector[20], sector[21], sector[22],
        sector[23],
    ])
}

/// Its place in the slot.
pub fn place_of(sector: &[u8; 512]) -> u32
    ensures { result ≡ place_of sector.now }
{
    u32::from_be_bytes([sector[24], sector[25], sector[26], sector[27]])
}

// Writes bytes at a place of a sector; the rest stays.
fn put(sector: &mut [u8; 512], at: usize, bytes: &[u8])
    requires { at + length bytes.now ≤ 512 }
    ensures { sector.new ≡ take at sector.old ++ bytes.now ++ drop (at + length bytes.now) sector.old }
{
    sector[at..at + bytes.len()].copy_from_slice(bytes);
}
