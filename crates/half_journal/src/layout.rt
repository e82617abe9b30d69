//! The commit sector in bytes.
ghost use Rattle.std.specs.Prelude.{◌≡◌, ◌≢◌, ◌↔◌, ◌≤◌, ◌+◌, ◌-◌, ◌^◌, List, ℕ, length, take, drop, IfSome, IfNone, IsTrue, nat_eq, if◌then◌else◌, false};
ghost use Rattle.half_journal.specs.declared.commit_sector.Commit.{Commit};
ghost use Rattle.half_journal.specs.Layout.{sector_of, Fits, IsOf, IsHalfSized, magic};
ghost use Rattle.std.specs.Int.{w32, w64, from_be_bytes};

use crate::Commit;
use crate::geometry::capacity;
use sector_device::put;

const MAGIC: [u8; 8] = *b"JPSTORE1";

/// The format of frames that are written anew. Format 1 is read too.
pub const FORMAT: u32 = 2;

/// The sector that says this.
pub fn encode(commit: Commit) -> [u8; 512]
    ensures { result ≡ sector_of commit }
{
    let mut sector = [0; 512];
    put(&mut sector, 0, &MAGIC);
    put(&mut sector, 8, &commit.format.to_be_bytes());
    put(&mut sector, 12, &commit.half.to_be_bytes());
    put(&mut sector, 16, &commit.length.to_be_bytes());
    put(&mut sector, 24, &commit.seq.to_be_bytes());
    put(&mut sector, 32, &commit.opens.to_be_bytes());
    put(&mut sector, 40, &commit.sectors.to_be_bytes());
    sector
}

/// What the sector says, if each byte of it is a commit sector's.
pub fn decode(sector: &[u8; 512]) -> Option<Commit>
    ensures some { IfSome result (λ commit. Fits commit × (sector.now ≡ sector_of commit)) }
    ensures none { IfNone result ((commit : Commit) → Fits commit → sector.now ≢ sector_of commit) }
{
    let commit = Commit {
        format: u32_at(sector, 8),
        half: u32_at(sector, 12),
        length: u64_at(sector, 16),
        seq: u64_at(sector, 24),
        opens: u64_at(sector, 32),
        sectors: u64_at(sector, 40),
    };
    if *sector == encode(commit) {
        Some(commit)
    } else {
        None
    }
}

/// The commit that the sector holds, if it is a commit sector for a device of `sectors` sectors: format 1 or 2, half 0 or
/// 1, and a length that the half can hold.
pub fn commit_in(sector: &[u8; 512], sectors: u64) -> Option<Commit>
    requires { IsHalfSized sectors }
    ensures some { IfSome result (λ commit. IsOf sectors commit × Fits commit × (sector.now ≡ sector_of commit)) }
    ensures none { IfNone result ((commit : Commit) → IsOf sectors commit → Fits commit → sector.now ≢ sector_of commit) }
{
    match decode(sector) {
        None => None,
        Some(commit) => {
            if commit.sectors == sectors
                && 1 <= commit.format
                && commit.format <= FORMAT
                && commit.half <= 1
                && commit.length <= capacity(sectors)
            {
                Some(commit)
            } else {
                None
            }
        }
    }
}

/// Whether the sector begins as a commit sector does, whatever follows.
pub fn has_magic(sector: &[u8; 512]) -> bool
    ensures { IsTrue result ↔ (take 8 sector.now ≡ magic) }
{
    sector[..8] == MAGIC[..]
}

fn u64_at(sector: &[u8; 512], at: usize) -> u64
    requires { at + 8 ≤ 512 }
    ensures { result ≡ from_be_bytes w64 (take 8 (drop at sector.now)) }
{
    u64::from_be_bytes([
        sector[at],
        sector[at + 1],
        sector[at + 2],
        sector[at + 3],
        sector[at + 4],
        sector[at + 5],
        sector[at + 6],
        sector[at + 7],
    ])
}

fn u32_at(sector: &[u8; 512], at: usize) -> u32
    requires { at + 4 ≤ 512 }
    ensures { result ≡ from_be_bytes w32 (take 4 (drop at sector.now)) }
{
    u32::from_be_bytes([sector[at], sector[at + 1], sector[at + 2], sector[at + 3]])
}
