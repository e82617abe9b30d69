//! The checksum of a part.
ghost use Rattle.std.specs.Prelude.{◌≡◌, ◌≢◌, Some, take};
ghost use Rattle.checksum.specs.Crc.{crc_of};
ghost use Rattle.store_parts.specs.Parts.{HasCheck};

use crate::part::Part;
use checksum::crc32c;

/// Whether bytes have the checksum that their commit gives.
#[derive(Clone, Copy, Debug, PartialEq, Eq)]
pub enum Check {
    Held,
    Failed,
    /// No checksum is known.
    Unknown,
}

/// Whether the bytes of the part in the half have its checksum.
pub fn check_of(part: &Part, bytes: &[u8]) -> Check
    ensures { HasCheck part.now bytes.now result }
{
    match (part.check, bytes.get(..part.len as usize)) {
        (Some(check), Some(whole)) => {
            if crc32c(whole) == check {
                Check::Held
            } else {
                Check::Failed
            }
        }
        _ => Check::Unknown,
    }
}
