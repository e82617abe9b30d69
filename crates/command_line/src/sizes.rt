//! Sizes of files, as people write them.
ghost use Rattle.std.specs.Prelude.{◌≡◌, ◌≢◌, ◌≤◌, ◌<◌, ◌^◌, ◌++◌, ◌∷◌, ℕ, List, [], IfSome, MatchOption, Some};
ghost use Rattle.std.specs.Str.Parse.{IsNumeral, without_leading_plus};
ghost use Rattle.command_line.specs.Sizes.{IsUnit, SpellsBytes, SpellsSize};
ghost use Rattle.command_line.specs.declared.limits.TheConstants.{MAX_SECTORS, MIN_SECTORS};

use crate::limits::{MAX_SECTORS, MIN_SECTORS};

/// The bytes of a sector.
const SECTOR: u64 = 512;

/// The number of sectors that a size needs, if a file may have that many. A size is decimal digits and a unit: `K`, `M` or
/// `G` for 1,024 bytes, their square or their cube, or nothing for bytes.
pub(crate) fn sectors_of_size(text: &str) -> Option<u64>
    ensures in_range { IfSome result (λ n. (MIN_SECTORS ≤ n) × (n ≤ MAX_SECTORS)) }
    ensures sound { IfSome result (SpellsSize text.now) }
    ensures held { (sectors : ℕ) → MIN_SECTORS ≤ sectors → sectors ≤ MAX_SECTORS → SpellsSize text.now sectors → result ≡ Some sectors }
{
    let sectors = sectors_needed(text)?;
    if MIN_SECTORS <= sectors && sectors <= MAX_SECTORS {
        Some(sectors)
    } else {
        None
    }
}

// The sectors that the bytes of a size need.
fn sectors_needed(text: &str) -> Option<u64>
    ensures sound { IfSome result (SpellsSize text.now) }
    ensures held { (sectors : ℕ) → sectors ≤ MAX_SECTORS → SpellsSize text.now sectors → result ≡ Some sectors }
{
    let bytes = bytes_of_size(text)?;
    Some(bytes.div_ceil(SECTOR))
}

// The bytes of a size.
fn bytes_of_size(text: &str) -> Option<u64>
    ensures sound { IfSome result (SpellsBytes text.now) }
    ensures held { (bytes : ℕ) → bytes < 2 ^ 64 → SpellsBytes text.now bytes → result ≡ Some bytes }
{
    let (digits, unit) = split_unit(text);
    match u64::from_str_radix(digits, 10) {
        Ok(number) => number.checked_mul(unit),
        Err(_) => None,
    }
}

// The digits of a size, and the bytes of its unit.
fn split_unit(text: &str) -> (&str, u64)
    ensures parts { (letter : List ℕ) × (text.now ≡ result.0.now ++ letter) × IsUnit letter result.1 }
    ensures one { (digits letter : List ℕ) (unit : ℕ) → text.now ≡ digits ++ letter → IsUnit letter unit → IsNumeral 10 (without_leading_plus digits)
        → (digits ≡ result.0.now) × (unit ≡ result.1) }
{
    if let Some(digits) = before(text, 'K') {
        (digits, 1 << 10)
    } else if let Some(digits) = before(text, 'M') {
        (digits, 1 << 20)
    } else if let Some(digits) = before(text, 'G') {
        (digits, 1 << 30)
    } else {
        (text, 1)
    }
}

// The text before that letter, if it is the last one.
fn before(text: &str, letter: char) -> Option<&str>
    requires { letter < 128 }
    ensures { MatchOption result ((front : List ℕ) → text.now ≢ front ++ (letter ∷ [])) (λ x. text.now ≡ x.now ++ (letter ∷ [])) }
{
    text.strip_suffix(letter)
}
