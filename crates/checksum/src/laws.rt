//! Laws of the checksum. Each function does nothing: its contract is the law.
ghost use Rattle.std.specs.Prelude.{◌≡◌, ◌≢◌, ◌<◌, ◌≤◌, ◌∷◌, ◌++◌, [], Bool, List, ℕ, length};
ghost use Rattle.checksum.specs.Crc.{crc_of, crc_of_bits};

/// It finds a burst: bits with one checksum don't differ in at most 32 bits one after another alone.
pub fn bursts_are_found()
    ensures { (front one other back : List Bool) → length one ≡ length other → length one ≤ 32 → one ≢ other
        → crc_of_bits (front ++ one ++ back) ≢ crc_of_bits (front ++ other ++ back) }
{}

/// It finds a flipped bit, whichever it is and however many bits there are.
pub fn one_bit_is_found()
    ensures { (front back : List Bool) (one other : Bool) → one ≢ other → crc_of_bits (front ++ one ∷ back) ≢ crc_of_bits (front ++ other ∷ back) }
{}

/// It finds a wrong byte, wherever it is and however many bytes there are.
pub fn one_byte_is_found()
    ensures { (front back : List ℕ) (one other : ℕ) → one < 256 → other < 256 → one ≢ other → crc_of (front ++ one ∷ back) ≢ crc_of (front ++ other ∷ back) }
{}
