//! Sets of numbers below a bound.
ghost use Rattle.std.specs.Prelude.{◌≡◌, ℕ, ◌+◌, ◌*◌, ◌<◌, ◌≤◌, ◌^◌, false, length, replicate, MatchOption};
ghost use Rattle.std.specs.Int.{bit_at};
ghost use Rattle.schema_levels.specs.Bits.{bit, mark_all, put, IsLast, IsLastIn};

/// Whether the number is in the set.
#[tactic(auto, unfolding(crate::specs::Bits::put))]
pub fn bit(words: &[u64], number: usize) -> bool
    ensures { result ≡ bit words.now number }
{
    match words.get(number / 64) {
        Some(word) => (*word >> (number % 64)) & 1 == 1,
        None => false,
    }
}

/// Says whether the number is in it; past the last word nothing changes.
#[tactic(auto, unfolding(crate::specs::Bits::put))]
pub fn write(words: &mut [u64], number: usize, is_in: bool)
    ensures { words.new ≡ put words.old number is_in }
{
    let at = number / 64;
    if at < words.len() {
        let mask = 1u64 << (number % 64);
        if is_in {
            words[at] |= mask;
        } else {
            words[at] &= !mask;
        }
    }
}

/// Puts the numbers into the set.
pub fn mark_each(numbers: &[usize], words: &mut [u64])
    ensures { words.new ≡ mark_all numbers.now words.old }
{
    for number in numbers {
        write(words, *number, true);
    }
}

/// Says the same word of all.
pub fn fill(words: &mut [u64], word: u64)
    ensures { words.new ≡ replicate (length words.old) word }
{
    words.fill(word);
}

/// The first number from there on that may be in the set: none between is.
pub fn next(words: &[u64], from: usize) -> usize
    requires { length words.now < 2 ^ 32 }
    ensures at_least { from ≤ result }
    ensures none { (j : ℕ) → from ≤ j → j < result → bit words.now j ≡ false }
{
    let at = from / 64;
    if at < words.len() {
        let found = first_in(words[at], from % 64);
        if found < 64 {
            return at * 64 + found;
        }
        return next_word(words, at + 1);
    }
    from
}

// The place of the first 1 of the word from there on; 64 if there is none.
fn first_in(word: u64, from: usize) -> usize
    requires { from < 64 }
    ensures at_least { from ≤ result }
    ensures at_most { result ≤ 64 }
    ensures none { (k : ℕ) → from ≤ k → k < result → bit_at word k ≡ 0 }
{
    let left = word >> from;
    if left == 0 {
        64
    } else {
        from + left.trailing_zeros() as usize
    }
}

// The first number in the words from there on; past them all if there is none.
fn next_word(words: &[u64], first: usize) -> usize
    requires first { first ≤ length words.now }
    requires short { length words.now < 2 ^ 32 }
    ensures at_least { 64 * first ≤ result }
    ensures none { (j : ℕ) → 64 * first ≤ j → j < result → bit words.now j ≡ false }
{
    for at in first..words.len() {
        if words[at] != 0 {
            return at * 64 + first_in(words[at], 0);
        }
    }
    words.len() * 64
}

/// The last number below that one that is in the set.
pub fn last(words: &[u64], upto: usize) -> Option<usize>
    requires { length words.now < 2 ^ 32 }
    ensures { MatchOption result ((j : ℕ) → j < upto → bit words.now j ≡ false) (λ n. IsLast words.now upto n) }
{
    let at = upto / 64;
    if at < words.len() {
        if let Some(found) = last_in(words[at], upto % 64) {
            return Some(at * 64 + found);
        }
        return last_word(words, at);
    }
    last_word(words, words.len())
}

// The place of the last 1 of the word below that one.
fn last_in(word: u64, upto: usize) -> Option<usize>
    requires { upto < 64 }
    ensures { MatchOption result ((k : ℕ) → k < upto → bit_at word k ≡ 0) (λ n. IsLastIn word upto n) }
{
    let low = word % (1u64 << upto);
    if low == 0 {
        None
    } else {
        Some(63 - low.leading_zeros() as usize)
    }
}

// The last number in the words before that one.
fn last_word(words: &[u64], upto: usize) -> Option<usize>
    requires upto { upto ≤ length words.now }
    requires short { length words.now < 2 ^ 32 }
    ensures { MatchOption result ((j : ℕ) → j < 64 * upto → bit words.now j ≡ false) (λ n. IsLast words.now (64 * upto) n) }
{
    for at in (0..upto).rev() {
        if words[at] != 0 {
            return Some(at * 64 + (63 - words[at].leading_zeros() as usize));
        }
    }
    None
}
