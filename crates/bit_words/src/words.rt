//! Bits in words of 64, numbered through all words: set, cleared, and the lowest of a kind.

ghost use Rattle.std.specs.Prelude.{◌≡◌, ◌*◌, ◌^◌, ◌<◌, length, position, nat_lt, IfSome, MatchOption};
ghost use Rattle.bit_words.specs.Words.{AreAll, IsLowestClear, IsLowestSet, ChangesBit};

/// The bits of a word.
pub const WIDTH: u32 = 64;

// The first word that has a clear bit.
fn first_with_clear(words: &[u64]) -> Option<usize>
    ensures place { result ≡ position (λ word. nat_lt word u64.MAX) words.now }
    ensures within { IfSome result (λ i. i < length words.now) }
{
    words.iter().position(|word| *word < u64::MAX)
}

// The first word that has a set bit.
fn first_with_set(words: &[u64]) -> Option<usize>
    ensures place { result ≡ position (λ word. nat_lt 0 word) words.now }
    ensures within { IfSome result (λ i. i < length words.now) }
{
    words.iter().position(|word| 0 < *word)
}

/// The lowest clear bit, or none where all are set. It takes a step for each word.
pub fn lowest_clear(words: &[u64]) -> Option<u32>
    requires { length words.now < 2 ^ 25 }
    ensures { MatchOption result (AreAll 1 words.now) (IsLowestClear words.now) }
{
    match first_with_clear(words) {
        None => None,
        Some(i) => Some(WIDTH * i as u32 + words[i].trailing_ones()),
    }
}

/// The lowest set bit, or none where all are clear. It takes a step for each word.
pub fn lowest_set(words: &[u64]) -> Option<u32>
    requires { length words.now < 2 ^ 25 }
    ensures { MatchOption result (AreAll 0 words.now) (IsLowestSet words.now) }
{
    match first_with_set(words) {
        None => None,
        Some(i) => Some(WIDTH * i as u32 + words[i].trailing_zeros()),
    }
}

/// Sets a bit.
pub fn set(words: &mut [u64], i: u32)
    requires { i < 64 * length words.old }
    ensures { ChangesBit i 1 words.old words.new }
{
    words[(i / WIDTH) as usize] |= 1 << (i % WIDTH);
}

/// Clears a bit.
pub fn clear(words: &mut [u64], i: u32)
    requires { i < 64 * length words.old }
    ensures { ChangesBit i 0 words.old words.new }
{
    words[(i / WIDTH) as usize] &= !(1 << (i % WIDTH));
}
