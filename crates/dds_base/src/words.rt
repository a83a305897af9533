//! 256 flags in four words of 64 bits.

ghost use Rattle.std.specs.Prelude.{◌≡◌, ℕ, ◌≤◌, ◌<◌, true, false, set, MatchOption, slice_index_or};
ghost use Rattle.std.specs.Int.{bit_at};
ghost use Rattle.dds_base.specs.Words.{flags_in, AreWords};

// Whether a flag is set.
pub(crate) fn is_set(words: &[u64; 4], k: usize) -> bool
    requires { k < 256 }
    ensures { result ≡ slice_index_or (flags_in words.now) k false }
{
    words[k / 64] >> (k % 64) & 1 == 1
}

// Sets a flag.
pub(crate) fn set_flag(words: &mut [u64; 4], k: usize)
    requires { k < 256 }
    ensures flags { flags_in words.new ≡ set (flags_in words.old) k true }
    ensures words { AreWords words.old → AreWords words.new }
{
    words[k / 64] |= 1 << (k % 64);
}

// Clears a flag.
pub(crate) fn clear_flag(words: &mut [u64; 4], k: usize)
    requires { k < 256 }
    ensures flags { flags_in words.new ≡ set (flags_in words.old) k false }
    ensures words { AreWords words.old → AreWords words.new }
{
    words[k / 64] &= !(1 << (k % 64));
}

// The first set bit of a word, from one on.
fn next_bit(word: u64, from: u32) -> Option<u32>
    requires { from < 64 }
    ensures { MatchOption result
        ((i : ℕ) → from ≤ i → bit_at word i ≡ 0)
        (λ i. (from ≤ i) × (i < 64) × (bit_at word i ≡ 1) × ((j : ℕ) → from ≤ j → j < i → bit_at word j ≡ 0)) }
{
    let rest = word >> from;
    if rest == 0 {
        None
    } else {
        Some(from + rest.trailing_zeros())
    }
}

// The first set flag, from one on.
pub(crate) fn next_flag(words: &[u64; 4], from: usize) -> Option<usize>
    ensures { MatchOption result
        ((k : ℕ) → from ≤ k → slice_index_or (flags_in words.now) k false ≡ false)
        (λ k. (from ≤ k) × (k < 256) × (slice_index_or (flags_in words.now) k false ≡ true)
        × ((j : ℕ) → from ≤ j → j < k → slice_index_or (flags_in words.now) j false ≡ false)) }
{
    for at in from / 64..4 {
        let first = if at == from / 64 { from % 64 } else { 0 };
        if let Some(bit) = next_bit(words[at], first as u32) {
            return Some(at * 64 + bit as usize);
        }
    }
    None
}
