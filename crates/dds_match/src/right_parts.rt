//! Which right parts of a name a pattern stands for, a bit for each.
ghost use Rattle.std.specs.Prelude.{◌≡◌, ℕ, ◌+◌, ◌%◌, ◌^◌, ◌<◌, ◌==◌, not, List, ◌∷◌, length};
ghost use Rattle.std.specs.Int.{bit_at};
ghost use Rattle.dds_match.specs.Partitions.{name_matches};
ghost use Rattle.dds_match.specs.RightParts.{AreBeginnings, ArePartsWith};

/// The most bytes of a name whose right parts have bits in a word, the empty one among them.
pub(crate) const MOST_BYTES: usize = 127;

/// The right parts of a name by their first bytes. In a word of bits, bit k is for the part of k bytes.
#[derive(Drop)]
pub(crate) struct RightParts<'a> {
    name: &'a [u8],
    /// For each byte of a pattern but `*`, the parts whose first byte it stands for.
    beginnings: [u128; 256],
    ghost short: { length name.now < 128 },
    ghost beginnings_are: { AreBeginnings name.now beginnings },
}

impl<'a> RightParts<'a> {
    /// Those of a name of at most `MOST_BYTES` bytes.
    pub(crate) fn of(name: &'a [u8]) -> RightParts<'a>
        requires { length name.now < 128 }
        ensures { result.name.now ≡ name.now }
    {
        let mut beginnings = [0u128; 256];
        beginnings[b'?' as usize] = u128::MAX;
        for (at, byte) in name.iter().enumerate() {
            beginnings[*byte as usize] |= 1 << (name.len() - at);
        }
        RightParts { name, beginnings }
    }

    /// Whether the name has the pattern.
    pub(crate) fn have(&self, pattern: &[u8]) -> bool
        ensures { result ≡ name_matches pattern.now self.now.name.now }
    {
        let mut parts: u128 = 1;
        for byte in pattern.iter().rev() {
            parts = self.preceded(parts, *byte);
            if parts == 0 {
                return false;
            }
        }
        parts >> self.name.len() & 1 == 1
    }

    // The parts that have a pattern with this byte before it, from those that have the pattern.
    fn preceded(&self, parts: u128, byte: u8) -> u128
        ensures { (pattern : List ℕ) → ArePartsWith pattern self.now.name.now parts
            → ArePartsWith (byte ∷ pattern) self.now.name.now result }
    {
        if byte == b'*' {
            or_longer(parts)
        } else {
            parts << 1 & self.beginnings[byte as usize]
        }
    }
}

// These parts and all longer ones: bit k is set where one up to it is.
fn or_longer(parts: u128) -> u128
    ensures { (k : ℕ) → k < 128 → (bit_at result k == 1) ≡ not (parts % 2 ^ (k + 1) == 0) }
{
    parts | parts.wrapping_neg()
}
