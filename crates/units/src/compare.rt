// Comparison of a candidate with what is stored.
// No branch depends on a stored byte: what time a refused candidate takes says nothing of what is stored.
ghost use Rattle.std.specs.Prelude.{◌≡◌, ℕ, ◌≤◌, true, bit_or, bit_xor};
ghost use Rattle.std.specs.List.{fold, zip};
ghost use Rattle.std.specs.Str.{bytes_eq};
ghost use Rattle.units.specs.Kept.{stored, tidy};

use crate::stored::Stored;

// The differences of two texts as far as both go, gathered into those that there were.
fn differences(before: u8, one: &[u8], other: &[u8]) -> u8
    ensures { result ≡ fold (λ (d : ℕ) (p : ℕ × ℕ). bit_or d (bit_xor p.0 p.1)) before (zip one.now other.now) }
{
    one.iter()
        .zip(other)
        .fold(before, |sum, (byte, other)| sum | byte ^ other)
}

impl<const N: usize> Stored<N> {
    // Whether the candidate is what is stored. One that is longer than the array differs by its length alone; of any other every byte is
    // compared, whatever came before, and the lengths are compared in the same sum of differences.
    pub(crate) fn is_same(&self, candidate: &[u8]) -> bool
        requires small { N ≤ 255 }
        requires tidy { tidy self.now ≡ true }
        ensures { result ≡ bytes_eq (stored self.now) candidate.now }
    {
        let len = candidate.len();
        if len > N {
            return false;
        }
        let lengths = self.len ^ len as u8;
        differences(lengths, candidate, &self.bytes) == 0
    }
}
