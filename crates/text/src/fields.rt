// Fields of a line, which single spaces part.
ghost use Rattle.std.specs.Prelude.{◌≡◌, ◌+◌, ◌<◌, ◌^◌, ℕ, IfSome, Some, length, slice_index};
ghost use Rattle.text.specs.Number.{number_of};
ghost use Rattle.text.specs.Pieces.{piece};

use crate::numbers::number;
use crate::pieces::piece;

const SPACE: u8 = 32;

// Field k of a line; empty if there are fewer.
pub fn field(line: &[u8], k: usize) -> &[u8]
    ensures { result.now ≡ piece line.now 32 k }
{
    piece(line, SPACE, k)
}

// The number that field k is.
pub fn number_at(line: &[u8], k: usize) -> Option<usize>
    ensures { result ≡ number_of (piece line.now 32 k) }
{
    number(field(line, k))
}

// The numbers of the fields from `first` on, as many as there is room for; none if one is no number
// of 32 bits.
pub fn take_numbers(line: &[u8], first: usize, numbers: &mut [u32]) -> Option<()>
    requires { first + length numbers.old < 2 ^ 64 }
    ensures { IfSome result (λ _. (k : ℕ) → k < length numbers.old → number_of (piece line.now 32 (first + k)) ≡ Some (slice_index numbers.new k)) }
{
    for (k, to) in numbers.iter_mut().enumerate() {
        *to = u32::try_from(number_at(line, first + k)?).ok()?;
    }
    Some(())
}
