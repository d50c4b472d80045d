// Decimal numbers.
ghost use Rattle.std.specs.Prelude.{◌≡◌};
ghost use Rattle.text.specs.Number.{number_of};

const ZERO: u8 = 48;

// The number that s is; the largest usize if that is less.
pub fn number(s: &[u8]) -> Option<usize>
    ensures { result ≡ number_of s.now }
{
    if s.is_empty() {
        return None;
    }
    let mut v: usize = 0;
    for &x in s {
        if !x.is_ascii_digit() {
            return None;
        }
        v = v.saturating_mul(10).saturating_add(usize::from(x - ZERO));
    }
    Some(v)
}
