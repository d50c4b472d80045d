// The 64-bit FNV-1a checksum.
#![tactic(auto)]

ghost use Rattle.std.specs.Prelude.{◌≡◌};
ghost use Rattle.checksum.specs.Checksum.{checksum};

const BASIS: u64 = 14695981039346656037;

const PRIME: u64 = 1099511628211;

pub fn checksum(s: &[u8]) -> u64
    ensures { result ≡ checksum s.now }
{
    s.iter()
        .fold(BASIS, |h, x| (h ^ u64::from(*x)).wrapping_mul(PRIME))
}
