// Sixteen digits, bay 0's first: 1 for a bay that runs, 0 for one that does not.
use dealer::BAYS;

// A digit that is missing counts as 0.
pub fn flags(digits: &[u8]) -> [bool; BAYS] {
    std::array::from_fn(|bay| digits.get(bay) == Some(&b'1'))
}

// The flags that the digits are; none if they are no flags.
pub fn flags_in(digits: &[u8]) -> Option<[bool; BAYS]> {
    if digits.len() == BAYS && digits.iter().all(|digit| matches!(digit, b'0' | b'1')) {
        Some(flags(digits))
    } else {
        None
    }
}
