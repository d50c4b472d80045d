// What a line asks for: `keep`, the day asked, the number of terms, their first and last days, and the
// copies.
ghost use Rattle.std.specs.Prelude.{◌≤◌};

use text::fields::{field, number_at};
use text::pieces::{is_word, pieces};

const SPACE: u8 = 32;

// More than a list may have, so that one that is too long can be tried.
const MOST: usize = 300;

// The day, and how many days of terms and copies follow.
#[derive(Drop)]
pub struct Asked {
    pub day: u32,
    pub term_days: usize,
    pub copies: usize,
    ghost terms_fit: { term_days ≤ 300 },
    ghost copies_fit: { copies ≤ 300 },
}

pub fn counts(cmd: &[u8]) -> Option<Asked> {
    let day = u32::try_from(number_at(cmd, 1)?).ok()?;
    let terms = number_at(cmd, 2)?;
    if !is_word(field(cmd, 0), b"keep") || MOST / 2 < terms {
        return None;
    }
    let term_days = 2 * terms;
    let copies = pieces(cmd, SPACE).checked_sub(3 + term_days)?;
    if MOST < copies {
        return None;
    }
    Some(Asked {
        day,
        term_days,
        copies,
    })
}
