// What a line asks for: `laps`, two counts, and as many watch times and mat times.
ghost use Rattle.std.specs.Prelude.{◌≤◌, IfSome};

use text::fields::{field, number_at};
use text::pieces::{is_word, pieces};

const SPACE: u8 = 32;

// More than a list may have, so that one that is too long can be tried.
const MOST: usize = 600;

// How many watch times and mat times a command has.
pub fn counts(cmd: &[u8]) -> Option<(usize, usize)>
    ensures { IfSome result (λ (w, m). (w ≤ 600) × (m ≤ 600)) }
{
    let watch = number_at(cmd, 1)?;
    let mat = number_at(cmd, 2)?;
    if !is_word(field(cmd, 0), b"laps") || MOST < watch || MOST < mat {
        return None;
    }
    (pieces(cmd, SPACE) == 3 + watch + mat).then_some((watch, mat))
}
