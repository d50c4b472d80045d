// Bytes in hex.
ghost use Rattle.std.specs.Prelude.{◌≡◌, ◌<◌, true};
ghost use Rattle.std.specs.Char.{is_ascii_hexdigit};
ghost use Rattle.std.specs.List.{list_all};
ghost use Rattle.text.specs.Hex.{hex_value, is_hex, hex_count, take_hex};

use crate::pieces::is_word;

// What a digit is worth.
fn digit(x: u8) -> u8
    requires { is_ascii_hexdigit x ≡ true }
    ensures { (result ≡ hex_value x) × (result < 16) }
{
    match x {
        b'0'..=b'9' => x - b'0',
        b'A'..=b'F' => x - b'A' + 10,
        b'a'..=b'f' => x - b'a' + 10,
        _ => unreachable!(),
    }
}

fn are_digits(s: &[u8]) -> bool
    ensures { result ≡ list_all is_ascii_hexdigit s.now }
{
    s.iter().all(|x| x.is_ascii_hexdigit())
}

// Two digits for each byte, and not none.
fn is_hex(s: &[u8]) -> bool
    ensures { result ≡ is_hex s.now }
{
    !s.is_empty() && s.len() % 2 == 0 && are_digits(s)
}

// How many bytes s is in hex, if there is room for them.
pub fn hex_count(s: &[u8], room: usize) -> Option<usize>
    ensures { result ≡ hex_count s.now room }
{
    if is_word(s, b"-") {
        return Some(0);
    }
    let n = s.len() / 2;
    if n <= room && is_hex(s) {
        Some(n)
    } else {
        None
    }
}

// The bytes that s is in hex go to the front of out; none if there is no room for all.
pub fn take_hex(s: &[u8], out: &mut [u8])
    ensures { out.new ≡ take_hex s.now out.old }
{
    let Some(n) = hex_count(s, out.len()) else {
        return;
    };
    // k is a place in out, and 2 k one in s: a zip with s's pairs says no more.
    for k in 0..n {
        out[k] = 16 * digit(s[2 * k]) + digit(s[2 * k + 1]);
    }
}
