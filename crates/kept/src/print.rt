// The line that answers a command.
ghost use Rattle.std.specs.Prelude.{◌≡◌, ◌+◌, ◌≤◌, length};

use text::print::print_line;
use text::put::{put, put_numbered};

fn letter(flag: u8) -> u8 {
    if flag == 1 { b'k' } else { b'g' }
}

fn put_letters(out: &mut [u8], o: usize, flags: &[u8]) -> usize
    requires { (o + length flags.now ≤ length out.old) × (length flags.now ≤ 300) }
    ensures { result ≡ o + length flags.now }
{
    for (k, &flag) in flags.iter().enumerate() {
        out[o + k] = letter(flag);
    }
    o + flags.len()
}

// A space and the letters; nothing for no copy.
fn put_flags(out: &mut [u8], o: usize, flags: &[u8]) -> usize
    requires { (o + 1 + length flags.now ≤ length out.old) × (length flags.now ≤ 300) }
    ensures { result ≤ o + 1 + length flags.now }
{
    if flags.is_empty() {
        return o;
    }
    let e = put(&mut *out, o, b" ");
    put_letters(out, e, flags)
}

// How many are kept, and a letter for each copy.
pub fn print_kept(kept: usize, flags: &[u8])
    requires { length flags.now ≤ 300 }
{
    let mut out = [0u8; 400];
    let a = put_numbered(&mut out, 0, b"ok ", kept);
    let e = put_flags(&mut out, a, flags);
    print_line(&mut out, e);
}
