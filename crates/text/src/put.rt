// Text into a buffer: words, numbers and bytes.
// Buffer and end stay apart: `Put` and the theorems on lines (`line_text`, `printed_text`) name both.
ghost use Rattle.std.specs.Prelude.{◌≡◌, ◌++◌, ◌+◌, ◌*◌, ◌^◌, ◌<◌, ◌≤◌, length};
ghost use Rattle.io.specs.Digits.{last_digits};
ghost use Rattle.text.specs.Put.{Put, decimal_text, pair_text, bytes_text};

// The text at o; where it ends.
pub fn put(out: &mut [u8], o: usize, text: &[u8]) -> usize
    requires { o + length text.now ≤ length out.old }
    ensures { Put out.old o text.now result out.new }
{
    out[o..o + text.len()].copy_from_slice(text);
    o + text.len()
}

// A word, and a number after it.
pub fn put_numbered(out: &mut [u8], o: usize, word: &[u8], n: usize) -> usize
    requires { o + length word.now + 20 ≤ length out.old }
    ensures put { Put out.old o (word.now ++ decimal_text n) result out.new }
    ensures upper_bound { result ≤ o + length word.now + 20 }
{
    let mut digits = [0u8; 20];
    let k = io::decimal(n as u64, &mut digits);
    let e = put(&mut *out, o, word);
    put(out, e, &digits[..k])
}

// Two numbers, the first after a word.
pub fn put_pair(out: &mut [u8], o: usize, word: &[u8], a: usize, b: usize) -> usize
    requires { o + length word.now + 41 ≤ length out.old }
    ensures put { Put out.old o (pair_text word.now a b) result out.new }
    ensures upper_bound { result ≤ o + length word.now + 41 }
{
    let e = put_numbered(&mut *out, o, word, a);
    put_numbered(out, e, b" ", b)
}

// A number in k hex digits.
pub fn put_hex(out: &mut [u8], o: usize, n: u64, k: usize) -> usize
    requires { (o + k ≤ length out.old) × (1 ≤ k) × (k ≤ 16) × (n < 16 ^ k) }
    ensures put { Put out.old o (last_digits 16 k n) result out.new }
    ensures value { result ≡ o + k }
{
    let mut digits = [0u8; 16];
    let m = io::hex(n, k, &mut digits);
    put(out, o, &digits[..m])
}

// Bytes in hex, `-` for none.
pub fn put_bytes(out: &mut [u8], o: usize, bytes: &[u8]) -> usize
    requires { o + 1 + 2 * length bytes.now ≤ length out.old }
    ensures put { Put out.old o (bytes_text bytes.now) result out.new }
    ensures upper_bound { result ≤ o + 1 + 2 * length bytes.now }
{
    if bytes.is_empty() {
        return put(out, o, b"-");
    }
    let mut e = o;
    for &x in bytes {
        e = put_hex(&mut *out, e, u64::from(x), 2);
    }
    e
}
