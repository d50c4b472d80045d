// Bytes of a slice: numbers low byte first, ranges zeroed and copied, bytes tested eight at once.
#![tactic(auto)]

ghost use Rattle.std.specs.Prelude.{◌≡◌, not, ◌||◌, ◌+◌, ◌*◌, ◌<◌, ◌≤◌, eqb, length, get_or};
ghost use Rattle.bounded.specs.Below.{all_below};
ghost use Rattle.octets.specs.Octets.{part, splice, num_at, put_num, zeroed, pasted};
ghost use Rattle.octets.specs.Flags.{flags};

// Eight bytes, each 1, 127 or 128.
const ONES: u64 = 0x0101_0101_0101_0101;

pub const LOWS: u64 = 0x7f7f_7f7f_7f7f_7f7f;

pub const HIGHS: u64 = 0x8080_8080_8080_8080;

// The N bytes from o on.
fn bytes<const N: usize>(s: &[u8], o: usize) -> [u8; N]
    requires { o + N ≤ length s.now }
    ensures { result ≡ part s.now o N }
{
    *s[o..o + N].as_array().unwrap()
}

// ---- numbers, one function for each width as the library has from_le_bytes: a trait would need an impl for each, with
// the same bodies, and a const width would have every caller cast an answer of 64 bits.
pub fn get_8(s: &[u8], o: usize) -> u8
    requires { o + 1 ≤ length s.now }
    ensures { result ≡ num_at 1 s.now o }
{
    s[o]
}

pub fn get_16(s: &[u8], o: usize) -> u16
    requires { o + 2 ≤ length s.now }
    ensures { result ≡ num_at 2 s.now o }
{
    u16::from_le_bytes(bytes(s, o))
}

pub fn get_32(s: &[u8], o: usize) -> u32
    requires { o + 4 ≤ length s.now }
    ensures { result ≡ num_at 4 s.now o }
{
    u32::from_le_bytes(bytes(s, o))
}

pub fn get_48(s: &[u8], o: usize) -> u64
    requires { o + 6 ≤ length s.now }
    ensures { result ≡ num_at 6 s.now o }
{
    u64::from(get_32(s, o)) + 4294967296 * u64::from(get_16(s, o + 4))
}

pub fn get_64(s: &[u8], o: usize) -> u64
    requires { o + 8 ≤ length s.now }
    ensures { result ≡ num_at 8 s.now o }
{
    u64::from_le_bytes(bytes(s, o))
}

// The bytes xs go to s, from o on.
fn put_bytes(s: &mut [u8], o: usize, xs: &[u8])
    requires { o + length xs.now ≤ length s.old }
    ensures { s.new ≡ splice s.old o xs.now }
{
    s[o..o + xs.len()].copy_from_slice(xs);
}

pub fn put_8(s: &mut [u8], o: usize, v: u8)
    requires { o + 1 ≤ length s.old }
    ensures { s.new ≡ put_num 1 s.old o v }
{
    s[o] = v;
}

pub fn put_16(s: &mut [u8], o: usize, v: u16)
    requires { o + 2 ≤ length s.old }
    ensures { s.new ≡ put_num 2 s.old o v }
{
    put_bytes(s, o, &u16::to_le_bytes(v));
}

pub fn put_32(s: &mut [u8], o: usize, v: u32)
    requires { o + 4 ≤ length s.old }
    ensures { s.new ≡ put_num 4 s.old o v }
{
    put_bytes(s, o, &u32::to_le_bytes(v));
}

pub fn put_64(s: &mut [u8], o: usize, v: u64)
    requires { o + 8 ≤ length s.old }
    ensures { s.new ≡ put_num 8 s.old o v }
{
    put_bytes(s, o, &u64::to_le_bytes(v));
}

pub fn zero_range(s: &mut [u8], o: usize, k: usize)
    requires { o + k ≤ length s.old }
    ensures { s.new ≡ zeroed s.old o k }
{
    s[o..o + k].fill(0);
}

// ---- a range copied
// By loops: the library's file may want no memmove from outside, which copy_from_slice compiles to.
// The m words of eight bytes of s from p on go to d, from o on: each is read before it is written, so that no byte waits for another.
fn copy_words(d: &mut [u8], o: usize, s: &[u8], p: usize, m: usize)
    requires { (o + 8 * m ≤ length d.old) × (p + 8 * m ≤ length s.now) }
    ensures { d.new ≡ pasted d.old o s.now p (8 * m) }
{
    for j in 0..m {
        put_64(&mut *d, o + 8 * j, get_64(s, p + 8 * j));
    }
}

// The k bytes of s from p on, one by one.
fn copy_bytes(d: &mut [u8], o: usize, s: &[u8], p: usize, k: usize)
    requires { (o + k ≤ length d.old) × (p + k ≤ length s.now) }
    ensures { d.new ≡ pasted d.old o s.now p k }
{
    for j in 0..k {
        d[o + j] = s[p + j];
    }
}

// The k bytes of s from p on go to d, from o on: as words, then those that are left.
pub fn copy_range(d: &mut [u8], o: usize, s: &[u8], p: usize, k: usize)
    requires { (o + k ≤ length d.old) × (p + k ≤ length s.now) }
    ensures { d.new ≡ pasted d.old o s.now p k }
{
    copy_words(&mut *d, o, s, p, k / 8);
    copy_bytes(&mut *d, o + 8 * (k / 8), s, p + 8 * (k / 8), k % 8);
}

// ---- zero bytes
// The m words of eight bytes from o on are 0. By a loop: `(0..m).all(..)` takes 350 ns in place of 250 for 4,096 zero bytes.
pub fn words_zero(s: &[u8], o: usize, m: usize) -> bool
    requires { o + 8 * m ≤ length s.now }
    ensures { result ≡ all_below (λ j. eqb (get_or s.now (o + j) 0) 0) (8 * m) }
{
    for j in 0..m {
        if get_64(s, o + 8 * j) != 0 {
            return false;
        }
    }
    true
}

// The k bytes from o on are 0: as words, then those that are left.
pub fn all_zero(s: &[u8], o: usize, k: usize) -> bool
    requires { o + k ≤ length s.now }
    ensures { result ≡ all_below (λ j. eqb (get_or s.now (o + j) 0) 0) k }
{
    words_zero(s, o, k / 8) && s[o + 8 * (k / 8)..o + k].iter().all(|b| *b == 0)
}

// ---- eight bytes at once
// 128 for each byte of w that is not 0, and 0 for one that is. A byte's low bits and 127 make less than 256, so no sum reaches the next byte.
fn nonzero(w: u64) -> u64
    ensures { result ≡ flags 8 w }
{
    (((w & LOWS) + LOWS) | w) & HIGHS
}

// None of the eight bytes from o on is x.
pub fn without(s: &[u8], o: usize, x: u8) -> bool
    requires { o + 8 ≤ length s.now }
    ensures { result ≡ all_below (λ j. not (eqb (get_or s.now (o + j) 0) x)) 8 }
{
    nonzero(get_64(s, o) ^ (ONES * u64::from(x))) == HIGHS
}

// Where one of the eight bytes from o on is 0, the next is.
pub fn zeros_last(s: &[u8], o: usize) -> bool
    requires { o + 9 ≤ length s.now }
    ensures { result ≡ all_below (λ j. not (eqb (get_or s.now (o + j) 0) 0) || eqb (get_or s.now (o + 1 + j) 0) 0) 8 }
{
    let a = nonzero(get_64(s, o));
    a | nonzero(get_64(s, o + 1)) == a
}
