// A text taken apart into pieces that a byte parts: fields by a space, lines by a newline.
ghost use Rattle.std.specs.Prelude.{◌≡◌, ◌≤◌, length, take};
ghost use Rattle.text.specs.Pieces.{find_from, rest, piece, pieces, is_word};

// The place of the first x from o on, or the end. By places: over `s[o..]` and `position` empty pieces cost
// nearly twice as much.
pub fn find(s: &[u8], x: u8, o: usize) -> usize
    ensures { (result ≡ find_from s.now x o) × (result ≤ length s.now) }
{
    (o..s.len()).find(|&k| s[k] == x).unwrap_or(s.len())
}

// All of s from piece k on, counted from 0; empty if there are fewer.
pub fn rest(s: &[u8], x: u8, k: usize) -> &[u8]
    ensures { result.now ≡ rest s.now x k }
{
    let mut o = 0;
    for j in 0..k {
        o = find(s, x, o) + 1;
    }
    if o < s.len() {
        return &s[o..];
    }
    &s[0..0]
}

// Piece k of s; empty if there are fewer.
pub fn piece(s: &[u8], x: u8, k: usize) -> &[u8]
    ensures { result.now ≡ piece s.now x k }
{
    let from = rest(s, x, k);
    front(from, find(from, x, 0))
}

// How many pieces s has: one more than it has bytes that part them.
pub fn pieces(s: &[u8], x: u8) -> usize
    ensures { result ≡ pieces s.now x }
{
    s.iter().filter(|&&b| b == x).count() + 1
}

// The same bytes. Its callers give byte strings, which `==` takes only as `b"..".as_slice()`.
pub fn is_word(s: &[u8], w: &[u8]) -> bool
    ensures { result ≡ is_word s.now w.now }
{
    s == w
}

// The first k bytes of s, or all.
pub fn front(s: &[u8], k: usize) -> &[u8]
    ensures { result.now ≡ take k s.now }
{
    &s[..k.min(s.len())]
}
