// The line that answers a command.
ghost use Rattle.std.specs.Prelude.{◌≡◌, ◌+◌, ◌*◌, ◌≤◌, length};

use text::print::print_line;
use text::put::{put_numbered, put_pair};

// Each time after a space.
fn put_times(out: &mut [u8], o: usize, times: &[u32]) -> usize
    requires { (o + 21 * length times.now ≤ length out.old) × (length times.now ≤ 600) }
    ensures { result ≤ o + 21 * length times.now }
{
    let mut e = o;
    for &time in times {
        e = put_numbered(&mut *out, e, b" ", time as usize);
    }
    e
}

// Each watch time with its mat time.
fn put_pairs(out: &mut [u8], o: usize, watch: &[u32], mat: &[u32]) -> usize
    requires { (o + 42 * length watch.now ≤ length out.old) × (length mat.now ≡ length watch.now) × (length watch.now ≤ 600) }
    ensures { result ≤ o + 42 * length watch.now }
{
    let mut e = o;
    for (&w, &m) in watch.iter().zip(mat) {
        e = put_pair(&mut *out, e, b" ", w as usize, m as usize);
    }
    e
}

// How many pairs, unmatched watch times and unmatched mat times; then these.
pub fn print_report(watch: &[u32], mat: &[u32], alone_watch: &[u32], alone_mat: &[u32])
    requires { (length mat.now ≡ length watch.now) × (length watch.now ≤ 600) × (length alone_watch.now ≤ 600) × (length alone_mat.now ≤ 600) }
{
    let mut out = io::large_buffer();
    let a = put_pair(&mut out, 0, b"ok ", watch.len(), alone_watch.len());
    let b = put_numbered(&mut out, a, b" ", alone_mat.len());
    let c = put_pairs(&mut out, b, watch, mat);
    let d = put_times(&mut out, c, alone_watch);
    let e = put_times(&mut out, d, alone_mat);
    print_line(&mut out, e);
}
