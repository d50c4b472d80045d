// The line that answers a command.
ghost use Rattle.std.specs.Prelude.{◌≡◌, [], ◌∷◌, ◌++◌, ◌+◌, ◌*◌, ◌≤◌, length};
ghost use Rattle.text.specs.Put.{Put, each};
ghost use Rattle.replay_commands.specs.Line.{reply_of, number_text, said, shown_text, sums_text, line_text};
ghost use Rattle.replay_commands.specs.Said.{reply_text};

use crate::{Reply, Sums};
use answers::Answer;
use text::pieces::front;
use text::put::{put, put_bytes, put_hex, put_numbered};

// What a call answered.
pub fn reply(a: Answer) -> Reply
    ensures { result ≡ reply_of a }
{
    match a {
        Ok(n) => Reply::Done(n),
        Err(e) => Reply::Refused(usize::from(e)),
    }
}

// A word, and each number after a space.
fn put_said(out: &mut [u8], o: usize, word: &[u8], numbers: &[usize]) -> usize
    requires { (o + length word.now + 21 * length numbers.now ≤ length out.old) × (length numbers.now ≤ 3) }
    ensures put { Put out.old o (word.now ++ each number_text numbers.now) result out.new }
    ensures upper_bound { result ≤ o + length word.now + 21 * length numbers.now }
{
    let mut e = put(&mut *out, o, word);
    for &n in numbers {
        e = put_numbered(&mut *out, e, b" ", n);
    }
    e
}

// A word, a number and bytes.
fn put_shown(out: &mut [u8], o: usize, word: &[u8], number: usize, bytes: &[u8]) -> usize
    requires { o + length word.now + 23 + 2 * length bytes.now ≤ length out.old }
    ensures put { Put out.old o (said word.now (number ∷ []) (shown_text bytes.now)) result out.new }
    ensures upper_bound { result ≤ o + length word.now + 23 + 2 * length bytes.now }
{
    let e = put_said(&mut *out, o, word, &[number]);
    let f = put(&mut *out, e, b" ");
    put_bytes(out, f, bytes)
}

// The answer itself.
fn put_reply(out: &mut [u8], o: usize, reply: Reply, page: &[u8]) -> usize
    requires { o + 65 + 2 * length page.now ≤ length out.old }
    ensures put { Put out.old o (reply_text reply page.now) result out.new }
    ensures upper_bound { result ≤ o + 65 + 2 * length page.now }
{
    match reply {
        Reply::Error => put(out, o, b"err"),
        Reply::Plain => put(out, o, b"ok"),
        Reply::Yes => put(out, o, b"yes"),
        Reply::No => put(out, o, b"no"),
        Reply::Done(n) => put_said(out, o, b"ok", &[n]),
        Reply::Refused(n) => put_said(out, o, b"no", &[n]),
        Reply::Laid(a, d) => put_said(out, o, b"ok", &[a, d]),
        Reply::Shown(n, k) => put_shown(out, o, b"ok", n, front(page, k)),
        Reply::Asked(a, l, k) => put_said(out, o, b"ok", &[a, l, k]),
    }
}

// The checksums, in 16 hex digits each.
fn put_sums(out: &mut [u8], o: usize, sums: Sums) -> usize
    requires { o + 54 ≤ length out.old }
    ensures put { Put out.old o (sums_text sums) result out.new }
    ensures upper_bound { result ≤ o + 54 }
{
    let a = put(&mut *out, o, b" | ");
    let b = put_hex(&mut *out, a, sums.store, 16);
    let c = put(&mut *out, b, b" ");
    let d = put_hex(&mut *out, c, sums.image, 16);
    let e = put(&mut *out, d, b" ");
    let f = put_hex(&mut *out, e, sums.desk, 16);
    put(out, f, b"\n")
}

// The line at o of out; where it ends.
pub fn put_line(out: &mut [u8], o: usize, reply: Reply, page: &[u8], sums: Sums) -> usize
    requires { o + 119 + 2 * length page.now ≤ length out.old }
    ensures put { Put out.old o (line_text reply page.now sums) result out.new }
    ensures upper_bound { result ≤ o + 119 + 2 * length page.now }
{
    let e = put_reply(&mut *out, o, reply, page);
    if let Reply::Error = reply {
        return put(out, e, b"\n");
    }
    put_sums(out, e, sums)
}
