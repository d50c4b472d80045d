// The text that a line of a script prints: its answer, and the listing of a finished copy. m is the image, d the desk, n the count of inodes.
// Text is put at o of out, and where it ends is answered, as by `text::put`: of a writer that holds the two, each clause would say `Put` of its fields.
#![tactic(auto)]

ghost use Rattle.std.specs.Prelude.{◌≡◌, true, ◌+◌, ◌*◌, ◌<◌, ◌≤◌, length};
ghost use Rattle.layout.specs.Sizes.{header_bytes};
ghost use Rattle.layout.specs.Fits.{InodeFits};
ghost use Rattle.names.specs.Name.{name_bytes};
ghost use Rattle.names.specs.Entry.{entry_bytes, name_length};
ghost use Rattle.directory.specs.Slot.{most_slots};
ghost use Rattle.desk.specs.Sizes.{desk_header_bytes};
ghost use Rattle.sound.specs.Sound.{Sound, inodes_in};
ghost use Rattle.sound.specs.Test.{is_sound};
ghost use Rattle.sound.specs.Place.{is_slot, entry_at, filled};
ghost use Rattle.sound.specs.declared.Form.TheVariants.{Image};
ghost use Rattle.text.specs.Put.{Put};
ghost use Rattle.script_listing.specs.Listing.{word_text, reply_text, counts_text, head_text, place_text, kind_text, inode_text, name_text, entry_text, slot_text, entries_from, listing, printed_text, most_reply, most_head, most_entry_text, most_listing, Listable};

use desk::Desk;
use directory::MOST_SLOTS;
use layout::header::Header;
use layout::inode;
use layout::sizes::DIRECTORY;
use names::{ENTRY_BYTES, NAME_AT, NAME_BYTES};
use text::put::{put, put_numbered, put_pair};

fn put_word(out: &mut [u8], o: usize, answer: Result<usize, usize>) -> usize
    requires { o + 23 ≤ length out.old }
    ensures put { Put out.old o (word_text answer) result out.new }
    ensures upper_bound { result ≤ o + 23 }
{
    match answer {
        Ok(n) => put_numbered(out, o, b"ok ", n),
        Err(n) => put_numbered(out, o, b"no ", n),
    }
}

// The line's answer at o of out; where it ends.
fn put_reply(out: &mut [u8], o: usize, answer: Result<usize, usize>) -> usize
    requires { o + most_reply ≤ length out.old }
    ensures { Put out.old o (reply_text answer) result out.new }
{
    let e = put_word(&mut *out, o, answer);
    put(out, e, b"\n")
}

fn put_counts(out: &mut [u8], o: usize, m: &[u8]) -> usize
    requires { (o + 89 ≤ length out.old) × (header_bytes ≤ length m.now) }
    ensures put { Put out.old o (counts_text m.now) result out.new }
    ensures upper_bound { result ≤ o + 89 }
{
    let h = Header::read(m);
    let e = put_pair(
        &mut *out,
        o,
        b"image ",
        h.inodes as usize,
        h.blocks as usize,
    );
    put_pair(out, e, b" ", h.free_inodes as usize, h.free_blocks as usize)
}

// The first line of a listing.
fn put_head(out: &mut [u8], o: usize, m: &[u8], d: &[u8]) -> usize
    requires { (o + most_head ≤ length out.old) × (header_bytes ≤ length m.now) × (desk_header_bytes ≤ length d.now) }
    ensures { Put out.old o (head_text m.now d.now) result out.new }
{
    let h = Desk::read(d);
    let e = put_counts(&mut *out, o, m);
    let f = put_numbered(&mut *out, e, b" ", h.steps as usize);
    put(out, f, b"\n")
}

fn put_place(out: &mut [u8], o: usize, e: usize, t: usize, i: usize) -> usize
    requires { o + 62 ≤ length out.old }
    ensures put { Put out.old o (place_text e t i) result out.new }
    ensures upper_bound { result ≤ o + 62 }
{
    let a = put_pair(&mut *out, o, b"", e, t);
    put_numbered(out, a, b" ", i)
}

fn put_kind(out: &mut [u8], o: usize, kind: u8) -> usize
    requires { o + 2 ≤ length out.old }
    ensures put { Put out.old o (kind_text kind) result out.new }
    ensures upper_bound { result ≤ o + 2 }
{
    if kind == DIRECTORY {
        put(out, o, b" d")
    } else {
        put(out, o, b" f")
    }
}

fn put_inode(out: &mut [u8], o: usize, m: &[u8], n: usize, i: usize) -> usize
    requires { (o + 44 ≤ length out.old) × InodeFits m.now n i }
    ensures put { Put out.old o (inode_text m.now i) result out.new }
    ensures upper_bound { result ≤ o + 44 }
{
    let size = inode::size(m, n, i) as usize;
    let links = inode::links(m, n, i) as usize;
    let a = put_kind(&mut *out, o, inode::kind(m, n, i));
    put_pair(out, a, b" ", size, links)
}

// How many bytes the entry's name has.
fn name_length(entry: &[u8]) -> usize
    requires { entry_bytes ≤ length entry.now }
    ensures { (result ≡ name_length entry.now) × (result ≤ name_bytes) }
{
    let name = &entry[NAME_AT..NAME_AT + NAME_BYTES];
    name.iter().position(|b| *b == 0).unwrap_or(NAME_BYTES)
}

fn put_name(out: &mut [u8], o: usize, entry: &[u8]) -> usize
    requires { (o + 16 ≤ length out.old) × (entry_bytes ≤ length entry.now) }
    ensures { Put out.old o (name_text entry.now) result out.new }
{
    let k = name_length(entry);
    let a = put(&mut *out, o, b" ");
    let b = put(&mut *out, a, &entry[NAME_AT..NAME_AT + k]);
    put(out, b, b"\n")
}

// A finished image, and how many inodes it has.
#[derive(Clone, Copy)]
struct Finished<'a> {
    m: &'a [u8],
    n: usize,
    ghost sound: { is_sound Image m.now ≡ true },
    ghost counted: { n ≡ inodes_in m.now },
}

// The entry at place p of the image, which a directory's slot is.
fn entry_at<'a>(image: Finished<'a>, p: usize) -> &'a [u8]
    requires { (p < most_slots * image.n) × (is_slot image.m.now p ≡ true) }
    ensures { (result.now ≡ entry_at image.entry.m.now image.entry.n p) × (length result.now ≡ entry_bytes) }
{
    let o = directory::slot_at(image.m, image.n, p / MOST_SLOTS + 1, p % MOST_SLOTS);
    &image.m[o..o + ENTRY_BYTES]
}

// Place p is a directory's slot.
fn is_slot(image: Finished, p: usize) -> bool
    requires { p < most_slots * image.n }
    ensures { result ≡ is_slot image.entry.m.now p }
{
    let e = p / MOST_SLOTS + 1;
    inode::kind(image.m, image.n, e) == DIRECTORY
        && p % MOST_SLOTS < directory::slot_count(image.m, image.n, e)
}

// An entry stands at place p.
fn is_filled(image: Finished, p: usize) -> bool
    requires { p < most_slots * image.n }
    ensures { result ≡ filled image.entry.m.now image.entry.n p }
{
    is_slot(image, p) && !names::is_empty(entry_at(image, p))
}

// The line of the entry that stands at place p.
fn put_entry(out: &mut [u8], o: usize, image: Finished, p: usize) -> usize
    requires { (o + most_entry_text ≤ length out.old) × (p < most_slots * image.n) × (filled image.m.now image.n p ≡ true) }
    ensures { Put out.old o (entry_text image.entry.m.now image.entry.n p) result out.new }
{
    let entry = entry_at(image, p);
    let i = names::entry_inode(entry) as usize;
    let a = put_place(&mut *out, o, p / MOST_SLOTS + 1, p % MOST_SLOTS, i);
    let b = put_inode(&mut *out, a, image.m, image.n, i);
    put_name(out, b, entry)
}

// The line of place p, if an entry stands there.
fn put_slot(out: &mut [u8], o: usize, image: Finished, p: usize) -> usize
    requires { (o + most_entry_text ≤ length out.old) × (p < most_slots * image.n) }
    ensures { Put out.old o (slot_text image.entry.m.now image.entry.n p) result out.new }
{
    if is_filled(image, p) {
        put_entry(out, o, image, p)
    } else {
        o
    }
}

// The lines of all entries, by directory and slot.
fn put_entries(out: &mut [u8], o: usize, image: Finished) -> usize
    requires { o + most_entry_text * (most_slots * image.n) ≤ length out.old }
    ensures { Put out.old o (entries_from image.entry.m.now image.entry.n 0 (most_slots * image.entry.n)) result out.new }
{
    let mut e = o;
    for p in 0..MOST_SLOTS * image.n {
        e = put_slot(&mut *out, e, image, p);
    }
    e
}

fn put_listing(out: &mut [u8], o: usize, m: &[u8], d: &[u8]) -> usize
    requires { (o + most_listing (inodes_in m.now) ≤ length out.old) × Sound Image m.now × (header_bytes ≤ length m.now) × (desk_header_bytes ≤ length d.now) }
    ensures { Put out.old o (listing m.now d.now) result out.new }
{
    let e = put_head(&mut *out, o, m, d);
    let n = Header::read(m).inodes as usize;
    put_entries(out, e, Finished { m, n })
}

// All that a line prints, at the start of out; where it ends. An answer is `ok` or `no` and a number.
pub fn put_printed(
    out: &mut [u8],
    answer: Result<usize, usize>,
    finished: bool,
    m: &[u8],
    d: &[u8],
) -> usize
    requires { (most_reply ≤ length out.old) × (finished ≡ true → Listable out.old m.now) × (header_bytes ≤ length m.now) × (desk_header_bytes ≤ length d.now) }
    ensures { Put out.old 0 (printed_text answer finished m.now d.now) result out.new }
{
    let e = put_reply(&mut *out, 0, answer);
    if !finished {
        return e;
    }
    put_listing(out, e, m, d)
}
