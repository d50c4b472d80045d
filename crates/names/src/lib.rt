// Names, and the 16 bytes of a directory entry.
#![tactic(auto)]

ghost use Rattle.std.specs.Prelude.{◌≡◌, ◌==◌, ◌&&◌, not, ◌+◌, ◌≤◌, length};
ghost use Rattle.std.specs.List.{list_all};
ghost use Rattle.names.specs.Name.{name_bytes, slash, is_dots, legal_name};
ghost use Rattle.names.specs.Entry.{entry_bytes, name_at, entry_inode, is_empty, legal_entry, entry_for};
ghost use Rattle.names.specs.Words.{has_dots, folds, words_at, same_words};

use octets::{HIGHS, LOWS};

pub const ENTRY_BYTES: usize = 16;

pub const NAME_BYTES: usize = 14;

// Where the name starts in an entry.
pub const NAME_AT: usize = 2;

// Eight bytes each. A byte's low bits and the first reach 128 from `A` on, those and the second from behind `Z` on.
const FROM_A: u64 = 0x3f3f_3f3f_3f3f_3f3f;

const PAST_Z: u64 = 0x2525_2525_2525_2525;

// The bytes of w with small letters for capital ones, eight at once. No sum reaches the next byte; the highest bit of a byte of
// `capitals` says that it is one.
fn folded(w: u64) -> u64
    ensures { result ≡ folds 8 w }
{
    let low = w & LOWS;
    let capitals = ((low + FROM_A) ^ (low + PAST_Z)) & (w ^ HIGHS) & HIGHS;
    w + capitals / 4
}

// A name in 14 bytes, zero-filled and folded, as two words: names are compared word by word.
#[derive(Clone, Copy, PartialEq, Eq, Debug)]
pub struct Name {
    pub low: u64,
    pub high: u64,
}

impl Name {
    // The name that starts at o.
    fn at(s: &[u8], o: usize) -> Name
        requires { o + name_bytes ≤ length s.now }
        ensures { result ≡ words_at s.now o }
    {
        Name {
            low: folded(octets::get_64(s, o)),
            high: folded(octets::get_48(s, o + 8)),
        }
    }

    pub fn of(name: &[u8]) -> Name
        requires { length name.now ≤ name_bytes }
        ensures { result ≡ words_at name.now 0 }
    {
        let mut filled = [0u8; NAME_BYTES];
        octets::copy_range(&mut filled, 0, name, 0, name.len());
        Name::at(&filled, 0)
    }

    pub fn in_entry(entry: &[u8]) -> Name
        requires { entry_bytes ≤ length entry.now }
        ensures { result ≡ words_at entry.now name_at }
    {
        Name::at(entry, NAME_AT)
    }
}

// The entry's name is this one, without regard to case.
#[tactic(auto, unfolding(crate::specs::Words::same_words))]
pub fn same_name(entry: &[u8], name: Name) -> bool
    requires { entry_bytes ≤ length entry.now }
    ensures { result ≡ same_words (words_at entry.now name_at) name }
{
    Name::in_entry(entry) == name
}

pub fn entry_inode(entry: &[u8]) -> u16
    requires { entry_bytes ≤ length entry.now }
    ensures { result ≡ entry_inode entry.now }
{
    octets::get_16(entry, 0)
}

#[tactic(auto, using(crate::proofs::EntryLaws::empty_words))]
pub fn is_empty(entry: &[u8]) -> bool
    requires { entry_bytes ≤ length entry.now }
    ensures { result ≡ is_empty entry.now }
{
    octets::get_64(entry, 0) == 0 && octets::get_64(entry, 8) == 0
}

// The name is `.` or `..`.
#[tactic(auto, using(crate::proofs::TestLaws::dots_cases))]
fn is_dots(name: &[u8]) -> bool
    requires { 1 ≤ length name.now }
    ensures { result ≡ is_dots name.now }
{
    matches!(name, b"." | b"..")
}

// No byte is 0 or a slash.
fn is_plain(name: &[u8]) -> bool
    ensures { result ≡ list_all (λ x. not (x == 0) && not (x == slash)) name.now }
{
    name.iter().all(|&x| x != 0 && x != b'/')
}

#[tactic(auto, using(crate::proofs::TestLaws::legal_listed))]
pub fn legal_name(name: &[u8]) -> bool
    ensures { result ≡ legal_name name.now }
{
    (1..=NAME_BYTES).contains(&name.len()) && is_plain(name) && !is_dots(name)
}

// The entry's name is `.` or `..`.
#[tactic(auto, unfolding(crate::specs::Words::has_dots))]
fn has_dots(entry: &[u8]) -> bool
    requires { entry_bytes ≤ length entry.now }
    ensures { result ≡ has_dots entry.now }
{
    matches!(&entry[NAME_AT..], [b'.', 0, ..] | [b'.', b'.', 0, ..])
}

// The entry holds a legal name, and zero bytes after it. The 14 bytes are looked at eight at once, some of them twice.
#[tactic(auto, using(crate::proofs::LegalLaws::legal_runs))]
pub fn legal_entry(entry: &[u8]) -> bool
    requires { entry_bytes ≤ length entry.now }
    ensures { result ≡ legal_entry entry.now }
{
    entry[NAME_AT] != 0
        && octets::without(entry, NAME_AT, b'/')
        && octets::without(entry, NAME_AT + 6, b'/')
        && octets::zeros_last(entry, NAME_AT)
        && octets::zeros_last(entry, NAME_AT + 5)
        && !has_dots(entry)
}

pub fn put_entry(entry: &mut [u8], inode: u16, name: &[u8])
    requires { (length entry.old ≡ entry_bytes) × (length name.now ≤ name_bytes) }
    ensures { entry.new ≡ entry_for inode name.now }
{
    octets::zero_range(&mut *entry, 0, ENTRY_BYTES);
    octets::put_16(&mut *entry, 0, inode);
    octets::copy_range(&mut *entry, NAME_AT, name, 0, name.len());
}
