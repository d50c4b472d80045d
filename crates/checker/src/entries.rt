// The entries of all directories: one pass, in which every named inode is counted.
ghost use Rattle.std.specs.Prelude.{◌≡◌, true, not, ℕ, ◌+◌, ◌*◌, ◌-◌, ◌<◌, ◌≤◌, length, replicate};
ghost use Rattle.std.specs.List.{list_all};
ghost use Rattle.bounded.specs.Below.{all_below};
ghost use Rattle.bounded.specs.Count.{Tallied};
ghost use Rattle.layout.specs.Sizes.{header_bytes, most_inodes, inode_bytes};
ghost use Rattle.layout.specs.Inode.{kind_of, directory_kind};
ghost use Rattle.layout.specs.Fits.{InodeFits};
ghost use Rattle.names.specs.Words.{same_words};
ghost use Rattle.directory.specs.Slot.{slots_in_block, most_slots, slots, slot_at};
ghost use Rattle.directory.specs.Fits.{DirFits};
ghost use Rattle.sound.specs.Place.{IsDir, naming, place_of};
ghost use Rattle.sound.specs.Test.{naming_b, entry_b};
ghost use Rattle.checker.specs.Pass.{Passed};

use directory::{MOST_SLOTS, SLOTS_IN_BLOCK};
use layout::inode;
use layout::sizes::{DIRECTORY, FREE, ROOT};
use names::{ENTRY_BYTES, Name};

// What stands for an empty entry: no legal name reads so.
const NO_NAME: Name = Name { low: 0, high: 0 };

// The entry at o, in slot t of d, names an inode in use, by a legal name; a directory's parent is d.
fn entry_named(s: &[u8], n: usize, d: usize, t: usize, o: usize) -> bool
    requires { DirFits s.now n d × (t < slots s.now d) × (kind_of s.now d ≡ directory_kind) × (o ≡ slot_at s.now n d t) }
    ensures { result ≡ naming_b s.now n (place_of d t) }
{
    let e = &s[o..o + ENTRY_BYTES];
    let i = usize::from(names::entry_inode(e));
    if !names::legal_entry(e) || i < 1 || n < i || i == ROOT {
        return false;
    }
    match inode::kind(s, n, i) {
        FREE => false,
        DIRECTORY => usize::from(inode::parent(s, n, i)) == d,
        _ => true,
    }
}

// None of the slots before has the name.
#[tactic(auto, unfolding(names::specs::Words::same_words))]
fn name_new(before: &[Name], name: Name) -> bool
    ensures { result ≡ list_all (λ x. not (same_words x name)) before.now }
{
    before.iter().all(|x| *x != name)
}

// Slot t of d, whose bytes start at o.
fn slot_right(
    s: &[u8],
    n: usize,
    d: usize,
    t: usize,
    o: usize,
    names: &mut [Name],
    counts: &mut [u16],
) -> bool
    requires dir_fits { DirFits s.now n d × (t < slots s.now d) × (kind_of s.now d ≡ directory_kind) × (o ≡ slot_at s.now n d t) }
    requires passed { Passed s.now n d t (place_of d t) names.old counts.old }
    ensures { (result ≡ entry_b s.now n (place_of d t)) × (result ≡ true → Passed s.now n d (t + 1) (place_of d t + 1) names.new counts.new) }
{
    let e = &s[o..o + ENTRY_BYTES];
    if names::is_empty(e) {
        names[t] = NO_NAME;
        return true;
    }
    let name = Name::in_entry(e);
    names[t] = name;
    if !entry_named(s, n, d, t, o) {
        return false;
    }
    if !name_new(&names[..t], name) {
        return false;
    }
    counts[usize::from(names::entry_inode(e))] += 1;
    true
}

// The four slots of the k-th block of d.
fn block_right(
    s: &[u8],
    n: usize,
    d: usize,
    k: usize,
    names: &mut [Name],
    counts: &mut [u16],
) -> bool
    requires dir_fits { DirFits s.now n d × (slots_in_block * k < slots s.now d) × (kind_of s.now d ≡ directory_kind) }
    requires passed { Passed s.now n d (slots_in_block * k) (place_of d (slots_in_block * k)) names.old counts.old }
    ensures { (result ≡ all_below (λ j. entry_b s.now n (place_of d (slots_in_block * k + j))) slots_in_block) × (result ≡ true → Passed s.now n d (slots_in_block * k + slots_in_block) (place_of d (slots_in_block * k + slots_in_block)) names.new counts.new) }
{
    let o = directory::block_start(s, n, d, k);
    // a loop, as the two below: what a closure does to names and counts, `all` does not say
    for j in 0..SLOTS_IN_BLOCK {
        let t = SLOTS_IN_BLOCK * k + j;
        if !slot_right(s, n, d, t, o + ENTRY_BYTES * j, names, counts) {
            return false;
        }
    }
    true
}

// All places of inode d, which may be no directory. In names may stand what another directory left.
fn directory_right(s: &[u8], n: usize, d: usize, names: &mut [Name], counts: &mut [u16]) -> bool
    requires inode_fits { InodeFits s.now n d × (kind_of s.now d ≡ directory_kind → DirFits s.now n d) }
    requires names_len { (length names.old ≡ most_slots) × Tallied (naming s.now n) 1 (most_inodes + 1) (most_slots * (d - 1)) counts.old }
    ensures { (result ≡ all_below (λ t. entry_b s.now n (place_of d t)) most_slots) × (result ≡ true → Tallied (naming s.now n) 1 (most_inodes + 1) (most_slots * d) counts.new) }
{
    if inode::kind(s, n, d) != DIRECTORY {
        return true;
    }
    let blocks = directory::slot_count(s, n, d) / SLOTS_IN_BLOCK;
    for k in 0..blocks {
        if !block_right(s, n, d, k, names, counts) {
            return false;
        }
    }
    true
}

// Every entry is right; counts, which comes in zero, then has how often each inode is named.
pub fn entries_right(s: &[u8], n: usize, counts: &mut [u16]) -> bool
    requires { (n ≤ most_inodes) × (header_bytes + inode_bytes * n ≤ length s.now) × ((d : ℕ) → IsDir s.now n d → DirFits s.now n d) × (counts.old ≡ replicate (most_inodes + 1) 0) }
    ensures { (result ≡ all_below (entry_b s.now n) (most_slots * n)) × (result ≡ true → Tallied (naming s.now n) 1 (most_inodes + 1) (most_slots * n) counts.new) }
{
    let mut names = [NO_NAME; MOST_SLOTS];
    for k in 0..n {
        if !directory_right(s, n, k + 1, &mut names, counts) {
            return false;
        }
    }
    true
}
