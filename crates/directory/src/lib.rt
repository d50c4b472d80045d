// The slots of a directory: entries read, searched and written. The 16 bytes of a slot, starting mid-block, are handed to the entry's functions.
#![tactic(auto)]

ghost use Rattle.std.specs.Prelude.{◌≡◌, ℕ, Bool, List, IfSome, ◌+◌, ◌*◌, ◌<◌, ◌≤◌, length};
ghost use Rattle.octets.specs.Octets.{part};
ghost use Rattle.bounded.specs.Search.{first};
ghost use Rattle.layout.specs.Sizes.{block_bytes};
ghost use Rattle.blocks.specs.Block.{block_at, kth_block};
ghost use Rattle.names.specs.Name.{name_bytes};
ghost use Rattle.names.specs.Entry.{entry_bytes, name_at, is_empty, entry_inode};
ghost use Rattle.names.specs.Words.{words_at, same_words};
ghost use Rattle.directory.specs.Slot.{slots_in_block, most_slots, slots, slot_at, entry_of, find_slot, empty_slot, put_entry, clear_entry};
ghost use Rattle.directory.specs.Fits.{DirFits};
ghost use Rattle.directory.specs.Test.{Tests};

use layout::sizes::{BLOCK_BYTES, MOST_DIRECTORY_BLOCKS};
use names::{ENTRY_BYTES, Name};

pub const SLOTS_IN_BLOCK: usize = 4;

pub const MOST_SLOTS: usize = SLOTS_IN_BLOCK * MOST_DIRECTORY_BLOCKS;

// How many slots the directory has.
pub fn slot_count(s: &[u8], n: usize, d: usize) -> usize
    requires { DirFits s.now n d }
    ensures { (result ≡ slots s.now d) × (result ≤ most_slots) }
{
    SLOTS_IN_BLOCK * blocks::blocks_used(layout::inode::size(s, n, d) as usize)
}

// Where the k-th block of the directory starts.
pub fn block_start(s: &[u8], n: usize, d: usize, k: usize) -> usize
    requires { DirFits s.now n d × (slots_in_block * k < slots s.now d) }
    ensures { (result ≡ block_at n (kth_block s.now n d k)) × (result + block_bytes ≤ length s.now) }
{
    let b = blocks::kth_block(s, n, d, k) as usize;
    blocks::block_at(n, b)
}

// Where slot t of the directory starts.
pub fn slot_at(s: &[u8], n: usize, d: usize, t: usize) -> usize
    requires { DirFits s.now n d × (t < slots s.now d) }
    ensures { (result ≡ slot_at s.now n d t) × (result + entry_bytes ≤ length s.now) }
{
    block_start(s, n, d, t / SLOTS_IN_BLOCK) + ENTRY_BYTES * (t % SLOTS_IN_BLOCK)
}

// The lowest slot of a block whose entry passes.
fn first_in_block<F: Fn(&[u8]) -> bool + Copy>(block: &[u8], passes: F) -> Option<usize>
    requires long { length block.now ≡ block_bytes }
    requires asked { (e : _) → length e.now ≡ entry_bytes → F.pre passes e }
    ensures below { IfSome result (λ j. j < slots_in_block) }
    ensures lowest { (p : List ℕ → Bool) → Tests F.Fn passes p
        → result ≡ first (λ j. p (part block.now (entry_bytes * j) entry_bytes)) slots_in_block }
{
    for j in 0..SLOTS_IN_BLOCK {
        let o = ENTRY_BYTES * j;
        if passes(&block[o..o + ENTRY_BYTES]) {
            return Some(j);
        }
    }
    None
}

// The lowest slot whose entry passes: an address is read once for its four slots.
fn first_slot<F: Fn(&[u8]) -> bool + Copy>(s: &[u8], n: usize, d: usize, passes: F) -> Option<usize>
    requires fits { DirFits s.now n d }
    requires asked { (e : _) → length e.now ≡ entry_bytes → F.pre passes e }
    ensures { (p : List ℕ → Bool) → Tests F.Fn passes p
        → result ≡ first (λ t. p (entry_of s.now n d t)) (slots s.now d) }
{
    let count = slot_count(s, n, d);
    for k in 0..count / SLOTS_IN_BLOCK {
        let o = block_start(s, n, d, k);
        let found = first_in_block(&s[o..o + BLOCK_BYTES], passes);
        if let Some(j) = found {
            return Some(SLOTS_IN_BLOCK * k + j);
        }
    }
    None
}

// The slot of the name.
pub fn find_slot(s: &[u8], n: usize, d: usize, name: &[u8]) -> Option<usize>
    requires { DirFits s.now n d × (length name.now ≤ name_bytes) }
    ensures { result ≡ find_slot s.now n d name.now }
{
    let words = Name::of(name);
    first_slot(s, n, d, |entry| names::same_name(entry, words))
}

// The lowest empty slot.
pub fn empty_slot(s: &[u8], n: usize, d: usize) -> Option<usize>
    requires { DirFits s.now n d }
    ensures { result ≡ empty_slot s.now n d }
{
    first_slot(s, n, d, names::is_empty)
}

// The inode that slot t names.
pub fn slot_inode(s: &[u8], n: usize, d: usize, t: usize) -> u16
    requires { DirFits s.now n d × (t < slots s.now d) }
    ensures { result ≡ entry_inode (entry_of s.now n d t) }
{
    let o = slot_at(s, n, d, t);
    names::entry_inode(&s[o..o + ENTRY_BYTES])
}

pub fn put_entry(s: &mut [u8], n: usize, d: usize, t: usize, inode: u16, name: &[u8])
    requires { DirFits s.old n d × (t < slots s.old d) × (length name.now ≤ name_bytes) }
    ensures { s.new ≡ put_entry s.old n d t inode name.now }
{
    let o = slot_at(&*s, n, d, t);
    names::put_entry(&mut s[o..o + ENTRY_BYTES], inode, name);
}

pub fn clear_entry(s: &mut [u8], n: usize, d: usize, t: usize)
    requires { DirFits s.old n d × (t < slots s.old d) }
    ensures { s.new ≡ clear_entry s.old n d t }
{
    let o = slot_at(&*s, n, d, t);
    octets::zero_range(&mut *s, o, ENTRY_BYTES);
}
