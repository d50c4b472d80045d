// A block of the store on its way into the image: where it goes, and its bytes as they are copied. s is the store, m the image, d the desk, n the count of inodes.
#![tactic(auto)]

ghost use Rattle.std.specs.Prelude.{◌≡◌, not, ◌&&◌, ◌+◌, ◌*◌, ◌<◌, ◌≤◌, eqb, leb, length};
ghost use Rattle.bounded.specs.Below.{some_below};
ghost use Rattle.bounded.specs.Count.{tally};
ghost use Rattle.layout.specs.Sizes.{header_bytes, inode_bytes, block_bytes, most_inodes, most_image_blocks, address_count, further_count, address_place};
ghost use Rattle.layout.specs.Inode.{size_of, address_of};
ghost use Rattle.layout.specs.Fits.{InodeFits};
ghost use Rattle.blocks.specs.Block.{block_at, blocks_used, is_long, further_of};
ghost use Rattle.blocks.specs.Free.{named_by, long_but};
ghost use Rattle.blocks.specs.Fits.{RowsFit};
ghost use Rattle.directory.specs.Slot.{slots_in_block};
ghost use Rattle.desk.specs.Sizes.{desk_length};
ghost use Rattle.sound.specs.Sound.{blocks_in};
ghost use Rattle.sound.specs.Counted.{SoundStore};
ghost use Rattle.checkpoint.specs.Copier.{target_block, copied_entry, copied_entries, copied_block};
ghost use Rattle.transfer.specs.Behind.{behind_b};

use blocks::free;
use content::apply::kth_used;
use directory::SLOTS_IN_BLOCK;
use layout::inode;
use layout::sizes::{ADDRESS_COUNT, ADDRESS_PLACE, BLOCK_BYTES, DIRECTORY, FURTHER_COUNT};
use names::ENTRY_BYTES;

// How many of the twelve addresses of each inode are c. A sum has no early exit, so it compiles to
// vector code, and one of 16 bits takes more addresses at a time than `count`: for 256 inodes 138 ns,
// as the loop by hand.
fn times_named(m: &[u8], n: usize, c: u16) -> u16
    requires { (n ≤ most_inodes) × (header_bytes + inode_bytes * n ≤ length m.now) }
    ensures { result ≡ tally (address_of m.now n) (address_count * n) c }
{
    (0..ADDRESS_COUNT * n)
        .map(|x| u16::from(inode::address(m, n, x) == c))
        .sum()
}

// One of them is.
fn named_direct(m: &[u8], n: usize, c: u16) -> bool
    requires { (n ≤ most_inodes) × (header_bytes + inode_bytes * n ≤ length m.now) }
    ensures { result ≡ not (eqb (tally (address_of m.now n) (address_count * n) c) 0) }
{
    times_named(m, n, c) != 0
}

// How many of the 32 addresses in the address block a are c.
fn times_further(m: &[u8], n: usize, a: usize, c: u16) -> u16
    requires { (n ≤ most_inodes) × (1 ≤ a) × (a ≤ most_image_blocks) × (block_at n a + block_bytes ≤ length m.now) }
    ensures { result ≡ tally (further_of m.now n a) further_count c }
{
    (0..FURTHER_COUNT)
        .map(|j| u16::from(blocks::further(m, n, a, j) == c))
        .sum()
}

// Block c is named in the address block of inode i. Most inodes have none, so that is asked first.
fn named_behind(m: &[u8], n: usize, l: usize, long: bool, i: usize, c: u16) -> bool
    requires { RowsFit (long_but m.now l long) m.now n × (1 ≤ i) × (i ≤ n) × (1 ≤ c) }
    ensures { result ≡ behind_b (long_but m.now l long) m.now n c i }
{
    let a = blocks::kth_block(m, n, i, ADDRESS_PLACE) as usize;
    a != 0 && free::long_but(m, n, l, long, i) && times_further(m, n, a, c) != 0
}

// Block c is named in some address block.
fn named_further(m: &[u8], n: usize, l: usize, long: bool, c: u16) -> bool
    requires { RowsFit (long_but m.now l long) m.now n × (1 ≤ c) }
    ensures { result ≡ some_below (λ k. behind_b (long_but m.now l long) m.now n c (k + 1)) n }
{
    (1..n + 1).any(|i| named_behind(m, n, l, long, i, c))
}

// Block c is one of the b blocks of the image, and no address names it. Inode l has an address block as told by long, every other by its own size.
#[tactic(auto, using(crate::proofs::NamedLaws::direct_named))]
fn is_unnamed(m: &[u8], n: usize, l: usize, long: bool, b: usize, c: usize) -> bool
    requires { RowsFit (long_but m.now l long) m.now n × (b ≤ most_image_blocks) }
    ensures { result ≡ leb 1 c && (leb c b && not (named_by (long_but m.now l long) m.now n c)) }
{
    (1..=b).contains(&c) && !named_direct(m, n, c as u16) && !named_further(m, n, l, long, c as u16)
}

// Where block c of the store goes in an image of b blocks: the map of those named is made only if c is.
pub fn target_block(m: &[u8], n: usize, l: usize, long: bool, b: usize, c: usize) -> Option<usize>
    requires { RowsFit (long_but m.now l long) m.now n × (b ≤ most_image_blocks) }
    ensures { result ≡ target_block (long_but m.now l long) m.now n b c }
{
    if is_unnamed(m, n, l, long, b, c) {
        return Some(c);
    }
    free::free_block(m, n, l, long, b)
}

// Entry j of the k-th block of directory i, whose bytes x are: a marked one that names a copied inode is zeroed.
fn copy_entry(x: &mut [u8], d: &[u8], n: usize, i: usize, k: usize, j: usize)
    requires { (length x.old ≡ block_bytes) × (desk_length n ≤ length d.now) × (1 ≤ i) × (i ≤ n) × (k < address_count) × (j < slots_in_block) }
    ensures { x.new ≡ copied_entry d.now n i k x.old j }
{
    let o = ENTRY_BYTES * j;
    let named = names::entry_inode(&x[o..o + ENTRY_BYTES]) as usize;
    if desk::is_marked(d, n, i, SLOTS_IN_BLOCK * k + j) && desk::is_copied(d, n, named) {
        octets::zero_range(&mut *x, o, ENTRY_BYTES);
    }
}

// The four entries of the block.
fn copy_entries(x: &mut [u8], d: &[u8], n: usize, i: usize, k: usize)
    requires { (length x.old ≡ block_bytes) × (desk_length n ≤ length d.now) × (1 ≤ i) × (i ≤ n) × (k < address_count) }
    ensures { x.new ≡ copied_entries d.now n i k x.old slots_in_block }
{
    // no chunks_exact_mut: once it is over, a proof knows x's length and not its bytes (Rattle's
    // docs/NOT_COVERED.md)
    for j in 0..SLOTS_IN_BLOCK {
        copy_entry(&mut *x, d, n, i, k, j);
    }
}

// The k-th block of inode i is its address block.
fn is_address_block(s: &[u8], n: usize, i: usize, k: usize) -> bool
    requires { InodeFits s.now n i }
    ensures { result ≡ is_long s.now i && eqb k address_place }
{
    k == ADDRESS_PLACE && blocks::is_long(s, n, i)
}

// The k-th block of inode i as it is copied, to the 64 bytes x. An address block gets its addresses later, as the blocks that it names are copied.
#[tactic(auto, using(crate::proofs::PlainLaws::plain_copied, crate::proofs::PlainLaws::pasted_whole, crate::proofs::PlainLaws::kth_inside))]
pub fn copy_block(x: &mut [u8], s: &[u8], d: &[u8], n: usize, i: usize, k: usize)
    requires { (length x.old ≡ block_bytes) × SoundStore s.now n (blocks_in s.now) × (1 ≤ i) × (i ≤ n) × (k < blocks_used (size_of s.now i)) × (desk_length n ≤ length d.now) }
    ensures { x.new ≡ copied_block s.now d.now n i k }
{
    if is_address_block(s, n, i, k) {
        octets::zero_range(&mut *x, 0, BLOCK_BYTES);
        return;
    }
    let a = kth_used(s, n, i, k) as usize;
    octets::copy_range(&mut *x, 0, s, blocks::block_at(n, a), BLOCK_BYTES);
    if inode::kind(s, n, i) == DIRECTORY {
        copy_entries(&mut *x, d, n, i, k);
    }
}
