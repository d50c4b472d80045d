// Blocks: where they stand, how many a size uses, and which an inode uses.
#![tactic(auto)]

pub mod free;
pub mod map;

ghost use Rattle.std.specs.Prelude.{◌≡◌, ◌+◌, ◌-◌, ◌<◌, ◌≤◌, eqb, length};
ghost use Rattle.bounded.specs.Below.{all_below};
ghost use Rattle.layout.specs.Sizes.{address_count, further_count, most_blocks, block_bytes, most_inodes, most_image_blocks};
ghost use Rattle.blocks.specs.Block.{store_length, allowed, block_at, zero_block, blocks_used, is_long, address_block, further_of, kth_block, put_kth};
ghost use Rattle.layout.specs.Fits.{InodeFits};
ghost use Rattle.blocks.specs.Fits.{Sized, BlockFits};

use layout::inode;
use layout::inode::{address, put_address};
use layout::sizes::{
    ADDRESS_COUNT, ADDRESS_PLACE, BLOCK_BYTES, FILE, FURTHER_COUNT, HEADER_BYTES, INODE_BYTES,
    MOST_DIRECT_BYTES, MOST_INODES,
};

pub fn store_length(n: usize, b: usize) -> usize
    requires { (n ≤ most_inodes) × (b ≤ most_image_blocks) }
    ensures { result ≡ store_length n b }
{
    HEADER_BYTES + INODE_BYTES * n + BLOCK_BYTES * b
}

// Counts and length of a store or an image are allowed, with at most `limit` blocks.
#[tactic(auto, unfolding(crate::specs::Block::allowed))]
pub fn allowed(limit: usize, n: usize, b: usize, length: usize) -> bool
    requires { limit ≤ most_image_blocks }
    ensures { result ≡ allowed limit n b length }
{
    (1..=MOST_INODES).contains(&n) && (1..=limit).contains(&b) && length == store_length(n, b)
}

pub fn block_at(n: usize, b: usize) -> usize
    requires { (n ≤ most_inodes) × (1 ≤ b) × (b < 65536) }
    ensures { result ≡ block_at n b }
{
    HEADER_BYTES + INODE_BYTES * n + BLOCK_BYTES * (b - 1)
}

pub fn zero_block(s: &mut [u8], n: usize, count: usize, b: usize)
    requires { Sized s.old n count × (1 ≤ b) × (b ≤ count) }
    ensures { s.new ≡ zero_block s.old n b }
{
    octets::zero_range(&mut *s, block_at(n, b), BLOCK_BYTES);
}

// How many blocks a size uses.
#[tactic(auto, unfolding(crate::specs::Block::blocks_used))]
pub fn blocks_used(size: usize) -> usize
    requires { size < 65536 }
    ensures { result ≡ blocks_used size }
{
    size.div_ceil(BLOCK_BYTES) + usize::from(MOST_DIRECT_BYTES < size)
}

// The k-th address of an inode, which names its k-th block.
pub fn kth_block(s: &[u8], n: usize, i: usize, k: usize) -> u16
    requires { InodeFits s.now n i × (k < address_count) }
    ensures { result ≡ kth_block s.now n i k }
{
    address(s, n, ADDRESS_COUNT * (i - 1) + k)
}

// Inode i has an address block: a file of more than 768 bytes.
#[tactic(auto, unfolding(crate::specs::Block::is_long))]
pub fn is_long(s: &[u8], n: usize, i: usize) -> bool
    requires { InodeFits s.now n i }
    ensures { result ≡ is_long s.now i }
{
    inode::kind(s, n, i) == FILE && MOST_DIRECT_BYTES < usize::from(inode::size(s, n, i))
}

// Address j of the address block a.
pub fn further(s: &[u8], n: usize, a: usize, j: usize) -> u16
    requires { (n ≤ most_inodes) × (1 ≤ a) × (a ≤ most_image_blocks) × (block_at n a + block_bytes ≤ length s.now) × (j < further_count) }
    ensures { result ≡ further_of s.now n a j }
{
    octets::get_16(s, block_at(n, a) + 2 * j)
}

// Those from the j-th on are 0.
pub fn no_further(s: &[u8], n: usize, a: usize, j: usize) -> bool
    requires { (n ≤ most_inodes) × (1 ≤ a) × (a ≤ most_image_blocks) × (block_at n a + block_bytes ≤ length s.now) × (j ≤ further_count) }
    ensures { result ≡ all_below (λ k. eqb (further_of s.now n a (j + k)) 0) (further_count - j) }
{
    octets::all_zero(s, block_at(n, a) + 2 * j, 2 * (FURTHER_COUNT - j))
}

// Block c is the k-th of inode i: its address goes into the inode, or into its address block.
pub fn put_kth(s: &mut [u8], n: usize, i: usize, k: usize, c: u16)
    requires { InodeFits s.old n i × (k < most_blocks) × (address_count ≤ k → BlockFits s.old n (address_block s.old n i)) }
    ensures { s.new ≡ put_kth s.old n i k c }
{
    let x = ADDRESS_COUNT * (i - 1);
    if k < ADDRESS_COUNT {
        put_address(&mut *s, n, x + k, c);
        return;
    }
    let a = usize::from(address(s, n, x + ADDRESS_PLACE));
    octets::put_16(&mut *s, block_at(n, a) + 2 * (k - ADDRESS_COUNT), c);
}
