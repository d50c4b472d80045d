// The inodes: one pass over attributes, addresses and the zero bytes after a file's end, in which every named block is noted; then the blocks that none of them names.
#![tactic(auto)]

ghost use Rattle.std.specs.Prelude.{◌≡◌, ◌+◌, ◌-◌, ◌*◌, ◌/◌, ◌%◌, ◌<◌, ◌≤◌, min, true, false, ◌&&◌, ◌≢◌, length};
ghost use Rattle.bounded.specs.Below.{all_below, all_to};
ghost use Rattle.bounded.specs.Count.{differ_b};
ghost use Rattle.layout.specs.Sizes.{most_image_blocks, address_count, further_count, most_blocks, block_bytes, most_direct_bytes};
ghost use Rattle.layout.specs.Inode.{size_of, attributes_zero};
ghost use Rattle.layout.specs.Fits.{InodeFits};
ghost use Rattle.blocks.specs.Block.{blocks_used, address_block, bytes_block, row_of};
ghost use Rattle.blocks.specs.Fits.{Sized};
ghost use Rattle.blocks.specs.Map.{map_words, Notes};
ghost use Rattle.sound.specs.Test.{attributes_b, addresses_b, zero_tail_b, inode_b};
ghost use Rattle.check_inodes.specs.Pass.{MapsOf, used_address_b, row_place, kth_b, new_blocks_b, blank_if_free_b};

use blocks::map;
use blocks::map::MAP_WORDS;
use layout::inode;
use layout::sizes::{
    ADDRESS_COUNT, ADDRESS_PLACE, BLOCK_BYTES, DIRECTORY, FILE, MOST_DIRECT_BYTES,
    MOST_DIRECTORY_BYTES, MOST_FILE_BYTES,
};
use octets::all_zero;

// The attributes of inode i, which are not all zero.
fn attributes_right(s: &[u8], n: usize, i: usize) -> bool
    requires { InodeFits s.now n i × (attributes_zero s.now i ≡ false) }
    ensures { result ≡ attributes_b s.now i }
{
    let kind = inode::kind(s, n, i);
    let size = inode::size(s, n, i) as usize;
    inode::spare(s, n, i) == 0
        && match kind {
            FILE => size <= MOST_FILE_BYTES && inode::parent(s, n, i) == 0,
            DIRECTORY => size <= MOST_DIRECTORY_BYTES && size % BLOCK_BYTES == 0,
            _ => false,
        }
}

// An address that the inode's size uses: one of b blocks that the map does not have, which is noted. Less one, address 0 is beyond them all.
fn used_right(address: u16, b: usize, map: &mut [u16]) -> bool
    requires { (b ≤ most_image_blocks) × (length map.old ≡ map_words) }
    ensures { (result ≡ used_address_b b map.old address) × (result ≡ true → Notes (λ _. address) 1 map.old map.new) }
{
    let a = usize::from(address);
    a.wrapping_sub(1) < b && map::note_new(map, a)
}

// The twelve addresses of inode i: those that the size uses, then the others, which are 0.
fn direct_right(s: &[u8], n: usize, b: usize, i: usize, used: usize, map: &mut [u16]) -> bool
    requires { Sized s.now n b × InodeFits s.now n i × (used ≡ min address_count (blocks_used (size_of s.now i))) × MapsOf s.now n (row_place i 0) map.old }
    ensures { (result ≡ all_below (kth_b s.now n b i) address_count) × (result ≡ true → MapsOf s.now n (row_place i address_count) map.new) }
{
    // a loop: what a closure does to the map, `all` does not say
    for k in 0..used {
        if !used_right(blocks::kth_block(s, n, i, k), b, map) {
            return false;
        }
    }
    inode::no_addresses(s, n, ADDRESS_COUNT * (i - 1) + used, ADDRESS_COUNT - used)
}

// The 32 in the address block of file i in the same way.
fn further_right(s: &[u8], n: usize, b: usize, i: usize, used: usize, map: &mut [u16]) -> bool
    requires sized { Sized s.now n b × InodeFits s.now n i × (used ≡ blocks_used (size_of s.now i) - address_count) × MapsOf s.now n (row_place i address_count) map.old }
    requires i_value { (attributes_b s.now i ≡ true) × (most_direct_bytes < size_of s.now i) × (1 ≤ address_block s.now n i) × (address_block s.now n i ≤ b) }
    ensures { (result ≡ all_below (λ j. kth_b s.now n b i (address_count + j)) further_count) × (result ≡ true → MapsOf s.now n (row_place i most_blocks) map.new) }
{
    let a = blocks::kth_block(s, n, i, ADDRESS_PLACE) as usize;
    // a loop: as in direct_right
    for j in 0..used {
        if !used_right(blocks::further(s, n, a, j), b, map) {
            return false;
        }
    }
    blocks::no_further(s, n, a, used)
}

// All blocks of inode i. Only a file of more than 768 bytes has any behind the twelve addresses.
fn addresses_right(s: &[u8], n: usize, b: usize, i: usize, map: &mut [u16]) -> bool
    requires { Sized s.now n b × InodeFits s.now n i × (attributes_b s.now i ≡ true) × MapsOf s.now n (row_place i 0) map.old }
    ensures { (result ≡ addresses_b s.now n b i && new_blocks_b s.now n i) × (result ≡ true → MapsOf s.now n (most_blocks * i) map.new) }
{
    let used = blocks::blocks_used(inode::size(s, n, i) as usize);
    direct_right(s, n, b, i, used.min(ADDRESS_COUNT), map)
        && (used <= ADDRESS_COUNT || further_right(s, n, b, i, used - ADDRESS_COUNT, map))
}

// The block that the size of file i ends in.
fn last_block(s: &[u8], n: usize, b: usize, i: usize, size: usize) -> u16
    requires sized { Sized s.now n b × InodeFits s.now n i × (attributes_b s.now i ≡ true) × (addresses_b s.now n b i ≡ true) }
    requires size_value { (size ≡ size_of s.now i) × (size % block_bytes ≢ 0) }
    ensures { result ≡ bytes_block s.now n i (size / block_bytes) }
{
    let p = size / BLOCK_BYTES;
    if size <= MOST_DIRECT_BYTES {
        return blocks::kth_block(s, n, i, p);
    }
    let a = blocks::kth_block(s, n, i, ADDRESS_PLACE) as usize;
    blocks::further(s, n, a, p - ADDRESS_PLACE)
}

// The bytes of a file past its size in its last block.
#[tactic(auto, using(crate::proofs::InodeLaws::tail_full))]
fn zero_tail(s: &[u8], n: usize, b: usize, i: usize) -> bool
    requires { Sized s.now n b × InodeFits s.now n i × (attributes_b s.now i ≡ true) × (addresses_b s.now n b i ≡ true) }
    ensures { result ≡ zero_tail_b s.now n i }
{
    let size = inode::size(s, n, i) as usize;
    let past = size % BLOCK_BYTES;
    if inode::kind(s, n, i) != FILE {
        return true;
    }
    if past == 0 {
        return true;
    }
    let last = last_block(s, n, b, i, size) as usize;
    all_zero(s, blocks::block_at(n, last) + past, BLOCK_BYTES - past)
}

// Inode i. What has no attributes is free, and has no address: four words.
fn inode_right(s: &[u8], n: usize, b: usize, i: usize, map: &mut [u16]) -> bool
    requires { Sized s.now n b × InodeFits s.now n i × MapsOf s.now n (row_place i 0) map.old }
    ensures { (result ≡ inode_b s.now n b i && new_blocks_b s.now n i) × (result ≡ true → MapsOf s.now n (most_blocks * i) map.new) }
{
    if inode::attributes_zero(s, n, i) {
        return inode::addresses_zero(s, n, i);
    }
    attributes_right(s, n, i) && addresses_right(s, n, b, i, map) && zero_tail(s, n, b, i)
}

// Every inode is right, and no block is named twice; the map, which comes in empty, then has the blocks that are named.
pub fn inodes_right(s: &[u8], n: usize, b: usize, map: &mut [u16]) -> bool
    requires { Sized s.now n b × MapsOf s.now n 0 map.old }
    ensures { (result ≡ all_to (inode_b s.now n b) n && differ_b (row_of s.now n) (most_blocks * n)) × (result ≡ true → MapsOf s.now n (most_blocks * n) map.new) }
{
    // a loop: as in direct_right
    for k in 0..n {
        if !inode_right(s, n, b, k + 1, map) {
            return false;
        }
    }
    true
}

// Block k of the row is one that the map has, or zero.
fn block_blank(s: &[u8], n: usize, b: usize, map: &[u16], row: usize, k: usize) -> bool
    requires { Sized s.now n b × MapsOf s.now n (most_blocks * n) map.now × (map_words * row + k < b) × (k < map_words) }
    ensures { result ≡ blank_if_free_b s.now n (map_words * row + k + 1) }
{
    map::has_in(map, row, k)
        || all_zero(s, blocks::block_at(n, MAP_WORDS * row + k + 1), BLOCK_BYTES)
}

// The first m blocks of the row that the map does not have are zero.
fn row_blank(s: &[u8], n: usize, b: usize, map: &[u16], row: usize, m: usize) -> bool
    requires { Sized s.now n b × MapsOf s.now n (most_blocks * n) map.now × (map_words * row + m ≤ b) × (m ≤ map_words) }
    ensures { result ≡ all_below (λ k. blank_if_free_b s.now n (map_words * row + k + 1)) m }
{
    (0..m).all(|k| block_blank(s, n, b, map, row, k))
}

// The blocks that the map does not have are zero: row by row, so that the bit stays the same while the words go by.
pub fn blanks_right(s: &[u8], n: usize, b: usize, map: &[u16]) -> bool
    requires { Sized s.now n b × MapsOf s.now n (most_blocks * n) map.now }
    ensures { result ≡ all_to (blank_if_free_b s.now n) b }
{
    let rows = b / MAP_WORDS;
    (0..rows).all(|row| row_blank(s, n, b, map, row, MAP_WORDS))
        && row_blank(s, n, b, map, rows, b % MAP_WORDS)
}
