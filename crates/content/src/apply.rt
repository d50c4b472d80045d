// The bytes of a file: read and written block by block, made more and fewer. n and b are the store's counts.
ghost use Rattle.std.specs.Prelude.{◌≡◌, true, ◌&&◌, ◌+◌, ◌-◌, ◌*◌, ◌/◌, ◌%◌, ◌<◌, ◌≤◌, min, leb, length, get_or, take, drop};
ghost use Rattle.bounded.specs.Search.{pick};
ghost use Rattle.bounded.specs.Table.{table};
ghost use Rattle.octets.specs.Octets.{splice, word_bytes};
ghost use Rattle.layout.specs.Sizes.{address_count, address_place, block_bytes, most_blocks, most_direct_bytes, most_file_bytes, most_image_blocks};
ghost use Rattle.layout.specs.Header.{header_of};
ghost use Rattle.layout.specs.Inode.{size_of, is_file};
ghost use Rattle.layout.specs.Fits.{InodeFits};
ghost use Rattle.blocks.specs.Block.{block_at, blocks_used, is_long, kth_block, bytes_block};
ghost use Rattle.blocks.specs.Free.{block_free};
ghost use Rattle.blocks.specs.Fits.{Sized};
ghost use Rattle.ledger.specs.Change.{across, added, kept};
ghost use Rattle.ledger.specs.Nth.{nth_free};
ghost use Rattle.sound.specs.Sound.{blocks_in};
ghost use Rattle.sound.specs.Counted.{SoundStore};
ghost use Rattle.growth.specs.Extend.{zero_blocks, put_size, put_blocks, taken, extended, cut_blocks};
ghost use Rattle.content.specs.Fits.{byte_at, FileFits};
ghost use Rattle.content.specs.Content.{file_bytes, put_file, add_block, zero_rest, cut_to};
ghost use Rattle.content.specs.Plan.{write_plan};
ghost use Rattle.content.specs.Apply.{written};

use blocks::free::named_blocks;
use blocks::map::MAP_WORDS;
use blocks::{block_at, blocks_used, further, is_long, kth_block, map, zero_block};
use layout::header::{less_free, more_free};
use layout::inode;
use layout::inode::Inode;
use layout::sizes::{ADDRESS_COUNT, ADDRESS_PLACE, BLOCK_BYTES, MOST_BLOCKS, MOST_DIRECT_BYTES};
use std::array;

// ---- where bytes stand
// The k-th block of inode i, one that its size uses.
pub fn kth_used(s: &[u8], n: usize, i: usize, k: usize) -> u16
    requires { SoundStore s.now n (blocks_in s.now) × (1 ≤ i) × (i ≤ n) × (k < blocks_used (size_of s.now i)) }
    ensures { result ≡ kth_block s.now n i k }
{
    if k < ADDRESS_COUNT {
        return kth_block(s, n, i, k);
    }
    further(
        s,
        n,
        kth_block(s, n, i, ADDRESS_PLACE) as usize,
        k - ADDRESS_COUNT,
    )
}

// The p-th block of bytes of file i; long: it has an address block, which is passed over. A short file costs the first test alone.
fn bytes_block(s: &[u8], n: usize, i: usize, long: bool, p: usize) -> u16
    requires { FileFits s.now n i (block_bytes * p + 1) × (long ≡ is_long s.now i) }
    ensures { result ≡ bytes_block s.now n i p }
{
    if !long {
        return kth_block(s, n, i, p);
    }
    if p < ADDRESS_PLACE {
        return kth_block(s, n, i, p);
    }
    kth_used(s, n, i, p + 1)
}

// Where byte x of file i stands.
fn byte_at(s: &[u8], n: usize, i: usize, long: bool, x: usize) -> usize
    requires { FileFits s.now n i (block_bytes * (x / block_bytes) + 1) × (long ≡ is_long s.now i) }
    ensures { result ≡ byte_at s.now n i x }
{
    block_at(n, bytes_block(s, n, i, long, x / BLOCK_BYTES) as usize) + x % BLOCK_BYTES
}

// How many of the k bytes from x on stand in one block.
fn run(x: usize, k: usize) -> usize
    ensures { result ≡ min k (block_bytes - x % block_bytes) }
{
    k.min(BLOCK_BYTES - x % BLOCK_BYTES)
}

// The k bytes of file i from o on, to the start of out.
pub fn read_file(s: &[u8], n: usize, i: usize, o: usize, k: usize, out: &mut [u8])
    requires { SoundStore s.now n (blocks_in s.now) × (is_file s.now n i ≡ true) × (o + k ≤ size_of s.now i) × (k ≤ length out.old) }
    ensures { out.new ≡ splice out.old 0 (file_bytes s.now n i o k) }
{
    let long = is_long(s, n, i);
    let mut j = 0;
    // a while: runs differ in length, and a walk with a closure would not tell what that did to out
    while j < k {
        let count = run(o + j, k - j);
        octets::copy_range(out, j, s, byte_at(s, n, i, long, o + j), count);
        j = j + count;
    }
}

// The bytes xs, from byte o of file i on.
fn put_file(s: &mut [u8], n: usize, i: usize, o: usize, xs: &[u8])
    requires { FileFits s.old n i (o + length xs.now) }
    ensures { s.new ≡ put_file s.old n i o xs.now }
{
    let long = is_long(s, n, i);
    let k = xs.len();
    let mut j = 0;
    // a while, as in read_file
    while j < k {
        let count = run(o + j, k - j);
        let p = byte_at(s, n, i, long, o + j);
        octets::copy_range(s, p, xs, j, count);
        j = j + count;
    }
}

// Block c becomes the next of directory i, zeroed first.
pub fn add_block(s: &mut [u8], n: usize, b: usize, i: usize, c: usize)
    requires { InodeFits s.old n i × Sized s.old n b × (1 ≤ c) × (c ≤ b) × (blocks_used (size_of s.old i) < address_count) × (1 ≤ (header_of s.old).free_blocks) }
    ensures { s.new ≡ add_block s.old n i c }
{
    let old = Inode::read(s, n, i);
    let k = blocks_used(old.size as usize);
    let mut a = old.addresses;
    a[k] = c as u16;
    zero_block(s, n, b, c);
    old.with_blocks(BLOCK_BYTES * (k + 1), a).write(s, n, i);
    less_free(s, 0, 1);
}

// ---- all blocks of a file, in their order
// The place k, where the address block and the block behind it may change places.
fn place_across(crosses: bool, k: usize) -> usize
    ensures { result ≡ pick crosses (across k) k }
{
    if !crosses {
        return k;
    }
    match k {
        ADDRESS_PLACE => ADDRESS_COUNT,
        ADDRESS_COUNT => ADDRESS_PLACE,
        _ => k,
    }
}

// The k-th of the first count blocks of inode i, 0 behind them; crosses: its address block is left out.
fn kept_block(s: &[u8], n: usize, i: usize, crosses: bool, count: usize, k: usize) -> u16
    requires { SoundStore s.now n (blocks_in s.now) × (1 ≤ i) × (i ≤ n) × (count ≤ blocks_used (size_of s.now i)) × (crosses ≡ true → address_count < blocks_used (size_of s.now i)) }
    ensures { result ≡ kept crosses (kth_block s.now n i) count k }
{
    if k < count {
        kth_used(s, n, i, place_across(crosses, k))
    } else {
        0
    }
}

// All of these, for the 44 places of a row.
fn kept_row(s: &[u8], n: usize, i: usize, crosses: bool, count: usize) -> [u16; MOST_BLOCKS]
    requires { SoundStore s.now n (blocks_in s.now) × (1 ≤ i) × (i ≤ n) × (count ≤ blocks_used (size_of s.now i)) × (crosses ≡ true → address_count < blocks_used (size_of s.now i)) }
    ensures { result ≡ table (kept crosses (kth_block s.now n i) count) most_blocks }
{
    array::from_fn(|k| kept_block(s, n, i, crosses, count, k))
}

// The used blocks of inode i, and behind them the m lowest free ones, each zeroed first. One map tells them all, for a block that was taken is below those that are left.
fn taken_row(
    s: &mut [u8],
    n: usize,
    b: usize,
    i: usize,
    used: usize,
    m: usize,
) -> [u16; MOST_BLOCKS]
    requires { SoundStore s.old n b × (1 ≤ i) × (i ≤ n) × (used ≡ blocks_used (size_of s.old i)) × (used + m ≤ most_blocks) × (m ≤ (header_of s.old).free_blocks) }
    ensures { (s.new ≡ zero_blocks s.old n (nth_free (block_free s.old n) b) m) × (result ≡ table (added (kth_block s.old n i) used m (nth_free (block_free s.old n) b)) most_blocks) }
{
    let mut map = [0u16; MAP_WORDS];
    named_blocks(s, n, 0, false, &mut map);
    let mut row = kept_row(s, n, i, false, used);
    let mut taken = 0;
    for place in &mut row[used..used + m] {
        taken = map::next(&map, taken + 1, b);
        zero_block(s, n, b, taken);
        *place = taken as u16;
    }
    row
}

// The row, with the address block before the block that stood in its place where the file crosses the edge.
fn row_across(crosses: bool, mut row: [u16; MOST_BLOCKS]) -> [u16; MOST_BLOCKS]
    ensures { result ≡ table (λ u. get_or row (pick crosses (across u) u) 0) most_blocks }
{
    if crosses {
        row.swap(ADDRESS_PLACE, ADDRESS_COUNT);
    }
    row
}

// The twelve addresses of the row that stand in the record.
fn direct(row: [u16; MOST_BLOCKS]) -> [u16; ADDRESS_COUNT]
    ensures { result ≡ take address_count row }
{
    let mut a = [0u16; ADDRESS_COUNT];
    a.copy_from_slice(&row[..ADDRESS_COUNT]);
    a
}

// The others, from o on.
fn put_further(s: &mut [u8], o: usize, row: [u16; MOST_BLOCKS])
    requires { o + block_bytes ≤ length s.old }
    ensures { s.new ≡ splice s.old o (word_bytes (drop address_count row)) }
{
    for (k, address) in row[ADDRESS_COUNT..].iter().enumerate() {
        octets::put_16(s, o + 2 * k, *address);
    }
}

// The size z and the blocks of the row. The record is read here, changed by value and written once.
fn put_blocks(s: &mut [u8], n: usize, i: usize, z: usize, row: [u16; MOST_BLOCKS])
    requires { InodeFits s.old n i × (z ≤ most_file_bytes) × (most_direct_bytes < z → (1 ≤ get_or row address_place 0) × (get_or row address_place 0 ≤ most_image_blocks) × (block_at n (get_or row address_place 0) + block_bytes ≤ length s.old)) }
    ensures { s.new ≡ put_blocks s.old n i z row }
{
    let old = Inode::read(s, n, i);
    let a = row[ADDRESS_PLACE] as usize;
    old.with_blocks(z, direct(row)).write(s, n, i);
    if z <= MOST_DIRECT_BYTES {
        return;
    }
    put_further(s, block_at(n, a), row);
}

// ---- fewer bytes
// Zeroes the rest of the block that the size z ends in.
#[tactic(auto, using(crate::proofs::CodeLaws::rest_none))]
fn zero_rest(s: &mut [u8], n: usize, i: usize, z: usize)
    requires { FileFits s.old n i z }
    ensures { s.new ≡ zero_rest s.old n i z }
{
    let x = z % BLOCK_BYTES;
    if x == 0 {
        return;
    }
    let long = is_long(s, n, i);
    let p = byte_at(s, n, i, long, z);
    octets::zero_range(s, p, BLOCK_BYTES - x);
}

// With z bytes the inode has an address block no longer.
fn crosses_down(s: &[u8], n: usize, i: usize, z: usize) -> bool
    requires { InodeFits s.now n i }
    ensures { result ≡ is_long s.now i && leb z most_direct_bytes }
{
    is_long(s, n, i) && z <= MOST_DIRECT_BYTES
}

// Leaves the blocks of the first z bytes of file i: those past them are free again.
fn cut_blocks(s: &mut [u8], n: usize, i: usize, z: usize)
    requires { FileFits s.old n i z }
    ensures { s.new ≡ cut_blocks s.old n i z }
{
    let kept = blocks_used(z);
    let freed = blocks_used(inode::size(s, n, i) as usize) - kept;
    let crosses = crosses_down(s, n, i, z);
    let row = kept_row(s, n, i, crosses, kept);
    put_blocks(s, n, i, z, row);
    more_free(s, 0, freed as u16);
}

// Leaves the first z bytes of file i.
pub fn shorten_file(s: &mut [u8], n: usize, i: usize, z: usize)
    requires { SoundStore s.old n (blocks_in s.old) × (is_file s.old n i ≡ true) × (z ≤ size_of s.old i) }
    ensures { s.new ≡ cut_to s.old n i z }
{
    zero_rest(s, n, i, z);
    cut_blocks(s, n, i, z);
}

// ---- more bytes
// The size z for file i, with m blocks more.
fn grow(s: &mut [u8], n: usize, b: usize, i: usize, m: usize, z: usize)
    requires sound_store { SoundStore s.old n b × (is_file s.old n i ≡ true) × (size_of s.old i ≤ z) × (z ≤ most_file_bytes) }
    requires le_m { (1 ≤ m) × (blocks_used z ≡ blocks_used (size_of s.old i) + m) × (m ≤ (header_of s.old).free_blocks) }
    ensures { s.new ≡ taken s.old n b i z m }
{
    let used = blocks_used(inode::size(s, n, i) as usize);
    let row = taken_row(s, n, b, i, used, m);
    put_blocks(s, n, i, z, row_across(used == ADDRESS_COUNT, row));
    less_free(s, 0, m as u16);
}

// The size z for inode i; its addresses stay.
fn put_size(s: &mut [u8], n: usize, i: usize, z: usize)
    requires { InodeFits s.old n i × (z ≤ most_file_bytes) }
    ensures { s.new ≡ put_size s.old n i z }
{
    let old = Inode::read(s, n, i);
    old.with_size(z).write_attributes(s, n, i);
}

// The size z with the blocks that it needs.
fn extend(s: &mut [u8], n: usize, b: usize, i: usize, z: usize)
    requires sound_store { SoundStore s.old n b × (is_file s.old n i ≡ true) }
    requires i_bound { (size_of s.old i ≤ z) × (z ≤ most_file_bytes) × (blocks_used z - blocks_used (size_of s.old i) ≤ (header_of s.old).free_blocks) }
    ensures { s.new ≡ extended s.old n b i z }
{
    let more = blocks_used(z) - blocks_used(inode::size(s, n, i) as usize);
    if more == 0 {
        put_size(s, n, i, z);
        return;
    }
    grow(s, n, b, i, more, z);
}

// The bytes xs from o on, as planned: z is the new size.
pub fn write_file(s: &mut [u8], n: usize, b: usize, i: usize, o: usize, xs: &[u8], z: usize)
    requires { SoundStore s.old n b × (write_plan s.old n i o (length xs.now) ≡ Ok z) }
    ensures { s.new ≡ written s.old n b i o xs.now z }
{
    extend(s, n, b, i, z);
    put_file(s, n, i, o, xs);
}
