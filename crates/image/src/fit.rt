// Whether an image fits: its length at a start (refusal 1), and while a copy runs its header and its addresses
// (refusal 3). Any bytes may be lent. s is the store, m the image.
ghost use Rattle.std.specs.Prelude.{◌≡◌, true, ◌+◌, ◌*◌, ◌<◌, ◌≤◌, length};
ghost use Rattle.bounded.specs.Most.{most};
ghost use Rattle.layout.specs.Sizes.{header_bytes, inode_bytes, block_bytes, further_count, most_inodes, most_image_blocks};
ghost use Rattle.blocks.specs.Block.{block_at, address_block, further_of};
ghost use Rattle.blocks.specs.Free.{long_but};
ghost use Rattle.blocks.specs.Fits.{Sized};
ghost use Rattle.desk.specs.Desk.{desk_of};
ghost use Rattle.checkpoint.specs.Fit.{desk_framed, desk_fits, image_blocks, image_allowed, image_fits};
ghost use Rattle.image.specs.Fit.{addresses_right, direct_right, further_right_of, further_right, locked_long, addresses_lacking, header_right, rows_right};

use blocks::free::long_but;
use blocks::{allowed, further, is_long, store_length};
use desk::Desk;
use layout::header::Header;
use layout::inode;
use layout::sizes::{
    ADDRESS_COUNT, ADDRESS_PLACE, BLOCK_BYTES, FURTHER_COUNT, HEADER_BYTES, INODE_BYTES,
    MOST_IMAGE_BLOCKS, NOT_COMPLETE, ROOT,
};

// How many blocks an image of k bytes has beside n inodes.
#[tactic(auto, unfolding(checkpoint::specs::Fit::image_blocks))]
pub fn image_blocks(n: usize, k: usize) -> usize
    requires { n ≤ most_inodes }
    ensures { result ≡ image_blocks n k }
{
    k.saturating_sub(HEADER_BYTES + INODE_BYTES * n) / BLOCK_BYTES
}

// An image for n inodes may be k bytes long.
#[tactic(auto, unfolding(checkpoint::specs::Fit::image_allowed))]
pub fn image_allowed(n: usize, k: usize) -> bool
    requires { n ≤ most_inodes }
    ensures { result ≡ image_allowed n k }
{
    allowed(MOST_IMAGE_BLOCKS, n, image_blocks(n, k), k)
}

// Of the twelve addresses of each inode none is above b: the largest is not. A fold that keeps the
// largest has no early exit, so it compiles to vector code: for 256 inodes 105 ns, `map` and `max` 139.
fn direct_fit(m: &[u8], n: usize, b: usize) -> bool
    requires { (n ≤ most_inodes) × (header_bytes + inode_bytes * n ≤ length m.now) }
    ensures { result ≡ direct_right m.now n b }
{
    let most = (0..ADDRESS_COUNT * n).fold(0u16, |most, x| most.max(inode::address(m, n, x)));
    most as usize <= b
}

// The largest address in the address block a, by the same fold.
pub fn largest_further(m: &[u8], n: usize, a: usize) -> u16
    requires { (n ≤ most_inodes) × (1 ≤ a) × (a ≤ most_image_blocks) × (block_at n a + block_bytes ≤ length m.now) }
    ensures { (result ≡ most (further_of m.now n a) further_count) × (result < 65536) }
{
    (0..FURTHER_COUNT).fold(0u16, |most, j| most.max(further(m, n, a, j)))
}

// None in the address block of inode i, if it has one, is above b; its own number is known not to be. Inode l has one as told by long.
fn further_fit_of(m: &[u8], n: usize, b: usize, l: usize, long: bool, i: usize) -> bool
    requires { Sized m.now n b × (1 ≤ i) × (i ≤ n) × (address_block m.now n i ≤ b) }
    ensures { result ≡ further_right_of (long_but m.now l long i) m.now n b i }
{
    let a = inode::address(m, n, ADDRESS_COUNT * (i - 1) + ADDRESS_PLACE) as usize;
    a == 0 || !long_but(m, n, l, long, i) || largest_further(m, n, a) as usize <= b
}

// None in any address block is: they are read only once the direct addresses are known to fit.
fn further_fit(m: &[u8], n: usize, b: usize, l: usize, long: bool) -> bool
    requires { Sized m.now n b × (direct_right m.now n b ≡ true) }
    ensures { result ≡ further_right (long_but m.now l long) m.now n b }
{
    (1..n + 1).all(|i| further_fit_of(m, n, b, l, long, i))
}

// No address is above b.
fn addresses_fit(m: &[u8], n: usize, b: usize, l: usize, long: bool) -> bool
    requires { Sized m.now n b }
    ensures { result ≡ addresses_right (long_but m.now l long) m.now n b }
{
    direct_fit(m, n, b) && further_fit(m, n, b, l, long)
}

// The locked inode l is to have an address block: by the store, since its size in the image is not yet written.
pub fn locked_long(s: &[u8], n: usize, l: usize) -> bool
    requires { (n ≤ most_inodes) × (header_bytes + inode_bytes * n ≤ length s.now) × (l ≤ n) }
    ensures { result ≡ locked_long s.now l }
{
    l != 0 && is_long(s, n, l)
}

// It is copied so far that its address block is, but the image has none.
fn lacks_addresses(m: &[u8], n: usize, l: usize, long: bool, copied: usize) -> bool
    requires { (n ≤ most_inodes) × (header_bytes + inode_bytes * n ≤ length m.now) × (l ≤ n) × (long ≡ true → 1 ≤ l) }
    ensures { result ≡ addresses_lacking long m.now n l copied }
{
    long && copied >= ADDRESS_COUNT
        && inode::address(m, n, ADDRESS_COUNT * (l - 1) + ADDRESS_PLACE) == 0
}

// The addresses of the image, by the desk's header.
fn rows_fit(s: &[u8], m: &[u8], h: Desk) -> bool
    requires { Sized m.now h.inodes h.blocks × (header_bytes + inode_bytes * h.inodes ≤ length s.now) × (h.locked ≤ h.inodes) }
    ensures { result ≡ rows_right s.now m.now h }
{
    let n = h.inodes as usize;
    let l = h.locked as usize;
    let long = locked_long(s, n, l);
    addresses_fit(m, n, h.blocks as usize, l, long)
        && !lacks_addresses(m, n, l, long, h.transferred as usize)
}

// The image's header t is that of the running copy whose desk's header is h.
fn header_fits(t: Header, h: Desk) -> bool
    ensures { result ≡ header_right t h }
{
    t.inodes == h.inodes
        && t.blocks == h.blocks
        && t.root as usize == ROOT
        && t.complete == NOT_COMPLETE
}

// The image is the one that the desk's running copy fills, from a store whose inodes are as many.
pub fn image_fits(s: &[u8], m: &[u8], d: &[u8]) -> bool
    requires { (desk_framed d.now ≡ true) × (desk_fits d.now ≡ true) × (header_bytes + inode_bytes * (desk_of d.now).inodes ≤ length s.now) }
    ensures { result ≡ image_fits s.now m.now d.now }
{
    let h = Desk::read(d);
    if m.len() != store_length(h.inodes as usize, h.blocks as usize) {
        return false;
    }
    header_fits(Header::read(m), h) && rows_fit(s, m, h)
}
