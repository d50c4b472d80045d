// The steps of a burst, over what it keeps from one to the next so that it is made once a call. s is the store, m the image, d the desk, h
// the desk's header, n the count of inodes.
ghost use Rattle.std.specs.Prelude.{◌≡◌, ◌≢◌, Bool, true, false, ◌&&◌, List, ℕ, ◌+◌, ◌*◌, ◌<◌, ◌≤◌, leb, length};
ghost use Rattle.bounded.specs.Count.{Tallied};
ghost use Rattle.bounded.specs.Search.{on_found};
ghost use Rattle.layout.specs.Sizes.{header_bytes, inode_bytes, address_count, most_inodes, most_image_blocks, most_blocks};
ghost use Rattle.layout.specs.Inode.{size_of};
ghost use Rattle.layout.specs.Fits.{InodeFits};
ghost use Rattle.blocks.specs.Block.{blocks_used, is_long, address_block, kth_by};
ghost use Rattle.blocks.specs.Free.{long_but};
ghost use Rattle.blocks.specs.Fits.{Sized, BlockFits, RowsFit};
ghost use Rattle.blocks.specs.Map.{map_words, noted, lacks, Maps};
ghost use Rattle.directory.specs.Slot.{most_slots};
ghost use Rattle.desk.specs.Sizes.{desk_length};
ghost use Rattle.checkpoint.specs.Image.{image_naming};
ghost use Rattle.checkpoint.specs.Copier.{lock, finish, target_block, free_step};
ghost use Rattle.checkpoint.specs.Live.{world};
ghost use Rattle.image.specs.Fit.{further_right_of};
ghost use Rattle.bursts.specs.Turn.{names_stay_b, Mapped, Counted, Going, Kept, Took};

use crate::Turn;
use answers::Refusal;
use blocks::map::MAP_WORDS;
use blocks::{free, map};
use content::apply::kth_used;
use copier::five;
use desk::Desk;
use image::{fit, naming};
use layout::inode;
use layout::sizes::{ADDRESS_COUNT, ADDRESS_PLACE, DIRECTORY, INODE_PLACES, ROOT};

// What the image names: a map of the blocks that its addresses name, and how often its directories
// name each inode.
#[derive(Drop)]
pub struct Named {
    pub map: [u16; MAP_WORDS],
    pub counts: [u16; INODE_PLACES],
}

// ---- the map
// Block c is one of the b blocks of the image, and the map does not have it.
fn is_open(map: &[u16], b: usize, c: usize) -> bool
    requires { (length map.now ≡ map_words) × (b ≤ most_image_blocks) }
    ensures { result ≡ leb 1 c && (leb c b && lacks map.now c) }
{
    (1..=b).contains(&c) && !map::has(map, c)
}

// Where block c of the store goes in an image of b blocks.
fn place(map: &[u16], b: usize, c: usize) -> Option<usize>
    requires { (length map.now ≡ map_words) × (b ≤ most_image_blocks) }
    ensures { (long : ℕ → Bool) (m : List ℕ) (n : ℕ) → Maps long m n (most_blocks * n) map.now → result ≡ target_block long m n b c }
{
    if is_open(map, b, c) {
        Some(c)
    } else {
        map::lowest(map, b)
    }
}

// The map of an image whose locked inode is l, or 0.
pub fn map_of(s: &[u8], m: &[u8], n: usize, l: usize, map: &mut [u16; MAP_WORDS])
    requires { RowsFit (long_but m.now l (is_long s.now l)) m.now n × (header_bytes + inode_bytes * n ≤ length s.now) × (l ≤ n) }
    ensures { Maps (long_but m.now l (is_long s.now l)) m.now n (most_blocks * n) map.new }
{
    free::named_blocks(m, n, l, fit::locked_long(s, n, l), &mut *map);
}

// The k-th block of inode i, which is long if k is not below twelve.
fn standing(m: &[u8], n: usize, i: usize, k: usize) -> u16
    requires { InodeFits m.now n i × (k < most_blocks) × (address_count ≤ k → BlockFits m.now n (address_block m.now n i) × (address_block m.now n i ≤ most_image_blocks)) }
    ensures { result ≡ kth_by true m.now n i k }
{
    if k < ADDRESS_COUNT {
        blocks::kth_block(m, n, i, k)
    } else {
        let a = blocks::kth_block(m, n, i, ADDRESS_PLACE) as usize;
        blocks::further(m, n, a, k - ADDRESS_COUNT)
    }
}

// An address of the locked inode i that was old is now c. In a run old is 0, and no block loses its name.
fn renew(s: &[u8], m: &[u8], n: usize, i: usize, old: u16, c: usize, map: &mut [u16; MAP_WORDS])
    requires { RowsFit (long_but m.now i (is_long s.now i)) m.now n × (header_bytes + inode_bytes * n ≤ length s.now) × (i ≤ n) × (c ≤ most_image_blocks) }
    ensures { (old ≡ 0 → map.new ≡ noted map.old c) × (old ≢ 0 → Maps (long_but m.now i (is_long s.now i)) m.now n (most_blocks * n) map.new) }
{
    if old == 0 {
        map::note(&mut *map, c);
    } else {
        map_of(s, m, n, i, &mut *map);
    }
}

// ---- a step while an inode is locked
// 3: blocks are left.
fn block_step(
    s: &[u8],
    m: &mut [u8],
    d: &mut [u8],
    h: Desk,
    n: usize,
    map: &mut [u16; MAP_WORDS],
) -> Result<Turn, Refusal>
    requires { Going (world s.now m.old d.old) n h × Mapped (world s.now m.old d.old) n map.old × (h.locked ≢ 0) × (h.transferred < blocks_used (size_of s.now h.locked)) }
    ensures { (counts : List ℕ) → Counted (world s.now m.old d.old) n counts → Took result (world s.now m.old d.old) n m.new d.new map.new counts }
{
    let i = h.locked as usize;
    let k = h.transferred as usize;
    let own = kth_used(s, n, i, k) as usize;
    let Some(c) = place(&*map, h.blocks as usize, own) else {
        return Err(five::stop(&mut *d, h));
    };
    let old = standing(&*m, n, i, k);
    five::copy(s, &mut *m, &mut *d, h, n, c);
    renew(s, &*m, n, i, old, c, &mut *map);
    Ok(Turn::Goes)
}

// Neither the blocks of inode i nor its close change what the image's directories name. Those of a long file may: its addresses go into a block that, on odd bytes, is a directory's too.
fn names_stay(s: &[u8], m: &[u8], n: usize, i: usize) -> bool
    requires { InodeFits s.now n i × InodeFits m.now n i }
    ensures { result ≡ names_stay_b s.now m.now i }
{
    inode::kind(m, n, i) != DIRECTORY
        && inode::kind(s, n, i) != DIRECTORY
        && !blocks::is_long(s, n, i)
}

// 4: none is left.
fn close_step(
    s: &[u8],
    m: &mut [u8],
    d: &mut [u8],
    h: Desk,
    n: usize,
    counts: &mut [u16; INODE_PLACES],
) -> Result<Turn, Refusal>
    requires { Going (world s.now m.old d.old) n h × Counted (world s.now m.old d.old) n counts.old × (h.locked ≢ 0) × (blocks_used (size_of s.now h.locked) ≤ h.transferred) }
    ensures { (map : List ℕ) → Mapped (world s.now m.old d.old) n map → Took result (world s.now m.old d.old) n m.new d.new map counts.new }
{
    let stay = names_stay(s, &*m, n, h.locked as usize);
    five::close(s, &mut *m, &mut *d, h, n);
    if !stay {
        naming::count_names(&*m, n, &mut *counts);
    }
    Ok(Turn::Goes)
}

pub fn locked_step(
    s: &[u8],
    m: &mut [u8],
    d: &mut [u8],
    h: Desk,
    n: usize,
    named: &mut Named,
) -> Result<Turn, Refusal>
    requires { Going (world s.now m.old d.old) n h × Kept (world s.now m.old d.old) n named.old.map named.old.counts × (h.locked ≢ 0) }
    ensures { Took result (world s.now m.old d.old) n m.new d.new named.new.map named.new.counts }
{
    if blocks::blocks_used(inode::size(s, n, h.locked as usize) as usize)
        <= h.transferred as usize
    {
        close_step(s, &mut *m, &mut *d, h, n, &mut named.counts)
    } else {
        block_step(s, &mut *m, &mut *d, h, n, &mut named.map)
    }
}

// ---- a step while none is
// The inode to lock, if one is left.
fn next_lock(d: &[u8], n: usize, counts: &[u16; INODE_PLACES]) -> Option<usize>
    requires { (n ≤ most_inodes) × (desk_length n ≤ length d.now) }
    ensures { (m : List ℕ) → Tallied (image_naming m n) 1 (most_inodes + 1) (most_slots * n) counts.now → free_step m d.now n ≡ on_found result lock finish }
{
    if desk::is_copied(d, n, ROOT) {
        naming::lowest_named(counts, d, n)
    } else {
        Some(ROOT)
    }
}

// None of the addresses that the image has for inode i, by its address block a, is above b; they count if it is long in the store.
fn further_fit(s: &[u8], m: &[u8], n: usize, b: usize, i: usize, a: usize) -> bool
    requires { InodeFits s.now n i × Sized m.now n b × (a ≡ address_block m.now n i) × (1 ≤ a) × (a ≤ b) }
    ensures { result ≡ further_right_of (is_long s.now i) m.now n b i }
{
    !blocks::is_long(s, n, i) || fit::largest_further(m, n, a) as usize <= b
}

// Inode i is to be locked: 3 stays away, by the 32 addresses that count from then on if it is long in the store. In a run its twelfth image address is 0, and there are none.
fn may_hold(s: &[u8], m: &[u8], n: usize, b: usize, i: usize, map: &mut [u16; MAP_WORDS]) -> bool
    requires { InodeFits s.now n i × Sized m.now n b × (address_block m.now n i ≤ b) × (further_right_of (is_long s.now i) m.now n b i ≡ true → RowsFit (long_but m.now i (is_long s.now i)) m.now n) }
    ensures { (result ≡ further_right_of (is_long s.now i) m.now n b i) × (result ≡ true → Maps (is_long m.now) m.now n (most_blocks * n) map.old → Maps (long_but m.now i (is_long s.now i)) m.now n (most_blocks * n) map.new) }
{
    let a = blocks::kth_block(m, n, i, ADDRESS_PLACE) as usize;
    if a < 1 {
        return true;
    }
    if !further_fit(s, m, n, b, i, a) {
        return false;
    }
    map_of(s, m, n, i, &mut *map);
    true
}

pub fn free_step(
    s: &[u8],
    m: &mut [u8],
    d: &mut [u8],
    h: Desk,
    n: usize,
    map: &mut [u16; MAP_WORDS],
    counts: &[u16; INODE_PLACES],
) -> Result<Turn, Refusal>
    requires { Going (world s.now m.old d.old) n h × Kept (world s.now m.old d.old) n map.old counts.now × (h.locked ≡ 0) }
    ensures { Took result (world s.now m.old d.old) n m.new d.new map.new counts.now }
{
    let Some(i) = next_lock(&*d, n, counts) else {
        five::finish(&mut *m, &mut *d, h, n, &*map, counts);
        return Ok(Turn::Ends);
    };
    let holds = may_hold(s, &*m, n, h.blocks as usize, i, &mut *map);
    five::lock(&mut *d, h, i);
    if holds {
        return Ok(Turn::Goes);
    }
    // the next step would be refused with 3: this one was accepted
    Ok(Turn::Ends)
}
