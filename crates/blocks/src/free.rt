// Which blocks the inodes have, and the lowest that none has. Inode l has an address block as told by long, every other by its own size.
ghost use Rattle.std.specs.Prelude.{◌≡◌, ℕ, ◌+◌, ◌-◌, ◌*◌, ◌<◌, ◌≤◌, length};
ghost use Rattle.layout.specs.Sizes.{address_count, further_count, most_blocks, block_bytes, most_inodes, most_image_blocks};
ghost use Rattle.layout.specs.Inode.{address_of, address_index};
ghost use Rattle.layout.specs.Fits.{InodeFits};
ghost use Rattle.blocks.specs.Block.{block_at, further_of, kth_by};
ghost use Rattle.blocks.specs.Free.{long_but, lowest_by};
ghost use Rattle.blocks.specs.Fits.{RowsFit, Reaches};
ghost use Rattle.blocks.specs.Map.{map_words, Maps, Notes};
ghost use Rattle.blocks.specs.Gives.{Gives};

use crate::map::MAP_WORDS;
use crate::{further, is_long, map};
use layout::inode::{address, addresses_zero};
use layout::sizes::{ADDRESS_COUNT, ADDRESS_PLACE, FURTHER_COUNT};

// The count blocks that a closure gives are noted in the map.
fn note_each<F: Fn(usize) -> u16>(map: &mut [u16], count: usize, block: F)
    requires long { length map.old ≡ map_words }
    requires asked { (k : ℕ) → k < count → F.pre block k }
    requires few { (k b : ℕ) → k < count → F.post block k b → b ≤ most_image_blocks }
    ensures { (g : ℕ → ℕ) → Gives F.Fn block count g → Notes g count map.old map.new }
{
    for k in 0..count {
        map::note(&mut *map, usize::from(block(k)));
    }
}

// Inode i has an address block: inode l as told, every other by its own size.
#[tactic(auto, unfolding(crate::specs::Free::long_but))]
pub fn long_but(s: &[u8], n: usize, l: usize, long: bool, i: usize) -> bool
    requires { InodeFits s.now n i }
    ensures { result ≡ long_but s.now l long i }
{
    if i == l { long } else { is_long(s, n, i) }
}

// The blocks of inode i. Most inodes have none, which is asked first.
fn note_blocks(s: &[u8], n: usize, i: usize, l: usize, long: bool, map: &mut [u16])
    requires { InodeFits s.now n i × (length map.old ≡ map_words) × ((k : ℕ) → k < most_blocks → kth_by (long_but s.now l long i) s.now n i k ≤ most_image_blocks) × Reaches (long_but s.now l long i) s.now n i }
    ensures { Notes (kth_by (long_but s.now l long i) s.now n i) most_blocks map.old map.new }
{
    if addresses_zero(s, n, i) {
        return;
    }
    let x = ADDRESS_COUNT * (i - 1);
    note_each(&mut *map, ADDRESS_COUNT, |k| address(s, n, x + k));
    if !long_but(s, n, l, long, i) {
        return;
    }
    let a = usize::from(address(s, n, x + ADDRESS_PLACE));
    if a < 1 {
        return;
    }
    note_each(&mut *map, FURTHER_COUNT, |j| further(s, n, a, j));
}

// The map of all blocks that an inode has, whatever it was before: one pass over the inodes. It is lent, since one that is handed back is held twice.
pub fn named_blocks(s: &[u8], n: usize, l: usize, long: bool, map: &mut [u16; MAP_WORDS])
    requires { RowsFit (long_but s.now l long) s.now n }
    ensures { Maps (long_but s.now l long) s.now n (most_blocks * n) map.new }
{
    *map = [0u16; MAP_WORDS];
    for k in 0..n {
        note_blocks(s, n, k + 1, l, long, &mut *map);
    }
}

pub fn free_block(s: &[u8], n: usize, l: usize, long: bool, count: usize) -> Option<usize>
    requires { RowsFit (long_but s.now l long) s.now n × (count ≤ most_image_blocks) }
    ensures { result ≡ lowest_by (long_but s.now l long) s.now n count }
{
    let mut map = [0u16; MAP_WORDS];
    named_blocks(s, n, l, long, &mut map);
    map::lowest(&map, count)
}
