// What is read off an image: how often its directories name each inode, the next inode to copy by these counts, and what a finish writes. m is the image, d the desk, n the count of inodes.
ghost use Rattle.std.specs.Prelude.{◌≡◌, not, ◌&&◌, ℕ, ◌+◌, ◌*◌, ◌-◌, ◌<◌, ◌≤◌, eqb, length, get_or};
ghost use Rattle.bounded.specs.Count.{Tallied};
ghost use Rattle.bounded.specs.Search.{first_from};
ghost use Rattle.octets.specs.Octets.{part};
ghost use Rattle.layout.specs.Sizes.{most_inodes, most_image_blocks, most_blocks, address_count};
ghost use Rattle.layout.specs.Inode.{kind_of, directory_kind};
ghost use Rattle.blocks.specs.Block.{is_long};
ghost use Rattle.blocks.specs.Map.{Maps};
ghost use Rattle.names.specs.Entry.{entry_bytes, entry_inode};
ghost use Rattle.directory.specs.Slot.{most_slots, slots_in_block};
ghost use Rattle.desk.specs.Sizes.{desk_length};
ghost use Rattle.desk.specs.Desk.{is_copied};
ghost use Rattle.sound.specs.Place.{place_of};
ghost use Rattle.checkpoint.specs.Image.{image_naming};
ghost use Rattle.checkpoint.specs.Copier.{put_counts, finish_image};
ghost use Rattle.image.specs.Addressed.{Addressed};

use blocks::map;
use directory::SLOTS_IN_BLOCK;
use layout::sizes::{ADDRESS_COUNT, COMPLETE, DIRECTORY, INODE_PLACES, MOST_INODES};
use layout::{header, inode};
use names::ENTRY_BYTES;

// The inode that the 16 bytes at o name is counted; 0 and numbers above 256 are passed over.
fn count_entry(m: &[u8], o: usize, counts: &mut [u16])
    requires { (o + entry_bytes ≤ length m.now) × (length counts.old ≡ most_inodes + 1) × ((v : ℕ) → 1 ≤ v → v ≤ most_inodes → get_or counts.old v 0 < 65535) }
    ensures { (f : ℕ → ℕ) (p : ℕ) → f p ≡ entry_inode (part m.now o entry_bytes) → Tallied f 1 (most_inodes + 1) p counts.old → Tallied f 1 (most_inodes + 1) (p + 1) counts.new }
{
    let i = names::entry_inode(&m[o..o + ENTRY_BYTES]) as usize;
    if (1..=MOST_INODES).contains(&i) {
        counts[i] += 1;
    }
}

// The four slots of the k-th block of directory e, which may have no such block.
fn count_block(m: &[u8], n: usize, e: usize, k: usize, counts: &mut [u16])
    requires { Addressed m.now n × (1 ≤ e) × (e ≤ n) × (k < address_count) × (kind_of m.now e ≡ directory_kind) × Tallied (image_naming m.now n) 1 (most_inodes + 1) (place_of e (slots_in_block * k)) counts.old }
    ensures { Tallied (image_naming m.now n) 1 (most_inodes + 1) (place_of e (slots_in_block * (k + 1))) counts.new }
{
    let a = blocks::kth_block(m, n, e, k) as usize;
    if a == 0 {
        return;
    }
    let o = blocks::block_at(n, a);
    // by offset and no chunks_exact: the counts are told by the turn's number, which its chunks don't give
    for j in 0..SLOTS_IN_BLOCK {
        count_entry(m, o + ENTRY_BYTES * j, &mut *counts);
    }
}

// The slots of inode e, which may be no directory.
fn count_directory(m: &[u8], n: usize, e: usize, counts: &mut [u16])
    requires { Addressed m.now n × (1 ≤ e) × (e ≤ n) × Tallied (image_naming m.now n) 1 (most_inodes + 1) (most_slots * (e - 1)) counts.old }
    ensures { Tallied (image_naming m.now n) 1 (most_inodes + 1) (most_slots * e) counts.new }
{
    if inode::kind(m, n, e) != DIRECTORY {
        return;
    }
    for k in 0..ADDRESS_COUNT {
        count_block(m, n, e, k, &mut *counts);
    }
}

// How often each inode is named by the image's directories, whatever the counts were before: one pass over their slots.
pub fn count_names(m: &[u8], n: usize, counts: &mut [u16; INODE_PLACES])
    requires { Addressed m.now n }
    ensures { Tallied (image_naming m.now n) 1 (most_inodes + 1) (most_slots * n) counts.new }
{
    *counts = [0u16; INODE_PLACES];
    for k in 0..n {
        count_directory(m, n, k + 1, &mut *counts);
    }
}

// The lowest uncopied inode that the counts have.
pub fn lowest_named(counts: &[u16; INODE_PLACES], d: &[u8], n: usize) -> Option<usize>
    requires { (n ≤ most_inodes) × (desk_length n ≤ length d.now) }
    ensures { result ≡ first_from (λ i. not (is_copied d.now n i) && not (eqb (get_or counts.now i 0) 0)) 1 n }
{
    (1..n + 1).find(|&i| counts[i] != 0 && !desk::is_copied(d, n, i))
}

// The link counts of all inodes.
fn put_counts(m: &mut [u8], n: usize, counts: &[u16; INODE_PLACES])
    requires { Addressed m.old n × Tallied (image_naming m.old n) 1 (most_inodes + 1) (most_slots * n) counts.now }
    ensures { m.new ≡ put_counts m.old m.old n n }
{
    // the number is the inode's too: a chain would skip place 0, stop at n and count from 1
    for k in 0..n {
        inode::put_links(&mut *m, n, k + 1, counts[k + 1]);
    }
}

// The finished image: everything is counted before a byte is written. Nothing is locked any more, so an inode is long by its own size.
pub fn finish_image(m: &mut [u8], n: usize, b: usize, map: &[u16], counts: &[u16; INODE_PLACES])
    requires { Addressed m.old n × (b ≤ most_image_blocks) × Maps (is_long m.old) m.old n (most_blocks * n) map.now × Tallied (image_naming m.old n) 1 (most_inodes + 1) (most_slots * n) counts.now }
    ensures { m.new ≡ finish_image m.old n b }
{
    let inodes = inode::free_inodes(&*m, n);
    let blocks = map::free_blocks(map, b);
    put_counts(&mut *m, n, counts);
    header::put_free(&mut *m, inodes as u16, blocks as u16);
    header::put_complete(&mut *m, COMPLETE);
}
