// A copy's link counts and free counts, counted anew from its entries, kinds and addresses.
use crate::fields::{BLOCKS, Kind, Store};

// How many entries name inode i.
fn times_named(copy: Store, i: usize) -> usize {
    (0..copy.places())
        .filter(|&p| copy.place(p).names() == Some(i))
        .count()
}

// The first inode whose link count is not the number of entries that name it.
pub fn wrong_links(copy: Store) -> Option<usize> {
    (1..=copy.inodes).find(|&i| copy.inode(i).links() != times_named(copy, i))
}

pub fn free_inodes_right(copy: Store) -> bool {
    let free = (1..=copy.inodes)
        .filter(|&i| copy.inode(i).kind() == Kind::Free)
        .count();
    copy.pair(4) == free
}

// Whether inodes have all blocks but so many.
pub fn free_blocks_right(copy: Store) -> bool {
    let used = (0..BLOCKS * copy.inodes)
        .filter(|&q| copy.inode(1 + q / BLOCKS).block(q % BLOCKS).is_some())
        .count();
    copy.pair(2) == used + copy.pair(6)
}
