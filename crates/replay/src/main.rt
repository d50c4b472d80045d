// Replays the vectors: reads commands from standard input, one a line, and prints for each the answer and the checksums of store, image and desk.
#![tactic(auto)]

mod lengths;
mod lines;

use desk::{DESK_HEADER_BYTES, DESK_INODE_BYTES};
use layout::sizes::{BLOCK_BYTES, HEADER_BYTES, INODE_BYTES, MOST_IMAGE_BLOCKS, MOST_STORE_BLOCKS};
use lines::Session;

// Room for more than is allowed: some inodes, and one block.
const INODES: usize = 300;

const STORE_BYTES: usize = HEADER_BYTES
    + INODE_BYTES * INODES
    + BLOCK_BYTES * (MOST_STORE_BLOCKS + 1);

const IMAGE_BYTES: usize = HEADER_BYTES
    + INODE_BYTES * INODES
    + BLOCK_BYTES * (MOST_IMAGE_BLOCKS + 1);

const DESK_BYTES: usize = DESK_HEADER_BYTES + DESK_INODE_BYTES * INODES;

fn main(rt: HostRuntime) {
    let mut store = [0u8; STORE_BYTES];
    let mut image = [0u8; IMAGE_BYTES];
    let mut desk = [0u8; DESK_BYTES];
    Session::new(&mut store, &mut image, &mut desk).replay(&mut rt.stdin());
}
