// Runs a script from standard input on a fresh store, and prints what each line is answered; the line in which a copy finishes is followed by its listing.
#![tactic(auto)]

mod lines_of;
mod print;

use desk::{DESK_HEADER_BYTES, DESK_INODE_BYTES};
use layout::sizes::{BLOCK_BYTES, HEADER_BYTES, INODE_BYTES};

const STDIN_FILENO: i32 = 0;

const INODES: usize = 16;

const BLOCKS: usize = 64;

const IMAGE_BLOCKS: usize = 128;

const STORE_BYTES: usize = HEADER_BYTES + INODE_BYTES * INODES + BLOCK_BYTES * BLOCKS;

const IMAGE_BYTES: usize = HEADER_BYTES + INODE_BYTES * INODES + BLOCK_BYTES * IMAGE_BLOCKS;

const DESK_BYTES: usize = DESK_HEADER_BYTES + DESK_INODE_BYTES * INODES;

// Only the first 65,536 bytes of the script are read.
fn main() {
    let mut store = [0u8; STORE_BYTES];
    let mut image = [0u8; IMAGE_BYTES];
    let mut desk = [0u8; DESK_BYTES];
    let _ = watch::lay_out_store(&mut store, INODES, BLOCKS);
    let _ = watch::lay_out_desk(&mut desk, INODES);
    let mut script = io::large_buffer();
    let n = io::read_full(STDIN_FILENO, &mut script);
    lines_of::run(&script[..n], &mut store, &mut image, &mut desk);
}
