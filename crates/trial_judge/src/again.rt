// Places and blocks that another inode has in a later store, and files above 768 bytes: what a trial tells of, and no part of the judgement.
ghost use Rattle.std.specs.Prelude.{◌*◌, ◌≤◌};

use crate::copy::is_taken;
use crate::fields::{BLOCKS, Inode, Kind, Store};

// The inode of each block; numbers from 64 on are left out.
fn owners(s: Store) -> [Option<usize>; 64] {
    let mut owners = [None; 64];
    for i in 1..=s.inodes {
        for k in 0..BLOCKS {
            if let Some(block) = s.inode(i).block(k) {
                if block.number < 64 {
                    owners[block.number] = Some(i);
                }
            }
        }
    }
    owners
}

fn changed(x: Option<usize>, y: Option<usize>) -> bool {
    x.is_some() && y.is_some() && x != y
}

// Entries taken out from one store to the next.
pub fn entries_taken(before: Store, after: Store) -> usize
    ensures { result ≤ 48 * before.entry.inodes }
{
    (0..before.places())
        .filter(|&p| is_taken(before.place(p), after.place(p)))
        .count()
}

// Those of them whose places another inode has at once.
pub fn places_again(before: Store, after: Store) -> usize
    ensures { result ≤ 48 * before.entry.inodes }
{
    (0..before.places())
        .filter(|&p| changed(before.place(p).names(), after.place(p).names()))
        .count()
}

pub fn blocks_again(first: Store, last: Store) -> usize
    ensures { result ≤ 64 }
{
    owners(first)
        .iter()
        .zip(&owners(last))
        .filter(|(x, y)| changed(**x, **y))
        .count()
}

// The inode is a file in both stores, and above 768 bytes in one of them.
fn crossed(first: Inode, last: Inode) -> bool {
    first.kind() == Kind::File && last.kind() == Kind::File && first.is_long() != last.is_long()
}

// Files that have grown or were cut across 768 bytes.
pub fn files_crossed(first: Store, last: Store) -> usize
    ensures { result ≤ 256 }
{
    (1..=first.inodes)
        .filter(|&i| crossed(first.inode(i), last.inode(i)))
        .count()
}

// Files above 768 bytes.
pub fn files_long(s: Store) -> usize
    ensures { result ≤ 256 }
{
    (1..=s.inodes).filter(|&i| s.inode(i).is_long()).count()
}
