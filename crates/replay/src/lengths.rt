// How many bytes of the program's arrays are store, image and desk: `new` changes it, if there is room.
ghost use Rattle.std.specs.Prelude.{◌≤◌, IfSome};
ghost use Rattle.replay.specs.Fit.{Fit};

use desk::{DESK_HEADER_BYTES, DESK_INODE_BYTES};
use layout::sizes::{BLOCK_BYTES, HEADER_BYTES, INODE_BYTES};
use replay_commands::Command;

#[derive(Clone, Copy)]
pub struct Lengths {
    pub store: usize,
    pub image: usize,
    pub desk: usize,
}

// What is to be done, and the lengths for it.
#[derive(Drop)]
pub struct Plan {
    pub command: Command,
    pub lengths: Lengths,
}

// No count beyond this one has a buffer here, and none up to it is a length that overflows.
const MOST: usize = 65536;

// A store's or an image's.
fn length_of(n: usize, b: usize) -> usize
    requires { (n ≤ 65536) × (b ≤ 65536) }
{
    HEADER_BYTES + INODE_BYTES * n + BLOCK_BYTES * b
}

// The lengths for n inodes, b blocks and i blocks in the image, if there is room for them.
fn renewed(n: usize, b: usize, i: usize, room: Lengths) -> Option<Lengths>
    ensures { IfSome result (λ lengths. Fit lengths room) }
{
    if MOST < n.max(b).max(i) {
        return None;
    }
    let lengths = Lengths {
        store: length_of(n, b),
        image: length_of(n, i),
        desk: DESK_HEADER_BYTES + DESK_INODE_BYTES * n,
    };
    let fit = lengths.store <= room.store
        && lengths.image <= room.image
        && lengths.desk <= room.desk;
    fit.then_some(lengths)
}

// What is to be done: `new` with lengths that don't fit is no command, and the old ones stay.
pub fn planned(command: Command, kept: Lengths, room: Lengths) -> Plan
    requires { Fit kept room }
    ensures { Fit result.lengths room }
{
    let Command::New(n, b, i) = command else {
        return Plan {
            command,
            lengths: kept,
        };
    };
    match renewed(n, b, i, room) {
        Some(lengths) => Plan { command, lengths },
        None => Plan {
            command: Command::Bad,
            lengths: kept,
        },
    }
}
