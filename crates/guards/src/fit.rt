// Whether the desk fits, and with it the image: refusals 1 and 3. Any bytes may be lent.
ghost use Rattle.std.specs.Prelude.{◌≡◌, true, ◌+◌, ◌*◌, ◌<◌, ◌≤◌, length};
ghost use Rattle.layout.specs.Sizes.{header_bytes, inode_bytes, most_inodes};
ghost use Rattle.desk.specs.Sizes.{desk_header_bytes};
ghost use Rattle.checkpoint.specs.Fit.{desk_framed, desk_fits};
ghost use Rattle.guards.specs.Fit.{blocks_right, copied_right, counts_right, notes_right};

use desk::{DESK_HEADER_BYTES, Desk, IDLE, RUNNING, STEPS_AN_INODE, STOPPED};
use image::fit::image_fits;
use layout::sizes::{MOST_BLOCKS, MOST_IMAGE_BLOCKS};

// ---- the desk
// Its count of inodes is allowed, and the length is theirs.
pub fn desk_framed(d: &[u8]) -> bool
    ensures { result ≡ desk_framed d.now }
{
    d.len() >= DESK_HEADER_BYTES && desk::allowed(Desk::read(d).inodes as usize, d.len())
}

// The image's count of blocks is one that the state allows.
fn blocks_fit(h: Desk) -> bool
    ensures { result ≡ blocks_right h }
{
    if h.state == IDLE {
        h.blocks == 0
    } else {
        h.blocks >= 1 && h.blocks as usize <= MOST_IMAGE_BLOCKS
    }
}

// Copied bytes are 0 or 1: the largest is. A fold that keeps the largest has no early exit, so it
// compiles to vector code.
fn copied_fit(d: &[u8], n: usize) -> bool
    requires { desk_header_bytes + n ≤ length d.now }
    ensures { result ≡ copied_right d.now n }
{
    (0..n).fold(0u8, |most, k| most.max(desk::copied_byte(d, k + 1))) <= 1
}

// The locked inode, its blocks copied so far, and the steps.
fn counts_fit(h: Desk) -> bool
    requires { h.inodes ≤ most_inodes }
    ensures { result ≡ counts_right h }
{
    if h.inodes < h.locked || MOST_BLOCKS < h.transferred as usize {
        return false;
    }
    let most = STEPS_AN_INODE * (h.inodes as u32);
    if h.state == RUNNING {
        h.steps <= most
    } else {
        h.locked == 0 && h.transferred == 0 && h.steps <= most + 1
    }
}

// A desk whose length is right is laid out as it must be.
fn desk_fits(d: &[u8]) -> bool
    requires { desk_framed d.now ≡ true }
    ensures { result ≡ desk_fits d.now }
{
    let h = Desk::read(d);
    h.state <= STOPPED
        && blocks_fit(h)
        && desk::reserved_zero(d)
        && copied_fit(d, h.inodes as usize)
        && counts_fit(h)
}

// ---- both
// Desk and image, beside a store of n inodes; store and image are looked at only while the copy runs.
pub fn notes_fit(n: usize, s: &[u8], m: &[u8], d: &[u8]) -> bool
    requires { (desk_framed d.now ≡ true) × (header_bytes + inode_bytes * n ≤ length s.now) }
    ensures { result ≡ notes_right n s.now m.now d.now }
{
    if !desk_fits(d) {
        return false;
    }
    let h = Desk::read(d);
    h.inodes as usize == n && (h.state != RUNNING || image_fits(s, m, d))
}
