// The check: whether bytes, any bytes, are a sound store or a finished image.
#![tactic(auto)]

pub mod entries;
pub mod links;

ghost use Rattle.std.specs.Prelude.{◌≡◌, ◌*◌, ◌≤◌};
ghost use Rattle.layout.specs.Sizes.{most_image_blocks, most_blocks, root_inode};
ghost use Rattle.layout.specs.Fits.{InodeFits};
ghost use Rattle.sound.specs.Sound.{inodes_in, blocks_in, Framed, limit_of};
ghost use Rattle.sound.specs.Test.{framed_b, header_b, free_counts_b, body_b, is_sound};
ghost use Rattle.check_inodes.specs.Pass.{MapsOf};
ghost use Rattle.sound.specs.declared.Form.TheVariants.{Image};

use blocks::map::MAP_WORDS;
use blocks::{allowed, map};
use layout::header::Header;
use layout::sizes::{
    COMPLETE, DIRECTORY, HEADER_BYTES, INODE_PLACES, MOST_IMAGE_BLOCKS, MOST_STORE_BLOCKS, ROOT,
};
use layout::{header, inode};
use sound::Form;

// The most blocks that the form allows.
fn block_limit(form: Form) -> usize
    ensures { (result ≡ limit_of form) × (result ≤ most_image_blocks) }
{
    match form {
        Form::Store => MOST_STORE_BLOCKS,
        Form::Image => MOST_IMAGE_BLOCKS,
    }
}

// The header's counts are allowed, and the length is theirs.
pub fn framed(form: Form, s: &[u8]) -> bool
    ensures { result ≡ framed_b form s.now }
{
    if s.len() < HEADER_BYTES {
        return false;
    }
    let h = Header::read(s);
    allowed(
        block_limit(form),
        usize::from(h.inodes),
        usize::from(h.blocks),
        s.len(),
    )
}

// Byte 8, the root and the reserved bytes; the root is a directory that has no parent.
#[tactic(auto, unfolding(sound::specs::Test::header_b))]
fn header_right(s: &[u8], n: usize) -> bool
    requires { InodeFits s.now n root_inode }
    ensures { result ≡ header_b s.now }
{
    let h = Header::read(s);
    h.complete == COMPLETE
        && usize::from(h.root) == ROOT
        && header::reserved_zero(s)
        && inode::kind(s, n, ROOT) == DIRECTORY
        && inode::parent(s, n, ROOT) == 0
}

// The free counts are true.
fn counts_right(s: &[u8], n: usize, b: usize, map: &[u16]) -> bool
    requires { Framed Image s.now × (n ≡ inodes_in s.now) × (b ≡ blocks_in s.now) × MapsOf s.now n (most_blocks * n) map.now }
    ensures { result ≡ free_counts_b s.now }
{
    let h = Header::read(s);
    usize::from(h.free_inodes) == inode::free_inodes(s, n)
        && usize::from(h.free_blocks) == map::free_blocks(map, b)
}

// What holds of a store whose counts and length are right.
#[tactic(auto, unfolding(sound::specs::Test::body_b))]
pub fn body_right(form: Form, s: &[u8], n: usize, b: usize) -> bool
    requires { Framed Image s.now × (n ≡ inodes_in s.now) × (b ≡ blocks_in s.now) }
    ensures { result ≡ body_b form s.now }
{
    // before anything is laid out: bytes whose header is wrong are told at once
    if !header_right(s, n) {
        return false;
    }
    let mut map = [0u16; MAP_WORDS];
    let mut counts = [0u16; INODE_PLACES];
    check_inodes::inodes_right(s, n, b, &mut map)
        && entries::entries_right(s, n, &mut counts)
        && links::links_right(s, n, &counts)
        && links::parents_right(s, n)
        && counts_right(s, n, b, &map)
        && match form {
            Form::Store => true,
            Form::Image => check_inodes::blanks_right(s, n, b, &map),
        }
}

pub fn check(form: Form, s: &[u8]) -> bool
    ensures { result ≡ is_sound form s.now }
{
    if !framed(form, s) {
        return false;
    }
    let h = Header::read(s);
    body_right(form, s, usize::from(h.inodes), usize::from(h.blocks))
}
