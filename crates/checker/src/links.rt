// What the entries say of each inode: its link count, and that parents lead to the root.
ghost use Rattle.std.specs.Prelude.{◌≡◌, ◌+◌, ◌*◌, ◌≤◌, length};
ghost use Rattle.bounded.specs.Below.{all_to};
ghost use Rattle.bounded.specs.Count.{tally, Tallied};
ghost use Rattle.bounded.specs.Climb.{Leads, leads_b, Closed};
ghost use Rattle.layout.specs.Sizes.{header_bytes, most_inodes, inode_bytes, root_inode};
ghost use Rattle.layout.specs.Inode.{parent_of};
ghost use Rattle.layout.specs.Fits.{InodeFits};
ghost use Rattle.directory.specs.Slot.{most_slots};
ghost use Rattle.sound.specs.Place.{naming, IsDir};
ghost use Rattle.sound.specs.Test.{counted_b, lead_b};
ghost use Rattle.checker.specs.Pass.{Known};

use layout::inode;
use layout::sizes::{DIRECTORY, FREE, INODE_PLACES, ROOT};

// Inode i, which count entries name.
fn link_right(s: &[u8], n: usize, i: usize, count: u16) -> bool
    requires { InodeFits s.now n i × (count ≡ tally (naming s.now n) (most_slots * n) i) }
    ensures { result ≡ counted_b s.now n i }
{
    inode::links(s, n, i) == count
        && (i == ROOT
            || match inode::kind(s, n, i) {
                FREE => true,
                DIRECTORY => count == 1,
                _ => 1 <= count,
            })
}

pub fn links_right(s: &[u8], n: usize, counts: &[u16]) -> bool
    requires { (n ≤ most_inodes) × (header_bytes + inode_bytes * n ≤ length s.now) × Tallied (naming s.now n) 1 (most_inodes + 1) (most_slots * n) counts.now }
    ensures { result ≡ all_to (counted_b s.now n) n }
{
    (0..n).all(|k| link_right(s, n, k + 1, counts[k + 1]))
}

// From directory d up to one that is known to lead to the root, in at most n steps.
fn climbs(s: &[u8], n: usize, d: usize, known: &[bool]) -> bool
    requires { (n ≤ most_inodes) × (header_bytes + inode_bytes * n ≤ length s.now) × IsDir s.now n d × Known s.now known.now × Closed (IsDir s.now n) (parent_of s.now) root_inode n }
    ensures { result ≡ leads_b (parent_of s.now) root_inode n d }
{
    let mut at = d;
    // a loop: a walk up, which no range or slice gives
    for _ in 0..n {
        if known[at] {
            return true;
        }
        at = usize::from(inode::parent(s, n, at));
    }
    known[at]
}

// Directory d leads to the root: so does every directory from it up to one that is known.
fn note_path(s: &[u8], n: usize, d: usize, known: &mut [bool])
    requires n_le_most_inodes { (n ≤ most_inodes) × (header_bytes + inode_bytes * n ≤ length s.now) × IsDir s.now n d × Known s.now known.old × Closed (IsDir s.now n) (parent_of s.now) root_inode n }
    requires leads { Leads (parent_of s.now) root_inode d }
    ensures { Known s.now known.new }
{
    let mut noted = d;
    // a loop, as in climbs
    for _ in 0..n {
        if known[noted] {
            return;
        }
        known[noted] = true;
        noted = usize::from(inode::parent(s, n, noted));
    }
}

// One directory: looked up, and its path noted.
fn parent_right(s: &[u8], n: usize, d: usize, known: &mut [bool]) -> bool
    requires { InodeFits s.now n d × Known s.now known.old × Closed (IsDir s.now n) (parent_of s.now) root_inode n }
    ensures { (result ≡ lead_b s.now n d) × Known s.now known.new }
{
    if inode::kind(s, n, d) != DIRECTORY {
        return true;
    }
    if !climbs(s, n, d, known) {
        return false;
    }
    note_path(s, n, d, known);
    true
}

// Parents lead to the root: linear, since a path is followed only up to what is known.
pub fn parents_right(s: &[u8], n: usize) -> bool
    requires { (1 ≤ n) × (n ≤ most_inodes) × (header_bytes + inode_bytes * n ≤ length s.now) × Closed (IsDir s.now n) (parent_of s.now) root_inode n }
    ensures { result ≡ all_to (lead_b s.now n) n }
{
    let mut known = [false; INODE_PLACES];
    known[ROOT] = true;
    // a loop: what a closure notes in known, `all` does not say
    for k in 0..n {
        if !parent_right(s, n, k + 1, &mut known) {
            return false;
        }
    }
    true
}
