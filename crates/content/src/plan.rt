// What a read, a write and a shortening are to do, decided before any byte changes: the count, or the new size. n is the count of inodes.
ghost use Rattle.std.specs.Prelude.{◌≡◌};
ghost use Rattle.sound.specs.Sound.{blocks_in};
ghost use Rattle.sound.specs.Counted.{SoundStore};
ghost use Rattle.content.specs.Plan.{read_plan, write_plan, shorten_plan};

use answers::{Answer, Refusal};
use blocks::blocks_used;
use layout::header::Header;
use layout::inode;
use layout::inode::is_kind;
use layout::sizes::{FILE, MOST_FILE_BYTES};

// A read at o into a buffer of k bytes.
#[tactic(auto, unfolding(crate::specs::Plan::read_plan))]
pub fn read_plan(s: &[u8], n: usize, i: usize, o: usize, k: usize) -> Answer
    requires { SoundStore s.now n (blocks_in s.now) }
    ensures { result ≡ read_plan s.now n i o k }
{
    if !is_kind(s, n, FILE, i) {
        return Err(Refusal::WrongInode);
    }
    let size = usize::from(inode::size(s, n, i));
    if size < o {
        return Err(Refusal::PastEnd);
    }
    Ok(k.min(size - o))
}

#[tactic(auto, unfolding(crate::specs::Plan::shorten_plan))]
pub fn shorten_plan(s: &[u8], n: usize, i: usize, z: usize) -> Answer
    requires { SoundStore s.now n (blocks_in s.now) }
    ensures { result ≡ shorten_plan s.now n i z }
{
    if !is_kind(s, n, FILE, i) {
        return Err(Refusal::WrongInode);
    }
    if usize::from(inode::size(s, n, i)) < z {
        return Err(Refusal::PastEnd);
    }
    Ok(z)
}

// A write of k bytes at o.
#[tactic(auto, unfolding(crate::specs::Plan::write_plan))]
pub fn write_plan(s: &[u8], n: usize, i: usize, o: usize, k: usize) -> Answer
    requires { SoundStore s.now n (blocks_in s.now) }
    ensures { result ≡ write_plan s.now n i o k }
{
    if !is_kind(s, n, FILE, i) {
        return Err(Refusal::WrongInode);
    }
    let size = usize::from(inode::size(s, n, i));
    if size < o || MOST_FILE_BYTES - o < k {
        return Err(Refusal::PastEnd);
    }
    let end = size.max(o + k);
    if usize::from(Header::read(s).free_blocks) < blocks_used(end) - blocks_used(size) {
        return Err(Refusal::NoBlocks);
    }
    Ok(end)
}
