// The two layout calls: a store with an empty root, and a desk that is idle.
#![tactic(auto)]

ghost use Rattle.std.specs.Prelude.{◌≡◌, ◌≤◌};
ghost use Rattle.layout.specs.Sizes.{most_inodes, most_store_blocks};
ghost use Rattle.format.specs.Format.{laid_out, fresh_header, lay_out_store, lay_out_desk};

use answers::{Answer, Refusal};
use blocks::allowed;
use desk::{Desk, IDLE};
use layout::header::Header;
use layout::inode::Inode;
use layout::sizes::{COMPLETE, DIRECTORY, MOST_STORE_BLOCKS, ROOT};

#[tactic(auto, unfolding(crate::specs::Format::fresh_header))]
fn fresh_header(n: usize, b: usize) -> Header
    requires { (1 ≤ n) × (n ≤ most_inodes) × (b ≤ most_store_blocks) }
    ensures { result ≡ fresh_header n b }
{
    Header {
        inodes: n as u16,
        blocks: b as u16,
        free_inodes: (n - 1) as u16,
        free_blocks: b as u16,
        complete: COMPLETE,
        root: ROOT as u16,
    }
}

pub fn lay_out_store(buffer: &mut [u8], inodes: usize, blocks: usize) -> Answer
    ensures { laid_out result buffer.new ≡ lay_out_store buffer.old inodes blocks }
{
    let length = buffer.len();
    if !allowed(MOST_STORE_BLOCKS, inodes, blocks, length) {
        return Err(Refusal::BadBuffer);
    }
    octets::zero_range(buffer, 0, length);
    fresh_header(inodes, blocks).write(buffer);
    Inode::empty(DIRECTORY).write(buffer, inodes, ROOT);
    Ok(0)
}

pub fn lay_out_desk(buffer: &mut [u8], inodes: usize) -> Answer
    ensures { laid_out result buffer.new ≡ lay_out_desk buffer.old inodes }
{
    let length = buffer.len();
    if !desk::allowed(inodes, length) {
        return Err(Refusal::BadBuffer);
    }
    octets::zero_range(buffer, 0, length);
    let fresh = Desk {
        inodes: inodes as u16,
        blocks: 0,
        state: IDLE,
        locked: 0,
        transferred: 0,
        steps: 0,
    };
    fresh.write(buffer);
    Ok(0)
}
