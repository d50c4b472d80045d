// A step of the copy apart from its guards: exactly one of five things, over the desk's header and its methods. s is the store, m the image, d the desk, h the desk's header, n the count of inodes.
// n stays beside h, whose field h.inodes it is in a run: the clauses hold of any n, and with h.inodes in its place
// they would ask more of callers.
ghost use Rattle.std.specs.Prelude.{◌≡◌, true, List, ℕ, ◌+◌, ◌*◌, ◌<◌, ◌≤◌, length};
ghost use Rattle.bounded.specs.Count.{Tallied};
ghost use Rattle.layout.specs.Sizes.{most_inodes, most_image_blocks, most_blocks};
ghost use Rattle.layout.specs.Inode.{size_of};
ghost use Rattle.blocks.specs.Block.{blocks_used, is_long};
ghost use Rattle.blocks.specs.Map.{Maps};
ghost use Rattle.directory.specs.Slot.{most_slots};
ghost use Rattle.desk.specs.Sizes.{desk_header_bytes};
ghost use Rattle.desk.specs.Desk.{desk_of};
ghost use Rattle.sound.specs.Sound.{inodes_in};
ghost use Rattle.answers.specs.declared.Refusal.TheVariants.{ImageFull};
ghost use Rattle.checkpoint.specs.Fit.{is_running};
ghost use Rattle.checkpoint.specs.Image.{image_naming};
ghost use Rattle.checkpoint.specs.Copier.{lock, copy, close, finish, full, free_step, locked_step, step_of, step_desk};
ghost use Rattle.checkpoint.specs.Live.{left, do_step, world};
ghost use Rattle.checkpoint.specs.List.{Ready};
ghost use Rattle.image.specs.Addressed.{Addressed};
ghost use Rattle.copier.specs.Held.{Held, Locked, Target, FreeImage, OpenImage};

use answers::{Answer, Refusal};
use blocks::free;
use blocks::map::MAP_WORDS;
use content::apply::kth_used;
use desk::Desk;
use image::naming;
use layout::inode;
use layout::inode::Inode;
use layout::sizes::{BLOCK_BYTES, INODE_PLACES, ROOT};
use transfer::target_block;

// 1 and 2: inode i is locked.
pub fn lock(d: &mut [u8], h: Desk, i: usize) -> usize
    requires { (h ≡ desk_of d.old) × (desk_header_bytes ≤ length d.old) × (h.steps + 1 < 4294967296) × (i < 65536) }
    ensures { (result ≡ (desk_of d.old).steps + 1) × (d.new ≡ step_desk d.old (lock i)) }
{
    let held = h.lock(i as u16);
    held.write(&mut *d);
    held.steps as usize
}

// 3: the next block of the locked inode goes to image block c.
pub fn copy(s: &[u8], m: &mut [u8], d: &mut [u8], h: Desk, n: usize, c: usize) -> usize
    requires { Held d.old n h × Locked s.now n h × (h.transferred < blocks_used (size_of s.now h.locked)) × Target m.old n h c }
    ensures { left (Ok result) s.now m.new d.new
        ≡ do_step s.now m.old d.old n (copy h.locked h.transferred c) }
{
    let i = h.locked as usize;
    let k = h.transferred as usize;
    let o = blocks::block_at(n, c);
    transfer::copy_block(&mut m[o..o + BLOCK_BYTES], s, &*d, n, i, k);
    blocks::put_kth(&mut *m, n, i, k, c as u16);
    // the header as it stands in the desk: h as a whole would be loaded from where its fields were just put one by one
    let grown = Desk::read(&*d).copied_one_more();
    grown.write(&mut *d);
    grown.steps as usize
}

// 4: the locked inode is copied.
pub fn close(s: &[u8], m: &mut [u8], d: &mut [u8], h: Desk, n: usize) -> usize
    requires { Held d.old n h × Locked s.now n h × Addressed m.old n }
    ensures { left (Ok result) s.now m.new d.new
        ≡ do_step s.now m.old d.old n (close h.locked) }
{
    let i = h.locked as usize;
    Inode::read(s, n, i)
        .with_links(0)
        .write_attributes(&mut *m, n, i);
    desk::put_copied(&mut *d, i, 1);
    let freed = h.unlock();
    freed.write(&mut *d);
    freed.steps as usize
}

// 5: nothing is left to copy. The map has the image's named blocks, counts has how often it names each inode.
pub fn finish(
    m: &mut [u8],
    d: &mut [u8],
    h: Desk,
    n: usize,
    map: &[u16],
    counts: &[u16; INODE_PLACES],
) -> usize
    requires { Held d.old n h × Addressed m.old n × (h.blocks ≤ most_image_blocks) × Maps (is_long m.old) m.old n (most_blocks * n) map.now × Tallied (image_naming m.old n) 1 (most_inodes + 1) (most_slots * n) counts.now }
    ensures { (s : List ℕ) → left (Ok result) s m.new d.new ≡ do_step s m.old d.old n finish }
{
    naming::finish_image(&mut *m, n, h.blocks as usize, map, counts);
    let ended = h.finish();
    ended.write(&mut *d);
    ended.steps as usize
}

// 16: every image block is named.
pub fn stop(d: &mut [u8], h: Desk) -> Refusal
    requires { (h ≡ desk_of d.old) × (desk_header_bytes ≤ length d.old) }
    ensures { (result ≡ ImageFull) × (d.new ≡ step_desk d.old full) }
{
    h.stop().write(&mut *d);
    Refusal::ImageFull
}

// Nothing is locked.
fn free_step(m: &mut [u8], d: &mut [u8], h: Desk, n: usize) -> Answer
    requires { Held d.old n h × FreeImage m.old n h }
    ensures { (s : List ℕ) → left result s m.new d.new ≡ do_step s m.old d.old n (free_step m.old d.old n) }
{
    if !desk::is_copied(&*d, n, ROOT) {
        return Ok(lock(&mut *d, h, ROOT));
    }
    let mut counts = [0u16; INODE_PLACES];
    naming::count_names(&*m, n, &mut counts);
    let Some(i) = naming::lowest_named(&counts, &*d, n) else {
        let mut map = [0u16; MAP_WORDS];
        free::named_blocks(&*m, n, 0, false, &mut map);
        return Ok(finish(&mut *m, &mut *d, h, n, &map, &counts));
    };
    Ok(lock(&mut *d, h, i))
}

// An inode is locked.
fn locked_step(s: &[u8], m: &mut [u8], d: &mut [u8], h: Desk, n: usize) -> Answer
    requires { Held d.old n h × Locked s.now n h × OpenImage s.now m.old n h }
    ensures { left result s.now m.new d.new
        ≡ do_step s.now m.old d.old n (locked_step s.now m.old n h.blocks h.locked h.transferred) }
{
    let i = h.locked as usize;
    let k = h.transferred as usize;
    if blocks::blocks_used(inode::size(s, n, i) as usize) <= k {
        return Ok(close(s, &mut *m, &mut *d, h, n));
    }
    let long = blocks::is_long(s, n, i);
    let own = kth_used(s, n, i, k) as usize;
    let Some(c) = target_block(&*m, n, i, long, h.blocks as usize, own) else {
        return Err(stop(&mut *d, h));
    };
    Ok(copy(s, &mut *m, &mut *d, h, n, c))
}

// A step's body: refusals 1 to 3 do not come, and the copy runs.
pub fn advance(s: &[u8], m: &mut [u8], d: &mut [u8], h: Desk, n: usize) -> Answer
    requires { (h ≡ desk_of d.old) × Ready (world s.now m.old d.old) × (n ≡ inodes_in s.now) × (is_running d.old ≡ true) }
    ensures { left result s.now m.new d.new
        ≡ do_step s.now m.old d.old n (step_of s.now m.old d.old n) }
{
    if h.locked == 0 {
        free_step(&mut *m, &mut *d, h, n)
    } else {
        locked_step(s, &mut *m, &mut *d, h, n)
    }
}
