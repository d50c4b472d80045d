// The image's entries as a file call finds and cuts them. m is the image, n the inode count.
ghost use Rattle.std.specs.Prelude.{◌≡◌, ◌+◌, ◌/◌, ◌<◌, ◌≤◌, eqb, length};
ghost use Rattle.blocks.specs.Block.{kth_block};
ghost use Rattle.names.specs.Entry.{entry_bytes};
ghost use Rattle.directory.specs.Slot.{slots_in_block, most_slots, slot_at};
ghost use Rattle.desk.specs.Sizes.{desk_length};
ghost use Rattle.desk.specs.Desk.{desk_of};
ghost use Rattle.checkpoint.specs.Image.{slot_names};
ghost use Rattle.checkpoint.specs.Notes.{cut_image};
ghost use Rattle.image.specs.Addressed.{Addressed, Readable};

use desk::Desk;
use directory::SLOTS_IN_BLOCK;
use layout::inode;
use layout::sizes::DIRECTORY;
use names::ENTRY_BYTES;

// Where slot t of an image directory starts, by the block that its address names, whatever its size.
fn image_slot(m: &[u8], n: usize, e: usize, t: usize) -> usize
    requires { Addressed m.now n × (1 ≤ e) × (e ≤ n) × (t < most_slots) × (1 ≤ kth_block m.now n e (t / slots_in_block)) }
    ensures { (result ≡ slot_at m.now n e t) × (result + entry_bytes ≤ length m.now) }
{
    let c = blocks::kth_block(m, n, e, t / SLOTS_IN_BLOCK) as usize;
    blocks::block_at(n, c) + ENTRY_BYTES * (t % SLOTS_IN_BLOCK)
}

// Slot t of e names inode i in the image.
fn is_named(m: &[u8], n: usize, e: usize, t: usize, i: usize) -> bool
    requires { Addressed m.now n × (1 ≤ e) × (e ≤ n) × (t < most_slots) × (1 ≤ i) }
    ensures { result ≡ eqb (slot_names m.now n e t) i }
{
    if inode::kind(m, n, e) != DIRECTORY || blocks::kth_block(m, n, e, t / SLOTS_IN_BLOCK) == 0 {
        return false;
    }
    let o = image_slot(m, n, e, t);
    names::entry_inode(&m[o..o + ENTRY_BYTES]) as usize == i
}

// Inode i was taken from slot t of directory e, beside a desk d whose header is h: if e is copied and i is not, the entry that names i in the same slot of the image goes too.
pub fn cut_image(m: &mut [u8], d: &[u8], h: Desk, n: usize, e: usize, t: usize, i: usize)
    requires { (h ≡ desk_of d.now) × Readable m.old h n × (desk_length n ≤ length d.now) × (1 ≤ e) × (e ≤ n) × (t < most_slots) × (1 ≤ i) }
    ensures { m.new ≡ cut_image m.old d.now n e t i }
{
    if h.runs()
        && desk::is_copied(d, n, e)
        && !desk::is_copied(d, n, i)
        && is_named(m, n, e, t, i)
    {
        let o = image_slot(m, n, e, t);
        octets::zero_range(&mut *m, o, ENTRY_BYTES);
    }
}
