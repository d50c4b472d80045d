// Entries made, taken and moved, as planned: the bytes of create, link, unlink and rename. n and b are the store's counts.
ghost use Rattle.std.specs.Prelude.{◌≡◌, true, ◌<◌, ◌≤◌, length};
ghost use Rattle.layout.specs.Sizes.{most_inodes, most_store_blocks};
ghost use Rattle.layout.specs.Header.{header_of, more_free};
ghost use Rattle.layout.specs.Inode.{size_of, put_inode, is_file, is_directory, zero_inode, free_inode};
ghost use Rattle.blocks.specs.Block.{blocks_used};
ghost use Rattle.layout.specs.Fits.{InodeFits};
ghost use Rattle.names.specs.Name.{name_bytes};
ghost use Rattle.directory.specs.Slot.{slots};
ghost use Rattle.sound.specs.Sound.{blocks_in};
ghost use Rattle.sound.specs.Counted.{SoundStore};
ghost use Rattle.entries.specs.Room.{room_in, make_room};
ghost use Rattle.entries.specs.Apply.{new_inode, enter, created, linked, drop_link, unlinked, renamed, set_parent, moved};

use crate::{Kind, Room};
use blocks::blocks_used;
use content::apply::add_block;
use layout::header::{less_free, more_free};
use layout::inode;
use layout::inode::Inode;
use layout::sizes::{DIRECTORY, FILE, FREE};

// The directory takes its block first, where the room has one.
fn make_room(s: &mut [u8], n: usize, b: usize, d: usize, room: Room)
    requires { SoundStore s.old n b × (is_directory s.old n d ≡ true) × (room_in s.old n b d ≡ Ok room) }
    ensures { s.new ≡ make_room s.old n d room }
{
    if let Some(c) = room.block {
        add_block(&mut *s, n, b, d, c);
    }
}

// An entry in the room, which names i.
fn enter(s: &mut [u8], n: usize, b: usize, d: usize, room: Room, i: usize, name: &[u8])
    requires sound_store { SoundStore s.old n b × (is_directory s.old n d ≡ true) × (room_in s.old n b d ≡ Ok room) }
    requires i_le_n { (i ≤ n) × (length name.now ≤ name_bytes) }
    ensures { s.new ≡ enter s.old n d room i name.now }
{
    let t = room.slot;
    make_room(&mut *s, n, b, d, room);
    directory::put_entry(&mut *s, n, d, t, i as u16, name);
}

// What a created inode is at first; d names it.
fn new_inode(kind: Kind, d: usize) -> Inode
    requires { d ≤ most_inodes }
    ensures { result ≡ new_inode kind d }
{
    match kind {
        Kind::File => Inode::empty(FILE).with_links(1),
        Kind::Directory => Inode::empty(DIRECTORY).with_links(1).with_parent(d),
    }
}

// Inode i is made, and has an entry in the room.
pub fn create(
    s: &mut [u8],
    n: usize,
    b: usize,
    d: usize,
    name: &[u8],
    kind: Kind,
    i: usize,
    room: Room,
)
    requires sound_store { SoundStore s.old n b × (is_directory s.old n d ≡ true) × (room_in s.old n b d ≡ Ok room) }
    requires n_value { (free_inode s.old n ≡ Some i) × (length name.now ≤ name_bytes) }
    ensures { s.new ≡ created s.old n d name.now kind i room }
{
    enter(&mut *s, n, b, d, room, i, name);
    new_inode(kind, d).write(&mut *s, n, i);
    less_free(&mut *s, 1, 0);
}

// File i has an entry more, in the room.
pub fn link(s: &mut [u8], n: usize, b: usize, d: usize, name: &[u8], i: usize, room: Room)
    requires sound_store { SoundStore s.old n b × (is_directory s.old n d ≡ true) × (room_in s.old n b d ≡ Ok room) }
    requires i_value { (is_file s.old n i ≡ true) × (length name.now ≤ name_bytes) }
    ensures { s.new ≡ linked s.old n d name.now i room }
{
    enter(&mut *s, n, b, d, room, i, name);
    let links = inode::links(s, n, i);
    inode::put_links(&mut *s, n, i, links + 1);
}

// Inode i and its blocks are free again; the blocks keep their bytes.
fn release_inode(s: &mut [u8], n: usize, i: usize)
    requires { InodeFits s.old n i × ((header_of s.old).free_inodes ≤ most_inodes) × ((header_of s.old).free_blocks ≤ most_store_blocks) }
    ensures { s.new ≡ more_free (put_inode s.old n i zero_inode) 1 (blocks_used (size_of s.old i)) }
{
    let used = blocks_used(inode::size(s, n, i) as usize);
    Inode::empty(FREE).write(&mut *s, n, i);
    more_free(&mut *s, 1, used as u16);
}

// One link of i less; the last one frees it.
#[tactic(auto, using(crate::proofs::EnterLaws::last_link))]
fn drop_link(s: &mut [u8], n: usize, i: usize)
    requires { InodeFits s.old n i × ((header_of s.old).free_inodes ≤ most_inodes) × ((header_of s.old).free_blocks ≤ most_store_blocks) }
    ensures { s.new ≡ drop_link s.old n i }
{
    let links = inode::links(s, n, i);
    if links <= 1 {
        release_inode(&mut *s, n, i);
        return;
    }
    inode::put_links(&mut *s, n, i, links - 1);
}

// The entry in slot t of d, which names i, is taken out.
pub fn unlink(s: &mut [u8], n: usize, d: usize, t: usize, i: usize)
    requires { SoundStore s.old n (blocks_in s.old) × (is_directory s.old n d ≡ true) × (t < slots s.old d) × (1 ≤ i) × (i ≤ n) }
    ensures { s.new ≡ unlinked s.old n d t i }
{
    directory::clear_entry(&mut *s, n, d, t);
    drop_link(&mut *s, n, i);
}

// The entry in slot t of d, which names i, has another name.
pub fn rename(s: &mut [u8], n: usize, d: usize, other: &[u8], t: usize, i: usize)
    requires { SoundStore s.old n (blocks_in s.old) × (is_directory s.old n d ≡ true) × (t < slots s.old d) × (i ≤ n) × (length other.now ≤ name_bytes) }
    ensures { s.new ≡ renamed s.old n d other.now t i }
{
    directory::put_entry(&mut *s, n, d, t, i as u16, other);
}

// A directory's new parent is e.
fn set_parent(s: &mut [u8], n: usize, i: usize, e: usize)
    requires { InodeFits s.old n i × (e ≤ most_inodes) }
    ensures { s.new ≡ set_parent s.old n i e }
{
    let old = Inode::read(s, n, i);
    if old.kind != DIRECTORY {
        return;
    }
    old.with_parent(e).write_attributes(&mut *s, n, i);
}

// The entry in slot t of d, which names i, goes to the room in e under another name.
pub fn move_entry(
    s: &mut [u8],
    n: usize,
    b: usize,
    d: usize,
    e: usize,
    other: &[u8],
    t: usize,
    i: usize,
    room: Room,
)
    requires sound_store { SoundStore s.old n b × (is_directory s.old n e ≡ true) × (room_in s.old n b e ≡ Ok room) }
    requires d_value { (is_directory s.old n d ≡ true) × (t < slots s.old d) × (1 ≤ i) × (i ≤ n) × (length other.now ≤ name_bytes) }
    ensures { s.new ≡ moved s.old n d e other.now t i room }
{
    let u = room.slot;
    make_room(&mut *s, n, b, e, room);
    directory::clear_entry(&mut *s, n, d, t);
    directory::put_entry(&mut *s, n, e, u, i as u16, other);
    set_parent(&mut *s, n, i, e);
}
