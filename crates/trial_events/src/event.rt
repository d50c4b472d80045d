// Events by chance: each is told by the seed, the list's number and its own, so that a list can be told again.
ghost use Rattle.std.specs.Prelude.{◌≤◌, ◌<◌, length};

use checksum::checksum;

// Names by number: the first 64 in small letters, the next 64 the same with a capital letter, and then one that no entry may have.
const NAMES: usize = 64;

const SPELLINGS: usize = 2 * NAMES;

const FEW_NAMES: usize = 4;

// The largest store of a list has 8 inodes and 59 blocks, and the largest image 352 blocks: their slots, and lengths in bytes.
const MOST_INODES: usize = 8;

const MOST_BLOCKS: usize = 59;

const MOST_IMAGE_BLOCKS: usize = 352;

pub const SLOTS: usize = 48 * MOST_INODES;

pub const STORE_BYTES: usize = 16 + 32 * MOST_INODES + 64 * MOST_BLOCKS;

pub const IMAGE_BYTES: usize = 16 + 32 * MOST_INODES + 64 * MOST_IMAGE_BLOCKS;

pub const DESK_BYTES: usize = 16 + 9 * MOST_INODES;

// A write has fewer bytes than this, which is a few more than a file may have.
pub const MOST_BYTES: usize = 2760;

// The length of a read's out-buffer.
pub const OUT_BYTES: usize = 64;

// The most steps of a burst.
pub const MOST_BURST: usize = 64;

// An entry: its directory, and its name by number.
#[derive(Clone, Copy)]
pub struct Entry {
    pub dir: usize,
    pub name: usize,
}

// What is asked for: a link of an entry to an inode, a rename of the first entry to the second, a burst of so many steps.
#[derive(Clone, Copy)]
pub enum Event {
    CreateFile(Entry),
    CreateDirectory(Entry),
    Write {
        inode: usize,
        offset: usize,
        length: usize,
    },
    Shorten {
        inode: usize,
        offset: usize,
    },
    Link(Entry, usize),
    Unlink(Entry),
    Rename(Entry, Entry),
    RenameNew(Entry, Entry),
    LookUp(Entry),
    Read {
        inode: usize,
        offset: usize,
    },
    Start,
    Ask,
    Step,
    Burst(usize),
}

// What chance starts from, for an event or, at number 0, for a list.
#[derive(Clone, Copy)]
struct Chance(u64);

impl Chance {
    fn new(seed: u64, list: u64, event: u64) -> Chance {
        let mut bytes = [0u8; 24];
        octets::put_64(&mut bytes, 0, seed);
        octets::put_64(&mut bytes, 8, list);
        octets::put_64(&mut bytes, 16, event);
        Chance(checksum(&bytes))
    }

    // A number below k.
    fn below(self, field: u64, k: usize) -> usize
        requires { 1 ≤ k }
        ensures { result < k }
    {
        let mut bytes = [0u8; 16];
        octets::put_64(&mut bytes, 0, field);
        octets::put_64(&mut bytes, 8, self.0);
        (checksum(&bytes) / 65536) as usize % k
    }

    // A number from 1 to n, lower ones more often.
    fn low(self, field: u64, n: usize) -> usize
        requires { (field ≤ 100) × (1 ≤ n) × (n ≤ 8) }
    {
        1 + self.below(field, 1 + self.below(field + 1, n))
    }

    // Half of the stores that are not wide have room for a long file, or a few.
    fn blocks(self, wide: bool) -> usize
        ensures { result ≤ 59 }
    {
        if wide {
            return 14 + self.below(10, 11);
        }
        if self.below(19, 2) == 0 {
            return 59 - self.below(11, 45);
        }
        24 - self.below(11, 1 + self.below(12, 24))
    }

    // A third of the images may be too small, half of those for long files alone; the others have the room that always suffices.
    fn image(self, inodes: usize) -> usize
        requires { inodes ≤ 8 }
        ensures { result ≤ 352 }
    {
        match self.below(13, 6) {
            0 => 1 + self.below(14, 12),
            1 => 13 + self.below(14, 48),
            _ => 44 * inodes,
        }
    }

    // Where a write starts and what a file is cut to: nothing, a few bytes, around the edge of 768, or anywhere.
    fn offset(self) -> usize {
        match self.below(3, 8) {
            0..=3 => 0,
            4..=5 => self.below(4, 140),
            6 => 700 + self.below(4, 80),
            _ => self.below(4, MOST_BYTES),
        }
    }

    // Of what is written: mostly a few hundred bytes, else around the edge of 768, around the limit, or anything up to it.
    fn length(self) -> usize {
        match self.below(60, 6) {
            0..=2 => self.below(61, 1 + self.below(62, 800)),
            3 => 700 + self.below(61, 150),
            4 => 2748 + self.below(61, 10),
            _ => self.below(61, MOST_BYTES),
        }
    }

    // Steps of a burst: mostly few, so that calls fall between; at times any number that is allowed, or one that is not.
    fn count(self) -> usize {
        match self.below(70, 12) {
            0..=7 => 1 + self.below(71, 6),
            8..=10 => 1 + self.below(71, MOST_BURST),
            _ => (MOST_BURST + 1) * self.below(71, 3),
        }
    }
}

// Counts of inodes, blocks and image blocks; whether the list fills a directory; how many directories it makes before all else.
#[derive(Clone, Copy)]
pub struct Shape {
    pub inodes: usize,
    pub blocks: usize,
    pub image: usize,
    pub wide: bool,
    pub trunk: usize,
    ghost some_inodes: { 1 ≤ inodes },
    ghost few_inodes: { inodes ≤ 8 },
    ghost few_blocks: { blocks ≤ 59 },
    ghost few_in_image: { image ≤ 352 },
    ghost few_in_trunk: { trunk ≤ 4 },
}

impl Shape {
    // Small, so that inodes, blocks and slots run out and are used again.
    fn drawn(chance: Chance) -> Shape {
        let inodes = 8 - chance.below(15, 1 + chance.below(16, 8));
        let wide = chance.below(17, 8) == 0;
        Shape {
            inodes,
            blocks: chance.blocks(wide),
            image: chance.image(inodes),
            wide,
            trunk: if wide { 0 } else { chance.below(18, 5) },
        }
    }

    // In a wide list mostly the root.
    fn directory(self, chance: Chance) -> usize {
        if self.wide && chance.below(10, 4) != 0 {
            return 1;
        }
        chance.low(11, self.inodes)
    }

    // What a write or a link is about; in a wide list mostly the first file.
    fn inode(self, chance: Chance) -> usize {
        if self.wide && chance.below(50, 4) != 0 {
            return 2;
        }
        self.inodes - chance.below(51, 1 + chance.below(52, self.inodes))
    }

    fn name(self, chance: Chance, field: u64) -> usize
        requires { field ≤ 90 }
    {
        if chance.below(field, 50) == 0 {
            return SPELLINGS;
        }
        let names = if self.wide { NAMES } else { FEW_NAMES };
        let k = chance.below(field + 1, 4 * names);
        if k % 4 == 0 { NAMES + k / 4 } else { k / 4 }
    }

    // Out of a hundred: so many for each call that is no single step. In a wide list half are links.
    fn event(self, chance: Chance) -> Event {
        let dir = self.directory(chance);
        let name = self.name(chance, 20);
        let entry = Entry { dir, name };
        let dir = chance.low(30, self.inodes);
        let name = self.name(chance, 40);
        let to = Entry { dir, name };
        let inode = self.inode(chance);
        let offset = chance.offset();
        let length = chance.length();
        if self.wide && chance.below(1, 2) == 0 {
            return Event::Link(entry, inode);
        }
        match chance.below(2, 100) {
            0..=8 => Event::CreateFile(entry),
            9..=13 => Event::CreateDirectory(entry),
            14..=22 => Event::Write {
                inode,
                offset,
                length,
            },
            23..=25 => Event::Shorten { inode, offset },
            26..=29 => Event::Link(entry, inode),
            30..=41 => Event::Unlink(entry),
            42..=52 => Event::Rename(entry, to),
            53..=56 => Event::RenameNew(entry, to),
            57..=58 => Event::LookUp(entry),
            59..=60 => Event::Read { inode, offset },
            61..=67 => Event::Start,
            68..=69 => Event::Ask,
            70..=77 => Event::Burst(chance.count()),
            _ => Event::Step,
        }
    }
}

// A list of events, told by a seed and its number.
#[derive(Clone, Copy)]
pub struct List {
    seed: u64,
    number: u64,
    pub shape: Shape,
}

impl List {
    pub fn new(seed: u64, number: u64) -> List {
        List {
            seed,
            number,
            shape: Shape::drawn(Chance::new(seed, number, 0)),
        }
    }

    // Event k, counted from 1: at first a directory, in one of those made before it.
    pub fn nth(self, k: u64) -> Event
        requires { 1 ≤ k }
    {
        let chance = Chance::new(self.seed, self.number, k);
        if (self.shape.trunk as u64) < k {
            return self.shape.event(chance);
        }
        let made = k as usize;
        Event::CreateDirectory(Entry {
            dir: 1 + chance.below(5, made),
            name: made - 1,
        })
    }
}

// Puts name k at the front of a buffer, and answers its length: a letter, or two, the first of which may be a capital; a dot for
// the one that no entry may have. A buffer and a length, since `replay`'s commands have their names so.
pub fn spell(k: usize, out: &mut [u8]) -> usize
    requires { 2 ≤ length out.old }
    ensures { result ≤ 2 }
{
    if SPELLINGS <= k {
        out[0] = b'.';
        return 1;
    }
    let j = (k % NAMES) as u8;
    let first = b'a' + j / 8;
    out[0] = if k < NAMES {
        first
    } else {
        first.to_ascii_uppercase()
    };
    out[1] = b'a' + j % 8;
    if j % 8 == 0 { 1 } else { 2 }
}
