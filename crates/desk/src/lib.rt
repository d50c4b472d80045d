// The desk: its header as a struct by value whose methods hand back the next state, its copied bytes and its mark words.
#![tactic(auto)]

ghost use Rattle.std.specs.Prelude.{◌≡◌, ◌+◌, ◌<◌, ◌≤◌, length};
ghost use Rattle.marks.specs.Mark.{mark_bits};
ghost use Rattle.desk.specs.Sizes.{desk_header_bytes, desk_length, desk_allowed};
ghost use Rattle.desk.specs.Desk.{desk_of, put_desk, desk_rest_zero, copied_of, is_copied, put_copied, marks_of, put_marks, mark_of, set_mark, clear_mark, clear_notes};
ghost use Rattle.desk.specs.Next.{runs, locks_any, starting, locking, copying_one, unlocking, finishing, stopping};

use layout::sizes::{MOST_BLOCKS, MOST_INODES};

pub const DESK_HEADER_BYTES: usize = 16;

pub const DESK_INODE_BYTES: usize = 9;

const MARK_BYTES: usize = 8;

// A copy has at most so many steps for each inode, and one more: a lock, its blocks and a close.
pub const STEPS_AN_INODE: u32 = (MOST_BLOCKS + 2) as u32;

// Bytes and no enum: any byte can stand there, and `Desk::read` promises it as it stands.
pub const IDLE: u8 = 0;

pub const RUNNING: u8 = 1;

pub const FINISHED: u8 = 2;

pub const STOPPED: u8 = 3;

// A desk for n inodes may be k bytes long.
#[tactic(auto, unfolding(crate::specs::Sizes::desk_allowed))]
pub fn allowed(n: usize, k: usize) -> bool
    ensures { result ≡ desk_allowed n k }
{
    (1..=MOST_INODES).contains(&n) && k == DESK_HEADER_BYTES + DESK_INODE_BYTES * n
}

#[derive(Clone, Copy)]
pub struct Desk {
    pub inodes: u16,
    pub blocks: u16,
    pub state: u8,
    pub locked: u16,
    pub transferred: u16,
    pub steps: u32,
}

impl Desk {
    pub fn read(d: &[u8]) -> Desk
        requires { desk_header_bytes ≤ length d.now }
        ensures { result ≡ desk_of d.now }
    {
        Desk {
            inodes: octets::get_16(d, 0),
            blocks: octets::get_16(d, 2),
            state: octets::get_8(d, 4),
            locked: octets::get_16(d, 6),
            transferred: octets::get_16(d, 8),
            steps: octets::get_32(d, 12),
        }
    }

    pub fn write(self, d: &mut [u8])
        requires { desk_header_bytes ≤ length d.old }
        ensures { d.new ≡ put_desk d.old self }
    {
        octets::put_16(&mut *d, 0, self.inodes);
        octets::put_16(&mut *d, 2, self.blocks);
        octets::put_8(&mut *d, 4, self.state);
        octets::put_16(&mut *d, 6, self.locked);
        octets::put_16(&mut *d, 8, self.transferred);
        octets::put_32(&mut *d, 12, self.steps);
    }

    // The copy runs.
    pub fn runs(self) -> bool
        ensures { result ≡ runs self }
    {
        self.state == RUNNING
    }

    // A running copy has locked one of the inodes.
    #[tactic(auto, using(crate::proofs::LockLaws::locks_listed))]
    pub fn locks_any(self, inodes: &[usize]) -> bool
        ensures { result ≡ locks_any self inodes.now }
    {
        self.runs() && inodes.contains(&usize::from(self.locked))
    }

    pub fn start(mut self, blocks: u16) -> Desk
        ensures { result ≡ starting self blocks }
    {
        self.blocks = blocks;
        self.state = RUNNING;
        self.steps = 0;
        self
    }

    pub fn lock(mut self, i: u16) -> Desk
        requires { self.steps + 1 < 4294967296 }
        ensures { result ≡ locking self i }
    {
        self.locked = i;
        self.transferred = 0;
        self.steps += 1;
        self
    }

    pub fn copied_one_more(mut self) -> Desk
        requires { (self.transferred + 1 < 65536) × (self.steps + 1 < 4294967296) }
        ensures { result ≡ copying_one self }
    {
        self.transferred += 1;
        self.steps += 1;
        self
    }

    pub fn unlock(mut self) -> Desk
        requires { self.steps + 1 < 4294967296 }
        ensures { result ≡ unlocking self }
    {
        self.locked = 0;
        self.transferred = 0;
        self.steps += 1;
        self
    }

    pub fn finish(mut self) -> Desk
        requires { self.steps + 1 < 4294967296 }
        ensures { result ≡ finishing self }
    {
        self.state = FINISHED;
        self.steps += 1;
        self
    }

    pub fn stop(mut self) -> Desk
        ensures { result ≡ stopping self }
    {
        self.state = STOPPED;
        self.locked = 0;
        self.transferred = 0;
        self
    }
}

// The bytes of the header that no field takes are 0.
#[tactic(auto, unfolding(crate::specs::Desk::desk_rest_zero))]
pub fn reserved_zero(d: &[u8]) -> bool
    requires { desk_header_bytes ≤ length d.now }
    ensures { result ≡ desk_rest_zero d.now }
{
    octets::get_8(d, 5) == 0 && octets::get_16(d, 10) == 0
}

pub fn copied_byte(d: &[u8], i: usize) -> u8
    requires { (1 ≤ i) × (desk_header_bytes + i ≤ length d.now) }
    ensures { result ≡ copied_of d.now i }
{
    octets::get_8(d, DESK_HEADER_BYTES + (i - 1))
}

// Inode i, which may be no inode, is copied.
#[tactic(auto, unfolding(crate::specs::Desk::is_copied))]
pub fn is_copied(d: &[u8], n: usize, i: usize) -> bool
    requires { desk_length n ≤ length d.now }
    ensures { result ≡ is_copied d.now n i }
{
    (1..=n).contains(&i) && copied_byte(d, i) == 1
}

pub fn put_copied(d: &mut [u8], i: usize, v: u8)
    requires { (1 ≤ i) × (desk_header_bytes + i ≤ length d.old) }
    ensures { d.new ≡ put_copied d.old i v }
{
    octets::put_8(&mut *d, DESK_HEADER_BYTES + (i - 1), v);
}

pub fn mark_word(d: &[u8], n: usize, i: usize) -> u64
    requires { (1 ≤ i) × (i ≤ n) × (desk_length n ≤ length d.now) }
    ensures { result ≡ marks_of d.now n i }
{
    octets::get_64(d, DESK_HEADER_BYTES + n + MARK_BYTES * (i - 1))
}

pub fn put_mark_word(d: &mut [u8], n: usize, i: usize, w: u64)
    requires { (1 ≤ i) × (i ≤ n) × (desk_length n ≤ length d.old) }
    ensures { d.new ≡ put_marks d.old n i w }
{
    octets::put_64(&mut *d, DESK_HEADER_BYTES + n + MARK_BYTES * (i - 1), w);
}

pub fn is_marked(d: &[u8], n: usize, i: usize, slot: usize) -> bool
    requires { (1 ≤ i) × (i ≤ n) × (desk_length n ≤ length d.now) × (slot < mark_bits) }
    ensures { result ≡ mark_of d.now n i slot }
{
    marks::marked(mark_word(d, n, i), slot)
}

// Two lines, and `clear_mark` two: one function with a closure for the bit would leave as many.
pub fn set_mark(d: &mut [u8], n: usize, i: usize, slot: usize)
    requires { (1 ≤ i) × (i ≤ n) × (desk_length n ≤ length d.old) × (slot < mark_bits) }
    ensures { d.new ≡ set_mark d.old n i slot }
{
    let w = mark_word(&*d, n, i);
    put_mark_word(&mut *d, n, i, marks::with_mark(w, slot));
}

pub fn clear_mark(d: &mut [u8], n: usize, i: usize, slot: usize)
    requires { (1 ≤ i) × (i ≤ n) × (desk_length n ≤ length d.old) × (slot < mark_bits) }
    ensures { d.new ≡ clear_mark d.old n i slot }
{
    let w = mark_word(&*d, n, i);
    put_mark_word(&mut *d, n, i, marks::without_mark(w, slot));
}

// No inode is copied and no entry marked.
pub fn clear_notes(d: &mut [u8], n: usize)
    requires { desk_length n ≤ length d.old }
    ensures { d.new ≡ clear_notes d.old n }
{
    octets::zero_range(&mut *d, DESK_HEADER_BYTES, DESK_INODE_BYTES * n);
}
