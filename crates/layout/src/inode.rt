// Inodes: the record by value, and each field by itself.
ghost use Rattle.std.specs.Prelude.{◌≡◌, ◌+◌, ◌*◌, ◌<◌, ◌≤◌, eqb, length};
ghost use Rattle.bounded.specs.Below.{all_below};
ghost use Rattle.bounded.specs.Count.{count_to};
ghost use Rattle.octets.specs.Octets.{splice, word_bytes};
ghost use Rattle.layout.specs.Sizes.{header_bytes, inode_bytes, address_count, address_bytes, most_inodes, most_file_bytes};
ghost use Rattle.layout.specs.Inode.{attributes_at, address_at, kind_of, spare_of, links_of, size_of, parent_of, is_kind, inode_free, free_inode, attributes_zero, addresses_zero, put_links, put_attributes, address_of, put_address, addresses_of, inode_of, put_inode, empty_inode, with_links, with_size, with_blocks, with_parent};
ghost use Rattle.layout.specs.Fits.{InodesFit, InodeFits};

use crate::sizes::{ADDRESS_COUNT, ATTRIBUTE_BYTES, FREE, HEADER_BYTES};

#[derive(Clone, Copy)]
pub struct Inode {
    pub kind: u8,
    pub links: u16,
    pub size: u16,
    pub parent: u16,
    pub addresses: [u16; ADDRESS_COUNT],
}

// Where the attributes of inode i start.
fn attributes_at(i: usize) -> usize
    requires { (1 ≤ i) × (i ≤ most_inodes) }
    ensures { result ≡ attributes_at i }
{
    HEADER_BYTES + ATTRIBUTE_BYTES * (i - 1)
}

// Where address x of all addresses in a row stands.
fn address_at(n: usize, x: usize) -> usize
    requires { (n ≤ most_inodes) × (x ≤ address_count * n) }
    ensures { result ≡ address_at n x }
{
    HEADER_BYTES + ATTRIBUTE_BYTES * n + 2 * x
}

pub fn kind(s: &[u8], n: usize, i: usize) -> u8
    requires { InodeFits s.now n i }
    ensures { result ≡ kind_of s.now i }
{
    octets::get_8(s, attributes_at(i))
}

// The number i, which may be no inode, is one of the kind wanted.
#[tactic(auto, unfolding(crate::specs::Inode::is_kind))]
pub fn is_kind(s: &[u8], n: usize, wanted: u8, i: usize) -> bool
    requires { InodesFit s.now n }
    ensures { result ≡ is_kind s.now n wanted i }
{
    (1..=n).contains(&i) && kind(s, n, i) == wanted
}

pub fn spare(s: &[u8], n: usize, i: usize) -> u8
    requires { InodeFits s.now n i }
    ensures { result ≡ spare_of s.now i }
{
    octets::get_8(s, attributes_at(i) + 1)
}

pub fn links(s: &[u8], n: usize, i: usize) -> u16
    requires { InodeFits s.now n i }
    ensures { result ≡ links_of s.now i }
{
    octets::get_16(s, attributes_at(i) + 2)
}

pub fn size(s: &[u8], n: usize, i: usize) -> u16
    requires { InodeFits s.now n i }
    ensures { result ≡ size_of s.now i }
{
    octets::get_16(s, attributes_at(i) + 4)
}

pub fn parent(s: &[u8], n: usize, i: usize) -> u16
    requires { InodeFits s.now n i }
    ensures { result ≡ parent_of s.now i }
{
    octets::get_16(s, attributes_at(i) + 6)
}

// The eight bytes of the attributes are 0: one word.
pub fn attributes_zero(s: &[u8], n: usize, i: usize) -> bool
    requires { InodeFits s.now n i }
    ensures { result ≡ attributes_zero s.now i }
{
    octets::get_64(s, attributes_at(i)) == 0
}

// The twelve addresses are 0: three words.
pub fn addresses_zero(s: &[u8], n: usize, i: usize) -> bool
    requires { InodeFits s.now n i }
    ensures { result ≡ addresses_zero s.now n i }
{
    octets::words_zero(s, address_at(n, ADDRESS_COUNT * (i - 1)), 3)
}

// The w addresses from x on, of all in a row, are 0.
pub fn no_addresses(s: &[u8], n: usize, x: usize, w: usize) -> bool
    requires { (n ≤ most_inodes) × (header_bytes + inode_bytes * n ≤ length s.now) × (x + w ≤ address_count * n) }
    ensures { result ≡ all_below (λ j. eqb (address_of s.now n (x + j)) 0) w }
{
    octets::all_zero(s, address_at(n, x), 2 * w)
}

// The lowest free inode.
pub fn free_inode(s: &[u8], n: usize) -> Option<usize>
    requires { InodesFit s.now n }
    ensures { result ≡ free_inode s.now n }
{
    (1..n + 1).find(|&i| kind(s, n, i) == FREE)
}

// How many inodes are free. A sum of 16 bits, since a vector has more of them: of 256 inodes it
// takes 94 ns, `filter` and `count` 184.
pub fn free_inodes(s: &[u8], n: usize) -> usize
    requires { InodesFit s.now n }
    ensures { result ≡ count_to (inode_free s.now) n }
{
    let free: u16 = (1..n + 1).map(|i| u16::from(kind(s, n, i) == FREE)).sum();
    usize::from(free)
}

pub fn put_links(s: &mut [u8], n: usize, i: usize, v: u16)
    requires { InodeFits s.old n i }
    ensures { s.new ≡ put_links s.old i v }
{
    octets::put_16(&mut *s, attributes_at(i) + 2, v);
}

// Address x of all addresses in a row, twelve to an inode.
pub fn address(s: &[u8], n: usize, x: usize) -> u16
    requires { (n ≤ most_inodes) × (header_bytes + inode_bytes * n ≤ length s.now) × (x < address_count * n) }
    ensures { result ≡ address_of s.now n x }
{
    octets::get_16(s, address_at(n, x))
}

pub fn put_address(s: &mut [u8], n: usize, x: usize, b: u16)
    requires { (n ≤ most_inodes) × (header_bytes + inode_bytes * n ≤ length s.old) × (x < address_count * n) }
    ensures { s.new ≡ put_address s.old n x b }
{
    octets::put_16(&mut *s, address_at(n, x), b);
}

pub fn addresses(s: &[u8], n: usize, i: usize) -> [u16; ADDRESS_COUNT]
    requires { InodeFits s.now n i }
    ensures { result ≡ addresses_of s.now n i }
{
    let x = ADDRESS_COUNT * (i - 1);
    std::array::from_fn(|k| address(s, n, x + k))
}

// The twelve numbers from o on.
fn put_words(s: &mut [u8], o: usize, a: [u16; ADDRESS_COUNT])
    requires { o + address_bytes ≤ length s.old }
    ensures { s.new ≡ splice s.old o (word_bytes a) }
{
    for (k, &v) in a.iter().enumerate() {
        octets::put_16(&mut *s, o + 2 * k, v);
    }
}

impl Inode {
    // One of the kind with no links, no bytes, no parent and no blocks.
    pub fn empty(kind: u8) -> Inode
        ensures { result ≡ empty_inode kind }
    {
        Inode {
            kind,
            links: 0,
            size: 0,
            parent: 0,
            addresses: [0u16; ADDRESS_COUNT],
        }
    }

    pub fn with_links(mut self, links: u16) -> Inode
        ensures { result ≡ with_links self links }
    {
        self.links = links;
        self
    }

    pub fn with_size(mut self, size: usize) -> Inode
        requires { size ≤ most_file_bytes }
        ensures { result ≡ with_size self size }
    {
        self.size = size as u16;
        self
    }

    // Another size, and the blocks that it uses.
    pub fn with_blocks(mut self, size: usize, addresses: [u16; ADDRESS_COUNT]) -> Inode
        requires { size ≤ most_file_bytes }
        ensures { result ≡ with_blocks self size addresses }
    {
        self.size = size as u16;
        self.addresses = addresses;
        self
    }

    pub fn with_parent(mut self, parent: usize) -> Inode
        requires { parent ≤ most_inodes }
        ensures { result ≡ with_parent self parent }
    {
        self.parent = parent as u16;
        self
    }

    pub fn read(s: &[u8], n: usize, i: usize) -> Inode
        requires { InodeFits s.now n i }
        ensures { result ≡ inode_of s.now n i }
    {
        Inode {
            kind: kind(s, n, i),
            links: links(s, n, i),
            size: size(s, n, i),
            parent: parent(s, n, i),
            addresses: addresses(s, n, i),
        }
    }

    // The eight bytes of the attributes alone.
    pub fn write_attributes(self, s: &mut [u8], n: usize, i: usize)
        requires { InodeFits s.old n i }
        ensures { s.new ≡ put_attributes s.old i self }
    {
        let o = attributes_at(i);
        octets::put_8(&mut *s, o, self.kind);
        octets::put_8(&mut *s, o + 1, 0);
        octets::put_16(&mut *s, o + 2, self.links);
        octets::put_16(&mut *s, o + 4, self.size);
        octets::put_16(&mut *s, o + 6, self.parent);
    }

    pub fn write(self, s: &mut [u8], n: usize, i: usize)
        requires { InodeFits s.old n i }
        ensures { s.new ≡ put_inode s.old n i self }
    {
        self.write_attributes(&mut *s, n, i);
        let a = self.addresses;
        put_words(&mut *s, address_at(n, ADDRESS_COUNT * (i - 1)), a);
    }
}
