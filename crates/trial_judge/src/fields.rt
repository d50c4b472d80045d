// Fields of a store or an image, on any bytes. What lies past the end reads as 0.
ghost use Rattle.std.specs.Prelude.{◌*◌, ◌≡◌, ◌≤◌, ◌↔◌, IfSome, IsTrue, slice_index};

pub const SLOTS: usize = 48;

// Addresses of an inode. The last one of a file above so many bytes names a block of further ones.
const ADDRESSES: usize = 12;

const MOST_DIRECT_BYTES: usize = 768;

// Blocks of an inode at most, and those of them that have a file's bytes.
pub const BLOCKS: usize = 44;

pub const BYTES_BLOCKS: usize = 43;

#[derive(Clone, Copy, PartialEq, Eq)]
pub enum Kind {
    Free,
    File,
    Directory,
    Other(u8),
}

// The bytes of a store or an image, and how many inodes it has.
#[derive(Clone, Copy)]
pub struct Store<'a> {
    pub bytes: &'a [u8],
    pub inodes: usize,
    ghost few: { inodes ≤ 256 },
}

// An inode by its number, which is LEAST or more. What is asked of an inode is asked of any number
// too: what is told of 0, which no inode has, are bytes of the header.
#[derive(Clone, Copy)]
pub struct Numbered<'a, const LEAST: usize> {
    pub store: Store<'a>,
    pub number: usize,
    ghost some: { LEAST ≤ number },
    ghost few: { number ≤ 65535 },
}

pub type Inode<'a> = Numbered<'a, 1>;

pub type AnyInode<'a> = Numbered<'a, 0>;

// A slot of a directory, by its number among all: 48 for each inode.
#[derive(Clone, Copy)]
pub struct Place<'a> {
    pub store: Store<'a>,
    pub number: usize,
    ghost few: { number ≤ 20000 },
}

// A block, by its number.
#[derive(Clone, Copy)]
pub struct Block {
    pub number: usize,
    ghost some: { 1 ≤ number },
    ghost few: { number ≤ 65535 },
}

pub fn byte(s: &[u8], o: usize) -> u8
    ensures { result ≡ slice_index s.now o }
{
    s.get(o).copied().unwrap_or(0)
}

// Whether a copy is finished, which its image says.
pub fn is_finished(image: &[u8]) -> bool
    ensures { IsTrue result ↔ (slice_index image.now 8 ≡ 1) }
{
    byte(image, 8) == 1
}

impl<'a> Store<'a> {
    // Other bytes, of a store with as many inodes.
    pub fn at<'b>(self, bytes: &'b [u8]) -> Store<'b>
        ensures { result.inodes ≡ self.entry.inodes }
    {
        Store {
            bytes,
            inodes: self.inodes,
        }
    }

    pub fn inode(self, number: usize) -> Inode<'a>
        requires { (1 ≤ number) × (number ≤ 65535) }
        ensures { result.number ≡ number }
    {
        let any = self.any_inode(number);
        Inode {
            store: any.store,
            number: any.number,
        }
    }

    // The same of any number, 0 too.
    pub fn any_inode(self, number: usize) -> AnyInode<'a>
        requires { number ≤ 65535 }
        ensures { result.number ≡ number }
    {
        let store = self;
        AnyInode { store, number }
    }

    // How many places there are.
    pub(crate) fn places(self) -> usize
        ensures { result ≡ 48 * self.entry.inodes }
    {
        SLOTS * self.inodes
    }

    pub(crate) fn place(self, number: usize) -> Place<'a>
        requires { number ≤ 20000 }
        ensures { (result.store.inodes ≡ self.entry.inodes) × (result.number ≡ number) }
    {
        let store = self;
        Place { store, number }
    }

    // The bytes from o on.
    fn rest(self, o: usize) -> &'a [u8] {
        self.bytes.get(o..).unwrap_or(&[])
    }

    // Two bytes, the low one first.
    pub fn pair(self, o: usize) -> usize
        ensures { result ≤ 65535 }
    {
        let rest = self.rest(o);
        usize::from(u16::from_le_bytes([byte(rest, 0), byte(rest, 1)]))
    }

    // The block whose number stands there.
    fn block_named(self, o: usize) -> Option<Block> {
        match self.pair(o) {
            0 => None,
            number => Some(Block { number }),
        }
    }

    // Where a block starts.
    pub fn start_of(self, block: Block) -> usize
        ensures { result ≤ 5000000 }
    {
        16 + 32 * self.inodes + 64 * (block.number - 1)
    }

    // The k bytes from x on are those of the other from y on.
    pub fn same_bytes(self, x: usize, other: Store, y: usize, k: usize) -> bool {
        let (mine, theirs) = (self.rest(x), other.rest(y));
        (0..k).all(|j| byte(mine, j) == byte(theirs, j))
    }

    // A block of it has the bytes of one of the other's.
    pub(crate) fn same_block(self, block: Block, other: Store, theirs: Block) -> bool {
        self.same_bytes(self.start_of(block), other, other.start_of(theirs), 64)
    }
}

impl<'a, const LEAST: usize> Numbered<'a, LEAST> {
    pub fn kind(self) -> Kind {
        match byte(self.store.bytes, 8 + 8 * self.number) {
            0 => Kind::Free,
            1 => Kind::File,
            2 => Kind::Directory,
            x => Kind::Other(x),
        }
    }

    pub fn links(self) -> usize
        ensures { result ≤ 65535 }
    {
        self.store.pair(10 + 8 * self.number)
    }

    pub fn size(self) -> usize {
        self.store.pair(12 + 8 * self.number)
    }

    pub fn is_long(self) -> bool {
        self.kind() == Kind::File && MOST_DIRECT_BYTES < self.size()
    }

    // The block of address k; inode 0 has no addresses.
    fn address(self, k: usize) -> Option<Block>
        requires { k ≤ 12 }
    {
        let before = self.number.checked_sub(1)?;
        let inodes = self.store.inodes;
        self.store
            .block_named(16 + 8 * inodes + 24 * before + 2 * k)
    }

    // The block of number k in the block that the last address names.
    fn further(self, k: usize) -> Option<Block>
        requires { k ≤ 32 }
    {
        let numbers = self.address(ADDRESSES - 1)?;
        self.store.block_named(self.store.start_of(numbers) + 2 * k)
    }

    // The k-th block: the twelfth of a long file has the numbers of those behind it.
    pub fn block(self, k: usize) -> Option<Block>
        requires { k ≤ 44 }
    {
        if k < ADDRESSES {
            return self.address(k);
        }
        if self.is_long() {
            return self.further(k - ADDRESSES);
        }
        None
    }

    // The p-th block of a file's bytes.
    pub fn bytes_block(self, p: usize) -> Option<Block>
        requires { p ≤ 43 }
    {
        if ADDRESSES <= p + 1 && self.is_long() {
            return self.block(p + 1);
        }
        self.block(p)
    }
}

impl<'a> Place<'a> {
    pub(crate) fn directory(self) -> Inode<'a> {
        self.store.inode(1 + self.number / SLOTS)
    }

    // Where the slot starts.
    pub fn start(self) -> Option<usize>
        ensures { IfSome result (λ o. o ≤ 6000000) }
    {
        let block = self.directory().address(self.number % SLOTS / 4)?;
        Some(self.store.start_of(block) + 16 * (self.number % 4))
    }

    // The inode that the slot names.
    pub fn names(self) -> Option<usize>
        ensures { IfSome result (λ i. i ≤ 65535) }
    {
        if self.directory().kind() != Kind::Directory {
            return None;
        }
        match self.store.pair(self.start()?) {
            0 => None,
            i => Some(i),
        }
    }

    // The slot has the bytes of another store's.
    pub(crate) fn same_slot(self, other: Place) -> bool {
        match (self.start(), other.start()) {
            (Some(x), Some(y)) => self.store.same_bytes(x, other.store, y, 16),
            _ => false,
        }
    }
}
