// The header of a store or an image: a struct by value.
ghost use Rattle.std.specs.Prelude.{◌≡◌, ◌+◌, ◌<◌, ◌≤◌, length};
ghost use Rattle.layout.specs.Sizes.{header_bytes};
ghost use Rattle.layout.specs.Header.{counts, header_of, put_header, put_free, more_free, less_free, put_complete, header_rest_zero};

// How many inodes and blocks a store or an image has.
#[derive(Clone, Copy)]
pub struct Counts {
    pub inodes: usize,
    pub blocks: usize,
}

#[derive(Clone, Copy)]
pub struct Header {
    pub inodes: u16,
    pub blocks: u16,
    pub free_inodes: u16,
    pub free_blocks: u16,
    pub complete: u8,
    pub root: u16,
}

impl Header {
    pub fn read(s: &[u8]) -> Header
        requires { header_bytes ≤ length s.now }
        ensures { result ≡ header_of s.now }
    {
        Header {
            inodes: octets::get_16(s, 0),
            blocks: octets::get_16(s, 2),
            free_inodes: octets::get_16(s, 4),
            free_blocks: octets::get_16(s, 6),
            complete: octets::get_8(s, 8),
            root: octets::get_16(s, 10),
        }
    }

    // Of all inodes and blocks.
    pub fn counts(self) -> Counts
        ensures { result ≡ counts self.inodes self.blocks }
    {
        Counts {
            inodes: usize::from(self.inodes),
            blocks: usize::from(self.blocks),
        }
    }

    pub fn write(self, s: &mut [u8])
        requires { header_bytes ≤ length s.old }
        ensures { s.new ≡ put_header s.old self }
    {
        octets::put_16(&mut *s, 0, self.inodes);
        octets::put_16(&mut *s, 2, self.blocks);
        put_free(&mut *s, self.free_inodes, self.free_blocks);
        put_complete(&mut *s, self.complete);
        octets::put_16(&mut *s, 10, self.root);
    }
}

pub fn put_free(s: &mut [u8], inodes: u16, blocks: u16)
    requires { header_bytes ≤ length s.old }
    ensures { s.new ≡ put_free s.old inodes blocks }
{
    octets::put_16(&mut *s, 4, inodes);
    octets::put_16(&mut *s, 6, blocks);
}

// So many inodes and blocks more are free, or fewer. Two lines each: one function with a closure for
// + or - would leave as many.
pub fn more_free(s: &mut [u8], inodes: u16, blocks: u16)
    requires { (header_bytes ≤ length s.old) × ((header_of s.old).free_inodes + inodes < 65536) × ((header_of s.old).free_blocks + blocks < 65536) }
    ensures { s.new ≡ more_free s.old inodes blocks }
{
    let h = Header::read(s);
    put_free(&mut *s, h.free_inodes + inodes, h.free_blocks + blocks);
}

pub fn less_free(s: &mut [u8], inodes: u16, blocks: u16)
    requires { (header_bytes ≤ length s.old) × (inodes ≤ (header_of s.old).free_inodes) × (blocks ≤ (header_of s.old).free_blocks) }
    ensures { s.new ≡ less_free s.old inodes blocks }
{
    let h = Header::read(s);
    put_free(&mut *s, h.free_inodes - inodes, h.free_blocks - blocks);
}

pub fn put_complete(s: &mut [u8], v: u8)
    requires { header_bytes ≤ length s.old }
    ensures { s.new ≡ put_complete s.old v }
{
    octets::put_8(&mut *s, 8, v);
}

// The header's other bytes are 0.
#[tactic(auto, unfolding(crate::specs::Header::header_rest_zero))]
pub fn reserved_zero(s: &[u8]) -> bool
    requires { header_bytes ≤ length s.now }
    ensures { result ≡ header_rest_zero s.now }
{
    octets::get_8(s, 9) == 0 && octets::get_32(s, 12) == 0
}
