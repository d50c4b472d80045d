// What is found of a finished copy.
ghost use Rattle.std.specs.Prelude.{◌*◌, ◌≤◌};

use trial_judge::copy::{Entry, Moment, Owed, kept_entries, strange_entry, strange_inode};
use trial_judge::counts::{free_blocks_right, free_inodes_right, wrong_links};
use trial_judge::fields::{Store, byte};
use watch::Form;

// How many entries it owes; whether it is a sound image of its inodes; the first entry that it owes
// and has not, the first entry and the first inode of no moment, the first inode with a wrong link
// count; and whether its free counts are true.
#[derive(Clone, Copy)]
pub struct Found {
    pub owed: usize,
    pub sound: bool,
    pub missing: Option<Entry>,
    pub entry: Option<Entry>,
    pub inode: Option<usize>,
    pub links: Option<usize>,
    pub free_inodes: bool,
    pub free_blocks: bool,
}

impl Found {
    // A sound image that has every entry that it owes, nothing that is not of its time, and true
    // counts.
    pub fn is_right(&self) -> bool {
        self.sound
            && self.missing.is_none()
            && self.entry.is_none()
            && self.inode.is_none()
            && self.links.is_none()
            && self.free_inodes
            && self.free_blocks
    }
}

// What the copy owes of the store at its start.
fn owed(moments: &[Moment], image: Store, taken: &[bool]) -> Owed
    ensures { result.entries ≤ 48 * image.entry.inodes }
{
    match moments.first() {
        Some(first) => kept_entries(image.at(first), image, taken),
        None => Owed {
            entries: 0,
            missing: None,
        },
    }
}

// The moments are the copy's; taken are the places of entries that were taken out since the first.
pub fn find(moments: &[Moment], image: Store, taken: &[bool]) -> Found
    ensures { result.owed ≤ 48 * image.entry.inodes }
{
    let owed = owed(moments, image, taken);
    let inodes = usize::from(byte(image.bytes, 0));
    Found {
        owed: owed.entries,
        sound: inodes == image.inodes && watch::check(Form::Image, image.bytes),
        missing: owed.missing,
        entry: strange_entry(moments, image),
        inode: strange_inode(moments, image),
        links: wrong_links(image),
        free_inodes: free_inodes_right(image),
        free_blocks: free_blocks_right(image),
    }
}
