// A copy's moments are stores in a row; the first is the store at its start.
ghost use Rattle.std.specs.Prelude.{◌*◌, ◌≤◌, ◌<◌, IfSome};

use crate::fields::{BYTES_BLOCKS, Inode, Kind, Place, SLOTS, Store};

pub const MOMENT_BYTES: usize = 4096;

pub type Moment = [u8; MOMENT_BYTES];

// An entry as it is told: its directory, and its slot there.
#[derive(Clone, Copy)]
pub struct Entry {
    pub directory: usize,
    pub slot: usize,
}

impl Entry {
    fn at(p: usize) -> Entry {
        Entry {
            directory: 1 + p / SLOTS,
            slot: p % SLOTS,
        }
    }
}

// The copy's entry stood at its place at a moment: inode and name.
fn stood(moments: &[Moment], copy: Place) -> bool {
    moments.iter().any(|bytes| {
        let then = copy.store.at(bytes).place(copy.number);
        then.names() == copy.names() && then.same_slot(copy)
    })
}

// The p-th block of an inode's bytes is the same, or there is none.
fn block_alike(then: Inode, copy: Inode, p: usize) -> bool
    requires { p ≤ 43 }
{
    match (then.bytes_block(p), copy.bytes_block(p)) {
        (Some(a), Some(b)) => then.store.same_block(a, copy.store, b),
        (None, None) => true,
        _ => false,
    }
}

// The inode had the copy's kind and size and, a file, its bytes.
fn alike(then: Inode, copy: Inode) -> bool {
    if then.kind() != copy.kind() || then.size() != copy.size() {
        return false;
    }
    copy.kind() != Kind::File || (0..BYTES_BLOCKS).all(|p| block_alike(then, copy, p))
}

// Wherever the copy names inode i, so did the store.
fn named_alike(then: Store, copy: Store, i: usize) -> bool {
    (0..copy.places()).all(|p| copy.place(p).names() != Some(i) || then.place(p).names() == Some(i))
}

// There was a moment at which the inode was what the copy has of it, and named wherever the copy names it.
fn of_one_moment(moments: &[Moment], copy: Inode) -> bool {
    moments.iter().any(|bytes| {
        let then = copy.store.at(bytes);
        alike(then.inode(copy.number), copy) && named_alike(then, copy.store, copy.number)
    })
}

// The first inode that the copy has in use and that is of no moment.
pub fn strange_inode(moments: &[Moment], copy: Store) -> Option<usize> {
    (1..=copy.inodes).find(|&i| {
        let inode = copy.inode(i);
        inode.kind() != Kind::Free && !of_one_moment(moments, inode)
    })
}

// The place of the entry that names i.
fn entry_of(s: Store, i: usize) -> Option<usize>
    ensures { IfSome result (λ p. p < 48 * s.entry.inodes) }
{
    (0..s.places()).find(|&p| s.place(p).names() == Some(i))
}

// Neither the entry at the place, of the store at the start, nor any above it was taken out.
fn kept(entry: Place, taken: &[bool]) -> bool {
    let s = entry.store;
    let mut p = entry.number;
    for _ in 0..s.inodes {
        if taken.get(p) == Some(&true) {
            return false;
        }
        if p < SLOTS {
            return true;
        }
        match entry_of(s, 1 + p / SLOTS) {
            Some(above) => p = above,
            None => return false,
        }
    }
    false
}

// An entry stood at the place at the start, and was kept.
fn is_owed(entry: Place, taken: &[bool]) -> bool {
    entry.names().is_some() && kept(entry, taken)
}

// How many entries the copy owes, and the first that is not in it for the same inode; behind that
// one nothing is counted.
#[derive(Clone, Copy)]
pub struct Owed {
    pub entries: usize,
    pub missing: Option<Entry>,
}

pub fn kept_entries(s: Store, copy: Store, taken: &[bool]) -> Owed
    ensures { result.entries ≤ 48 * s.entry.inodes }
{
    let missing = (0..s.places()).find(|&p| {
        let entry = s.place(p);
        let i = entry.names();
        i.is_some() && copy.place(p).names() != i && kept(entry, taken)
    });
    let end = missing.unwrap_or(s.places());
    Owed {
        entries: (0..end).filter(|&p| is_owed(s.place(p), taken)).count(),
        missing: missing.map(Entry::at),
    }
}

// The first entry of the copy that stood at no moment with its inode and name.
pub fn strange_entry(moments: &[Moment], copy: Store) -> Option<Entry> {
    let p = (0..copy.places()).find(|&p| {
        let entry = copy.place(p);
        entry.names().is_some() && !stood(moments, entry)
    });
    p.map(Entry::at)
}

// The entry at the place was taken out: the place names another inode now, or none. Being replaced is being unlinked.
pub fn is_taken(before: Place, after: Place) -> bool {
    let i = before.names();
    i.is_some() && after.names() != i
}

// An accepted unlink or rename led from one store to the next: the places whose entries it took out are noted, also one that it filled
// at once.
pub fn note_taken(before: Store, after: Store, taken: &mut [bool]) {
    for (p, noted) in taken.iter_mut().enumerate().take(before.places()) {
        if is_taken(before.place(p), after.place(p)) {
            *noted = true;
        }
    }
}
