// A list of events from a laid-out store on, with a copy under way; the one behind it finishes the
// copy.
use crate::print;
use trial_compare::both::Sides;
use trial_compare::calls::Wrong;
use trial_events::event::{DESK_BYTES, Entry, Event, STORE_BYTES};
use trial_events::print::word;
use trial_record::copy::{AnyCopy, AnyRecord};
use trial_record::list::turn;

pub const INODES: usize = 8;

pub const BLOCKS: usize = 59;

const EVENTS: usize = 26;

pub fn at(dir: usize, name: usize) -> Entry {
    Entry { dir, name }
}

pub fn write(inode: usize, offset: usize, length: usize) -> Event {
    Event::Write {
        inode,
        offset,
        length,
    }
}

// Names 0 to 4 are `a`, `ab`, `ac`, `ad` and `ae`. Inode 2 is a directory with the long file 4, a
// second link to the file 3, and the directory 7, which has the file 8 and is moved to the root
// when that is copied, so that neither is in the copy; 5 is an empty file; 6 is a file that is
// unlinked when the root is copied, and its number goes to another file, in directory 2. There a
// third link to the file 3 is replaced by file 8, which gets its slot, when the directory is copied
// and the file is not.
fn nth(k: usize) -> Event {
    match k {
        0 => Event::CreateDirectory(at(1, 0)),
        1 => Event::CreateFile(at(1, 1)),
        2 => write(3, 0, 100),
        3 => Event::CreateFile(at(2, 0)),
        4 => write(4, 0, 1000),
        5 => write(4, 800, 50),
        6 => Event::Link(at(2, 1), 3),
        7 => Event::CreateFile(at(1, 2)),
        8 => Event::CreateFile(at(1, 3)),
        9 => write(6, 0, 10),
        10 => Event::CreateDirectory(at(2, 3)),
        11 => Event::CreateFile(at(7, 0)),
        12 => Event::Link(at(2, 4), 3),
        13 => Event::Start,
        14 => Event::Burst(3),
        15 => Event::Unlink(at(1, 3)),
        16 => Event::Rename(at(2, 3), at(1, 3)),
        17 => Event::CreateFile(at(2, 2)),
        18 => write(6, 0, 20),
        19 => Event::Rename(at(1, 2), at(1, 4)),
        20 => Event::Burst(3),
        21 => Event::Rename(at(7, 0), at(2, 4)),
        22 => Event::Burst(4),
        23 => write(3, 0, 5),
        24 => write(3, 70, 5),
        25 => Event::Burst(10),
        _ => Event::Burst(64),
    }
}

// The events, up to one that is not right: then no copy is under way.
fn run_events(sides: &mut Sides, record: &mut AnyRecord) {
    for k in 0..EVENTS {
        if turn(nth(k), (k + 1) as u8, &mut *sides, &mut *record).is_err() {
            record.copy = AnyCopy::none();
            return;
        }
    }
}

// The bytes of one buffer, to another if it has room.
pub fn refill(to: &mut [u8], from: &[u8]) {
    let k = from.len();
    if k <= to.len() {
        to[..k].copy_from_slice(from);
    }
}

// The copy under way is finished in another image, on a copy of the desk; what is wrong of that
// event.
fn finish(sides: &mut Sides, whole: &mut [u8], record: &mut AnyRecord) -> Result<(), Wrong> {
    let mut desk = [0u8; DESK_BYTES];
    refill(&mut desk, &*sides.desk);
    refill(&mut *whole, &*sides.image);
    let mut sides = Sides {
        store: &mut *sides.store,
        image: whole,
        desk: &mut desk,
        beside: &mut *sides.beside,
        inodes: INODES,
    };
    turn(nth(EVENTS), 0, &mut sides, record)
}

// The list on buffers laid out; prints whether it is right, and leaves the copy as it was before
// its finish. The finished image is in whole; image and desk stay as they were before.
pub fn run(
    store: &mut [u8],
    image: &mut [u8],
    desk: &mut [u8],
    whole: &mut [u8],
    record: &mut AnyRecord,
) {
    let mut beside = [0u8; STORE_BYTES];
    let _ = watch::lay_out_store(&mut beside, INODES, BLOCKS);
    let mut sides = Sides {
        store,
        image,
        desk,
        beside: &mut beside,
        inodes: INODES,
    };
    run_events(&mut sides, &mut *record);
    let copy = record.copy;
    let finished = finish(&mut sides, whole, &mut *record);
    record.copy = copy;
    word(b"the list:");
    print::verdict(finished);
    word(b"\n");
}
