// One list, event by event.
ghost use Rattle.std.specs.Prelude.{◌+◌, ◌*◌, ◌≤◌, ◌≡◌};

use crate::copy::{CopyUpTo, RecordUpTo};
use crate::tried::{REFUSALS, Tried, tally};
use trial_compare::both::{Sides, do_both};
use trial_compare::calls::{Got, Wrong};
use trial_events::event::{DESK_BYTES, Event, IMAGE_BYTES, List, STORE_BYTES};
use trial_judge::again::{entries_taken, places_again};
use trial_judge::fields::{Kind, Store};

// Events of a list.
const LENGTH: u64 = 400;

// An inode that was in use at the start.
fn was_used(first: Store, i: usize) -> bool {
    1 <= i && i <= 256 && first.inode(i).kind() != Kind::Free
}

// An accepted rename during a copy, from the stores before and after it: a move takes out its own entry, and what else is taken out was
// replaced.
fn count_rename(moved: bool, before: Store, after: Store, tried: &mut Tried) {
    let out = entries_taken(before, after);
    if out == 0 {
        return;
    }
    tally(&mut tried.refilled, places_again(before, after));
    if moved {
        tally(&mut tried.moves, 1);
        tally(&mut tried.replaced, out - 1);
    } else {
        tally(&mut tried.replaced, out);
    }
}

// An accepted call during a copy; the stores at its start, before the call and after it.
fn count_live(
    e: Event,
    value: usize,
    first: Store,
    before: Store,
    after: Store,
    tried: &mut Tried,
) {
    match e {
        Event::CreateFile(_) | Event::CreateDirectory(_) => {
            tally(&mut tried.inodes, usize::from(was_used(first, value)))
        }
        Event::Rename(at, to) => count_rename(at.dir != to.dir, before, after, tried),
        Event::RenameNew(at, to) => count_rename(at.dir != to.dir, before, after, tried),
        _ => {}
    }
}

// What is told of the trial at its end. The last moment is the store before the event.
fn count<const MOST: usize>(e: Event, got: Got, store: Store, record: &mut RecordUpTo<MOST>) {
    tally(&mut record.tried.events, 1);
    match got {
        Ok(value) => {
            tally(&mut record.tried.accepted, 1);
            let mut tried = record.tried;
            let moments = record.seen();
            if let (Some(first), Some(last)) = (moments.first(), moments.last()) {
                count_live(e, value, store.at(first), store.at(last), store, &mut tried);
            }
            record.tried = tried;
        }
        Err(number) => {
            if number < REFUSALS {
                tally(&mut record.tried.refused[number], 1);
            }
        }
    }
}

// An event done by both, compared, and the copy followed.
pub fn turn<const MOST: usize>(
    e: Event,
    fill: u8,
    sides: &mut Sides,
    record: &mut RecordUpTo<MOST>,
) -> Result<(), Wrong> {
    let got = do_both(e, fill, &mut *sides, &mut record.taken)?;
    count(e, got, sides.seen_store(), &mut *record);
    record.follow(e, got, sides.seen_store(), sides.seen_image())
}

// The events of a list, on buffers laid out: the number of the event that shows a difference, the first being 1.
fn run_events<const MOST: usize>(
    list: List,
    sides: &mut Sides,
    record: &mut RecordUpTo<MOST>,
) -> Option<u64> {
    // A `find` would change what it is asked of: the sides and the record.
    for k in 1..LENGTH {
        if turn(list.nth(k), (k % 251) as u8, &mut *sides, &mut *record).is_err() {
            return Some(k);
        }
    }
    None
}

// Lays the buffers out and runs the list.
fn run_fresh<const MOST: usize>(
    list: List,
    sides: &mut Sides,
    record: &mut RecordUpTo<MOST>,
) -> Option<u64> {
    let n = list.shape.inodes;
    let b = list.shape.blocks;
    let _ = watch::lay_out_store(&mut *sides.store, n, b);
    let _ = watch::lay_out_store(&mut *sides.beside, n, b);
    let _ = watch::lay_out_desk(&mut *sides.desk, n);
    record.copy = CopyUpTo::none();
    tally(&mut record.tried.lists, 1);
    run_events(list, sides, record)
}

// A store's or an image's length.
fn length_of(n: usize, b: usize) -> usize
    requires { (n ≤ 8) × (b ≤ 352) }
    ensures { result ≡ 16 + 32 * n + 64 * b }
{
    16 + 32 * n + 64 * b
}

// Runs a list, and answers as above.
pub fn run<const MOST: usize>(seed: u64, list: u64, record: &mut RecordUpTo<MOST>) -> Option<u64> {
    let list = List::new(seed, list);
    let inodes = list.shape.inodes;
    let s = length_of(inodes, list.shape.blocks);
    let i = length_of(inodes, list.shape.image);
    let d = 16 + 9 * inodes;
    let mut store = [0u8; STORE_BYTES];
    let mut image = [0u8; IMAGE_BYTES];
    let mut desk = [0u8; DESK_BYTES];
    let mut beside = [0u8; STORE_BYTES];
    let mut sides = Sides {
        store: &mut store[..s],
        image: &mut image[..i],
        desk: &mut desk[..d],
        beside: &mut beside[..s],
        inodes,
    };
    run_fresh(list, &mut sides, record)
}
