// The record of a copy under way, kept from answers and stores alone, and what is asked of it.
ghost use Rattle.std.specs.Prelude.{◌≡◌, ◌≤◌, length};

use crate::finished::find;
use crate::tried::{Tried, tally};
use trial_compare::calls::{Got, Wrong, wrong_unless};
use trial_events::event::{Event, MOST_BURST, SLOTS};
use trial_judge::again::{blocks_again, files_crossed, files_long};
use trial_judge::copy::{MOMENT_BYTES, Moment};
use trial_judge::fields::{Store, is_finished};

// Refusals stay numbers here: a reply of `replay` has no more, and `wrongs` asks about numbers that no refusal has.
const NAME_TAKEN: usize = 7;

const NOT_EMPTY: usize = 8;

const BUSY: usize = 14;

const UNTIMELY: usize = 15;

const FULL: usize = 16;

const BAD_COUNT: usize = 17;

const KINDS_DIFFER: usize = 18;

const MOST_MOMENTS: usize = 512;

const ANY_MOMENTS: usize = usize::MAX;

// More than a copy of a list's store has.
const MOST_STEPS: usize = 1000;

// From a start to the finish: how many moments there were, none where no copy is under way; and accepted steps since the latest start.
// No Option: the count is that of the moments at the front of the record, of which there are none then, and the steps are told even so.
// It tells of MOST moments at most.
#[derive(Clone, Copy)]
pub struct CopyUpTo<const MOST: usize> {
    pub moments: usize,
    pub steps: usize,
    ghost few: { moments ≤ MOST },
}

// A copy of which a record has all moments.
pub type Copy = CopyUpTo<MOST_MOMENTS>;

// A copy that may tell of more moments than a record has room for.
pub type AnyCopy = CopyUpTo<ANY_MOMENTS>;

impl<const MOST: usize> CopyUpTo<MOST> {
    pub fn none() -> CopyUpTo<MOST>
        ensures { result.moments ≡ 0 }
    {
        CopyUpTo {
            moments: 0,
            steps: 0,
        }
    }

    fn is_running(self) -> bool {
        0 < self.moments
    }
}

// The copy, its moments at the front, the places whose entries were taken out since the first, and what was tried.
#[derive(Drop)]
pub struct RecordUpTo<const MOST: usize> {
    pub copy: CopyUpTo<MOST>,
    pub moments: [Moment; MOST_MOMENTS],
    pub taken: [bool; SLOTS],
    pub tried: Tried,
}

pub type Record = RecordUpTo<MOST_MOMENTS>;

pub type AnyRecord = RecordUpTo<ANY_MOMENTS>;

// A call that makes a new name, and replaces none.
fn is_new(e: Event) -> bool {
    let creates = matches!(e, Event::CreateFile(_) | Event::CreateDirectory(_));
    creates || matches!(e, Event::Link(_, _) | Event::RenameNew(_, _))
}

// A call that takes out what has a name.
fn is_removal(e: Event) -> bool {
    matches!(e, Event::Unlink(_) | Event::Rename(_, _))
}

fn is_step(e: Event) -> bool {
    matches!(e, Event::Step | Event::Burst(_))
}

fn is_file_call(e: Event) -> bool {
    !is_step(e) && !matches!(e, Event::Start | Event::Ask)
}

// A file call that changes the store.
fn is_change(e: Event) -> bool {
    is_file_call(e) && !matches!(e, Event::LookUp(_) | Event::Read { .. })
}

// 1 to 3 never come, 4 to 13 to file calls, of which 7 to those that make a new name and replace none, and 8 to those that take out
// what has it; 14 to those that change something and 16 to steps, while a copy runs; 15 to a start then and to steps at other times;
// 17 to a burst at any, 18 to a rename that replaces.
fn refusal_right(e: Event, number: usize, running: bool) -> bool {
    match number {
        0..=3 => false,
        NAME_TAKEN => is_new(e),
        NOT_EMPTY => is_removal(e),
        4..=13 => is_file_call(e),
        BUSY => running && is_change(e),
        UNTIMELY => {
            if running {
                matches!(e, Event::Start)
            } else {
                is_step(e)
            }
        }
        FULL => running && is_step(e),
        BAD_COUNT => matches!(e, Event::Burst(_)),
        KINDS_DIFFER => matches!(e, Event::Rename(_, _)),
        _ => false,
    }
}

// A store at the front of a moment.
fn put(moment: &mut Moment, store: &[u8])
    requires { length store.now ≤ 4096 }
{
    moment[..store.len()].copy_from_slice(store);
}

impl<const MOST: usize> RecordUpTo<MOST> {
    pub fn new() -> RecordUpTo<MOST> {
        RecordUpTo {
            copy: CopyUpTo::none(),
            moments: [[0; MOMENT_BYTES]; MOST_MOMENTS],
            taken: [false; SLOTS],
            tried: Tried::new(),
        }
    }

    // The copy's moments, of which the record has no more than it has room for.
    pub fn seen(&self) -> &[Moment] {
        &self.moments[..self.copy.moments.min(MOST_MOMENTS)]
    }

    // The store is one more moment, if the record has room and the copy may tell of it.
    fn remember(&mut self, store: &[u8]) {
        let m = self.copy.moments;
        let k = store.len();
        if MOST_MOMENTS.min(MOST) <= m {
            return;
        }
        self.copy.moments = m + 1;
        if k <= MOMENT_BYTES {
            put(&mut self.moments[m], store);
        }
    }

    // An accepted start: the first moment, and nothing taken out.
    fn started(&mut self, store: &[u8]) -> Result<(), Wrong> {
        let right = !self.copy.is_running();
        self.taken.fill(false);
        self.copy = CopyUpTo::none();
        self.remember(store);
        wrong_unless(right, Wrong::Start)
    }

    // The finished copy is to be right; what it shows, and what has become of blocks and files since the first moment, is counted.
    fn finished(&mut self, store: Store, image: Store) -> Result<(), Wrong> {
        let found = find(self.seen(), image, &self.taken);
        let first = store.at(&self.moments[0]);
        tally(&mut self.tried.finishes, 1);
        tally(&mut self.tried.entries, found.owed);
        tally(&mut self.tried.blocks, blocks_again(first, store));
        tally(&mut self.tried.crossed, files_crossed(first, store));
        tally(&mut self.tried.long, files_long(image));
        self.copy.moments = 0;
        wrong_unless(found.is_right(), Wrong::Finish)
    }

    // Accepted steps, so many since the start.
    fn stepped(&mut self, steps: usize, store: Store, image: Store) -> Result<(), Wrong> {
        let more = self.copy.steps < steps && steps <= 46 * image.inodes + 1;
        wrong_unless(more && self.copy.is_running(), Wrong::Steps)?;
        self.copy.steps = steps;
        if is_finished(image.bytes) {
            return self.finished(store, image);
        }
        Ok(())
    }

    // An accepted step answers the steps since the start.
    fn step(&mut self, value: usize, store: Store, image: Store) -> Result<(), Wrong> {
        wrong_unless(1 <= value && value - 1 == self.copy.steps, Wrong::Steps)?;
        self.stepped(value, store, image)
    }

    // An accepted burst of at most so many steps answers its own. One that ended early, but not by a finish, was stopped by a refusal,
    // and so was the copy.
    fn burst(
        &mut self,
        count: usize,
        value: usize,
        store: Store,
        image: Store,
    ) -> Result<(), Wrong> {
        let before = self.copy.steps;
        if count < value || MOST_BURST < value || MOST_STEPS < before {
            return Err(Wrong::Steps);
        }
        tally(&mut self.tried.burst_steps, value);
        if is_finished(image.bytes) {
            tally(&mut self.tried.burst_finishes, 1);
        } else if value < count {
            tally(&mut self.tried.burst_stops, 1);
        }
        self.stepped(before + value, store, image)?;
        if value < count {
            self.copy.moments = 0;
        }
        Ok(())
    }

    // A refused event; 16 ends the copy.
    fn refused(&mut self, e: Event, number: usize) -> Result<(), Wrong> {
        let right = refusal_right(e, number, self.copy.is_running());
        if number == FULL {
            self.copy.moments = 0;
        }
        wrong_unless(right, Wrong::Refusal)
    }

    fn accepted(
        &mut self,
        e: Event,
        value: usize,
        store: Store,
        image: Store,
    ) -> Result<(), Wrong> {
        match e {
            Event::Step => self.step(value, store, image),
            Event::Burst(count) => self.burst(count, value, store, image),
            Event::Ask => wrong_unless(value == self.copy.steps, Wrong::Steps),
            Event::Start => self.started(store.bytes),
            _ => {
                if self.copy.is_running() {
                    self.remember(store.bytes);
                }
                Ok(())
            }
        }
    }

    // What an event was answered, and store and image after it.
    pub fn follow(&mut self, e: Event, got: Got, store: Store, image: Store) -> Result<(), Wrong> {
        match got {
            Ok(value) => self.accepted(e, value, store, image),
            Err(number) => self.refused(e, number),
        }
    }
}
