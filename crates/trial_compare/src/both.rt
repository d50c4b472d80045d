// An event done by the library and, a file call that was not answered 14, by the plain store, a burst by single steps; what they answer and leave is compared.
ghost use Rattle.std.specs.Prelude.{◌≡◌, ◌≤◌, length};

use crate::burst::do_burst;
use crate::calls;
use crate::calls::{Got, Wrong, told, wrong_unless};
use files::plain;
use replay_commands::Command;
use trial_events::event::{Event, MOST_BYTES, OUT_BYTES, SLOTS, spell};
use trial_judge::copy::note_taken;
use trial_judge::fields::Store;

const BUSY: usize = 14;

// What an out-buffer holds before a read.
const FILLER: u8 = 170;

// What the library works on, and the plain store beside it.
#[derive(Drop)]
pub struct Sides<'a> {
    pub store: &'a mut [u8],
    pub image: &'a mut [u8],
    pub desk: &'a mut [u8],
    pub beside: &'a mut [u8],
    pub inodes: usize,
    ghost few: { inodes ≤ 256 },
}

impl<'a> Sides<'a> {
    pub fn seen_store(&self) -> Store
        ensures { result.inodes ≡ self.now.inodes }
    {
        Store {
            bytes: &*self.store,
            inodes: self.inodes,
        }
    }

    pub fn seen_image(&self) -> Store
        ensures { result.inodes ≡ self.now.inodes }
    {
        Store {
            bytes: &*self.image,
            inodes: self.inodes,
        }
    }

    fn seen_beside(&self) -> Store {
        Store {
            bytes: &*self.beside,
            inodes: self.inodes,
        }
    }
}

// The plain store's read is to answer and to show the same.
fn read_beside(
    inode: usize,
    offset: usize,
    got: Got,
    out: &[u8],
    beside: &[u8],
) -> Result<(), Wrong> {
    let mut shown = [FILLER; OUT_BYTES];
    let plain = told(plain::read(beside, inode, offset, &mut shown));
    wrong_unless(got == plain, Wrong::Answer)?;
    wrong_unless(out == shown.as_slice(), Wrong::Out)
}

// The plain store is to answer a file call the same, unless that was answered 14.
fn call_beside(
    command: Command,
    got: Got,
    out: &[u8],
    beside: &mut [u8],
    name: &[u8],
    other: &[u8],
) -> Result<(), Wrong> {
    if got == Err(BUSY) {
        return Ok(());
    }
    match command {
        Command::Read(inode, offset, _) => read_beside(inode, offset, got, out, beside),
        Command::File(call) => {
            let plain = told(calls::plainly(call, beside, name, other));
            wrong_unless(got == plain, Wrong::Answer)
        }
        _ => Ok(()),
    }
}

// The entries that an accepted unlink or rename took out are noted; the plain store is as it was before.
fn note(e: Event, got: Got, sides: &Sides, taken: &mut [bool; SLOTS]) {
    let removes = matches!(
        e,
        Event::Unlink(_) | Event::Rename(_, _) | Event::RenameNew(_, _)
    );
    if removes && got.is_ok() {
        note_taken(sides.seen_beside(), sides.seen_store(), taken);
    }
}

// An event's names, at the front of two buffers, and how many bytes they have; of a write how many it writes, which stand there already.
fn put_names(e: Event, name: &mut [u8], other: &mut [u8]) -> (usize, usize)
    requires { (2 ≤ length name.old) × (2 ≤ length other.old) }
{
    match e {
        Event::CreateFile(at)
        | Event::CreateDirectory(at)
        | Event::Link(at, _)
        | Event::Unlink(at)
        | Event::LookUp(at) => (spell(at.name, name), 0),
        Event::Rename(at, to) | Event::RenameNew(at, to) => {
            (spell(at.name, name), spell(to.name, other))
        }
        Event::Write { length, .. } => (length, 0),
        _ => (0, 0),
    }
}

// The bytes that a write writes are all alike. The plain store is to hold the same after every event.
fn do_call(e: Event, fill: u8, sides: &mut Sides, taken: &mut [bool; SLOTS]) -> Result<Got, Wrong> {
    let mut name = [fill; MOST_BYTES];
    let mut other = [0u8; 2];
    let mut out = [FILLER; OUT_BYTES];
    let (f, g) = put_names(e, &mut name, &mut other);
    let command = calls::command(e, f, g);
    let reply = replay_run::run(
        command,
        &mut *sides.store,
        &mut *sides.image,
        &mut *sides.desk,
        &mut out,
        &name,
        &other,
    );
    let got = calls::replied(reply);
    note(e, got, &*sides, taken);
    call_beside(command, got, &out, &mut *sides.beside, &name, &other)?;
    wrong_unless(*sides.store == *sides.beside, Wrong::Store)?;
    Ok(got)
}

// What the library answers, if nothing differs.
pub fn do_both(
    e: Event,
    fill: u8,
    sides: &mut Sides,
    taken: &mut [bool; SLOTS],
) -> Result<Got, Wrong> {
    match e {
        Event::Burst(count) => {
            do_burst(count, &*sides.store, &mut *sides.image, &mut *sides.desk)
        }
        _ => do_call(e, fill, sides, taken),
    }
}
