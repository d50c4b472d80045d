// Something made wrong, and what is found of it.
use crate::history::{INODES, at, refill, write};
use crate::print;
use replay_commands::Reply;
use replay_commands::parse::parse;
use text::numbers::number;
use text::pieces::{piece, pieces};
use trial_compare::both::Sides;
use trial_compare::burst::compare;
use trial_events::event::{DESK_BYTES, Event, MOST_BURST, STORE_BYTES};
use trial_events::print::word;
use trial_judge::fields::Store;
use trial_record::copy::{AnyCopy, AnyRecord};
use trial_record::finished::find;
use trial_record::list::turn;

const SPACE: u8 = 32;

const SEMICOLON: u8 = 59;

fn is_made(r: Reply) -> bool {
    match r {
        Reply::Error => false,
        Reply::Refused(_) => false,
        _ => true,
    }
}

// Does a command.
fn apply(command: &[u8], store: &mut [u8], image: &mut [u8], desk: &mut [u8]) -> bool {
    let mut name = [0u8; 64];
    let mut other = [0u8; 64];
    let mut page = [0u8; 64];
    let asked = parse(command, &mut name, &mut other);
    is_made(replay_run::run(asked, store, image, desk, &mut page, &name, &other))
}

// Does the commands; says so where one is refused.
fn alter(commands: &[u8], store: &mut [u8], image: &mut [u8], desk: &mut [u8]) {
    if commands.is_empty() {
        return;
    }
    for k in 0..pieces(commands, SEMICOLON) {
        if !apply(
            piece(commands, SEMICOLON, k),
            &mut *store,
            &mut *image,
            &mut *desk,
        ) {
            word(b" not made");
        }
    }
}

fn of_list(bytes: &[u8]) -> Store {
    Store {
        bytes,
        inodes: INODES,
    }
}

// A finished copy is changed as if it were a store; the copy's last step is to have left it.
pub fn copy(commands: &[u8], copy: AnyCopy, store: &[u8], whole: &[u8], record: &mut AnyRecord) {
    let mut wrong = [0u8; 4368];
    let mut image = [0u8; 16];
    let mut desk = [0u8; DESK_BYTES];
    refill(&mut wrong, whole);
    let _ = watch::lay_out_desk(&mut desk, INODES);
    alter(commands, &mut wrong, &mut image, &mut desk);
    record.copy = copy;
    let found = find(record.seen(), of_list(&wrong), &record.taken);
    let right = record.follow(Event::Burst(1), Ok(1), of_list(store), of_list(&wrong));
    print::verdict(right);
    print::found(found);
}

// An event done by the library, and by a plain store that is wrong.
fn beside_wrong(e: Event, commands: &[u8], store: &[u8], record: &mut AnyRecord) {
    let mut right = [0u8; STORE_BYTES];
    let mut wrong = [0u8; STORE_BYTES];
    let mut image = [0u8; 16];
    let mut desk = [0u8; DESK_BYTES];
    refill(&mut right, store);
    refill(&mut wrong, store);
    let _ = watch::lay_out_desk(&mut desk, INODES);
    alter(commands, &mut wrong, &mut image, &mut desk);
    let mut sides = Sides {
        store: &mut right,
        image: &mut image,
        desk: &mut desk,
        beside: &mut wrong,
        inodes: INODES,
    };
    let taken = record.taken;
    record.copy = AnyCopy::none();
    print::verdict(turn(e, 1, &mut sides, &mut *record));
    record.taken = taken;
}

pub fn plain(commands: &[u8], store: &[u8], record: &mut AnyRecord) {
    let read = Event::Read {
        inode: 3,
        offset: 0,
    };
    word(b" look up");
    beside_wrong(Event::LookUp(at(1, 1)), commands, store, &mut *record);
    word(b", read");
    beside_wrong(read, commands, store, &mut *record);
    word(b", write");
    beside_wrong(write(3, 0, 10), commands, store, &mut *record);
    word(b", unlink");
    beside_wrong(Event::Unlink(at(1, 1)), commands, store, record);
}

// A burst, and single steps on an image or a desk that is wrong.
pub fn burst(commands: &[u8], store: &[u8], half: &[u8], notes: &[u8]) {
    let mut spare = [0u8; STORE_BYTES];
    let mut image = [0u8; 4368];
    let mut other = [0u8; 4368];
    let mut desk = [0u8; DESK_BYTES];
    let mut wrong = [0u8; DESK_BYTES];
    refill(&mut spare, store);
    refill(&mut image, half);
    refill(&mut other, half);
    refill(&mut desk, notes);
    refill(&mut wrong, notes);
    alter(commands, &mut spare, &mut other, &mut wrong);
    let both = compare(
        MOST_BURST, store, &mut image, &mut desk, &mut other, &mut wrong,
    );
    print::verdict(both);
}

// Number k of a line of them, 0 where there is none.
fn nth_number(numbers: &[u8], k: usize) -> usize {
    number(piece(numbers, SPACE, k)).unwrap_or(0)
}

// The event that a line's number stands for. One of none is judged as a step where it is refused, and as a burst of none where it is
// accepted.
fn numbered(k: usize, refused: bool) -> Event {
    let entry = at(1, 1);
    match k {
        0 => Event::CreateFile(entry),
        1 => Event::CreateDirectory(entry),
        2 => write(0, 0, 0),
        3 => Event::Shorten {
            inode: 0,
            offset: 0,
        },
        4 => Event::Link(entry, 0),
        5 => Event::Unlink(entry),
        6 => Event::Rename(entry, at(0, 0)),
        7 => Event::RenameNew(entry, at(0, 0)),
        8 => Event::LookUp(entry),
        9 => Event::Read {
            inode: 0,
            offset: 0,
        },
        10 => Event::Start,
        11 => Event::Ask,
        12 => Event::Step,
        13 => Event::Burst(0),
        _ => {
            if refused {
                Event::Step
            } else {
                Event::Burst(0)
            }
        }
    }
}

// An answer, in numbers: of which event, the refusal or 0, the value; and how many moments and
// steps the copy has had.
pub fn answer(numbers: &[u8], store: &[u8], half: &[u8], record: &mut AnyRecord) {
    let refusal = nth_number(numbers, 1);
    let value = nth_number(numbers, 2);
    let e = numbered(nth_number(numbers, 0), refusal != 0);
    let got = if refusal == 0 {
        Ok(value)
    } else {
        Err(refusal)
    };
    record.copy = AnyCopy {
        moments: nth_number(numbers, 3),
        steps: nth_number(numbers, 4),
    };
    print::verdict(record.follow(e, got, of_list(store), of_list(half)));
}
