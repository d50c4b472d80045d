// Finished copies, plain stores and bursts with one thing wrong each, and answers that can't be:
// what the trial finds of each. A line of the input says what is wrong (`copy`, `plain`, `burst`,
// `answer`), how it is called, and what makes it wrong: commands of `replay`, or numbers. The three
// are parted by a `:`, commands by a `;`.
#![tactic(auto)]

mod cases;
mod history;
mod lines;
mod print;

use crate::lines::Halfway;
use trial_events::event::{DESK_BYTES, STORE_BYTES};
use trial_events::print::difference;
use trial_record::copy::AnyRecord;

// The list that a difference is printed of, with renames of both kinds, up to an event that is a burst.
const LIST: u64 = 5473;

const EVENT: u64 = 15;

fn main() {
    let mut store = [0u8; STORE_BYTES];
    let mut image = [0u8; 4368];
    let mut desk = [0u8; DESK_BYTES];
    let mut whole = [0u8; 4368];
    let mut record = AnyRecord::new();
    let _ = watch::lay_out_store(&mut store, history::INODES, history::BLOCKS);
    let _ = watch::lay_out_desk(&mut desk, history::INODES);
    history::run(&mut store, &mut image, &mut desk, &mut whole, &mut record);
    let at = Halfway {
        copy: record.copy,
        store: &store,
        half: &image,
        notes: &desk,
        whole: &whole,
    };
    lines::all(at, &mut record);
    difference(1, LIST, EVENT);
}
