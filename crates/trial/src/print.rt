// What was tried.
use trial_events::print::{number, word};
use trial_record::tried::Tried;

fn row(what: &[u8], n: u64) {
    word(what);
    number(n as usize);
    word(b"\n");
}

pub fn all(tried: &Tried) {
    row(b"lists", tried.lists);
    row(b"events", tried.events);
    row(b"copies finished", tried.finishes);
    row(b"entries they owed", tried.entries);
    row(b"moves during a copy", tried.moves);
    row(b"entries replaced during a copy", tried.replaced);
    row(b"places that the same call filled", tried.refilled);
    row(b"inodes used again during a copy", tried.inodes);
    row(b"blocks used again during a copy", tried.blocks);
    row(b"files across 768 bytes during a copy", tried.crossed);
    row(b"files above 768 bytes in copies", tried.long);
    row(b"steps in bursts", tried.burst_steps);
    row(b"copies finished by a burst", tried.burst_finishes);
    row(b"copies stopped within a burst", tried.burst_stops);
    row(b"accepted", tried.accepted);
    for (refusal, count) in tried.refused.iter().enumerate().skip(1) {
        word(b"refused with");
        number(refusal);
        row(b":", *count);
    }
}
