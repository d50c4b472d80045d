// Random lists of calls on the library, beside a plain store and a record of which entries were taken out: at the first difference it prints the list that shows it.
// Words: a seed, and how many lists.
#![tactic(auto)]

mod print;

use std::env::Env;
use text::numbers::number;
use text::pieces::front;
use trial_events::print::difference;
use trial_record::copy::Record;
use trial_record::list::run;

// Word k, or the number given where there is none.
fn word(rt: &HostRuntime, k: usize, given: usize) -> usize {
    let mut text = [0u8; 20];
    let n = rt.arg(k, &mut text).unwrap_or(0);
    number(front(&text, n)).unwrap_or(given)
}

fn main(rt: HostRuntime) {
    let seed = word(&rt, 1, 1) as u64;
    let lists = word(&rt, 2, 1000) as u64;
    let mut record = Record::new();
    for l in 0..lists {
        if let Some(event) = run(seed, l, &mut record) {
            difference(seed, l, event);
            return;
        }
    }
    print::all(&record.tried);
}
