// The rule, by a map of the copies' days and each term's latest copy.
ghost use Rattle.std.specs.Prelude.{◌≡◌, ◌≤◌, min, max, leb, length};
ghost use Rattle.bounded.specs.Search.{pick};
ghost use Rattle.bounded.specs.Count.{one, count};
ghost use Rattle.octets.specs.Octets.{splice};
ghost use Rattle.calendar.specs.Date.{last_day};
ghost use Rattle.keeping.specs.Keeping.{copy_count, term_count};
ghost use Rattle.keeping.specs.Call.{most_terms};
ghost use Rattle.keeping.specs.Days.{Ready, Unseen, NotedFrom, look_flags, latest_by, Latest, term_test, Askable, copy_test, settled, settled_flags};

use crate::days::{DAY_WORDS, note, noted, noted_after};

pub const MOST_TERMS: usize = 12;

const YOUNG_DAYS: usize = 13;

const TERM_DAYS: usize = 56;

// Notes the day of each copy, from the list's end on: one whose day is noted already is not looked at.
pub fn look_at(days: &[u16], map: &mut [u64; DAY_WORDS], out: &mut [u8])
    requires { Unseen days.now map.old out.old }
    ensures noted_from { NotedFrom days.now 0 map.new }
    ensures out_after { out.new ≡ splice out.old 0 (look_flags days.now) }
{
    for i in (0..days.len()).rev() {
        let day = usize::from(days[i]);
        out[i] = u8::from(!noted(map, day));
        note(map, day);
    }
}

// The last day up to `end` on which a copy is dated.
fn latest_by(days: &[u16], end: u16) -> u16
    ensures { result ≡ latest_by days.now end }
{
    days.iter().fold(
        0,
        |latest, day| latest.max(if *day <= end { *day } else { 0 }),
    )
}

// For each term the day of its last copy, if it has one. By places: over `chunks_exact(2).enumerate()` the proof stopped
// at the list that is left, which would need an invariant in the iterator's own parts.
pub fn latest_days(days: &[u16], terms: &[u16], latest: &mut [u16; MOST_TERMS])
    requires { (term_count terms.now ≤ most_terms) × (length latest.old ≡ most_terms) }
    ensures { Latest days.now terms.now (term_count terms.now) latest.new }
{
    for t in 0..terms.len() / 2 {
        latest[t] = latest_by(days, terms[2 * t + 1]);
    }
}

// A term keeps its last copy for ever, and for a while the last of each week.
fn term_keeps(
    map: &[u64; DAY_WORDS],
    first: usize,
    last: usize,
    latest: usize,
    today: usize,
    day: usize,
) -> bool
    requires { last ≤ last_day }
    ensures { result ≡ term_test map.now first last latest today day }
{
    if day < first {
        return false;
    }
    if last < day {
        return false;
    }
    if latest <= day {
        return true;
    }
    if last + TERM_DAYS < today {
        return false;
    }
    !noted_after(map, day, calendar::sunday(day).min(last) - day)
}

// Whether a copy of this day is kept; `looked` is 1 if it is looked at: a byte of C's list, as copy_test has it.
#[tactic(auto, using(crate::proofs::TestLaws::not_looked))]
fn copy_keeps(
    looked: u8,
    map: &[u64; DAY_WORDS],
    terms: &[u16],
    latest: &[u16; MOST_TERMS],
    today: usize,
    day: usize,
) -> bool
    requires { Askable terms.now day }
    ensures { result ≡ copy_test looked map.now terms.now latest.now today day }
{
    if looked != 1 {
        return false;
    }
    if today <= day + YOUNG_DAYS {
        return true;
    }
    (0..terms.len() / 2).any(|t| {
        let first = usize::from(terms[2 * t]);
        let last = usize::from(terms[2 * t + 1]);
        term_keeps(map, first, last, usize::from(latest[t]), today, day)
    })
}

// Of the copies that are looked at, those that the rule does not keep go. Answers how many are kept.
pub fn settle(
    days: &[u16],
    terms: &[u16],
    today: usize,
    map: &[u64; DAY_WORDS],
    latest: &[u16; MOST_TERMS],
    out: &mut [u8],
) -> usize
    requires { Ready days.now terms.now out.old }
    ensures value { result
        ≡ count (settled days.now terms.now today map.now latest.now out.old) (copy_count days.now) }
    ensures out_after { out.new
        ≡ splice out.old 0 (settled_flags days.now terms.now today map.now latest.now out.old (copy_count days.now)) }
{
    let mut kept: usize = 0;
    for (i, day) in days.iter().enumerate() {
        let keeps = copy_keeps(out[i], map, terms, latest, today, usize::from(*day));
        out[i] = u8::from(keeps);
        kept += usize::from(keeps);
    }
    kept
}
