// The tests of what the call is handed: dates, terms, and the day asked.
ghost use Rattle.std.specs.Prelude.{◌≡◌, not, ◌≤◌, length};
ghost use Rattle.calendar.specs.Gregorian.{MonthStarts};
ghost use Rattle.keeping.specs.Call.{wrong_terms, after_asked};
ghost use Rattle.keeping.specs.Days.{DaysRead, AllRead};

use calendar::MONTHS;

// Whether each date is one; their days go to the front of `days`.
fn read_days(starts: &[u16; MONTHS], dates: &[u32], days: &mut [u16]) -> bool
    requires month_starts { MonthStarts starts.now }
    requires dates_in_bounds { length dates.now ≤ length days.old }
    ensures { DaysRead dates.now days.old days.new result }
{
    for (i, date) in dates.iter().enumerate() {
        let Some(day) = calendar::reckon(starts, *date) else {
            return false;
        };
        days[i] = day;
    }
    true
}

// The day asked, if all dates are dates; the days of the lists go to the front of theirs. The table of
// months is held here, once for the call, and its place is free again for the map of days.
pub fn read_all(
    copies: &[u32],
    terms: &[u32],
    asked: u32,
    copy_days: &mut [u16],
    term_days: &mut [u16],
) -> Option<u16>
    requires { (length copies.now ≤ length copy_days.old) × (length terms.now ≤ length term_days.old) }
    ensures { AllRead copies.now terms.now asked copy_days.old term_days.old copy_days.new term_days.new result }
{
    let starts = calendar::month_starts();
    if !read_days(&starts, copies, copy_days) {
        return None;
    }
    if !read_days(&starts, terms, term_days) {
        return None;
    }
    calendar::reckon(&starts, asked)
}

// Each term ends no sooner than it begins, and begins after the end of the one before it. By a loop: each turn hands
// the next one the day from which on a term may begin, and stops at a term that begins sooner.
pub fn in_order(terms: &[u16]) -> bool
    ensures { result ≡ not (wrong_terms terms.now) }
{
    let mut free: usize = 0;
    for t in 0..terms.len() / 2 {
        let first = usize::from(terms[2 * t]);
        let last = usize::from(terms[2 * t + 1]);
        if first < free {
            return false;
        }
        if last < first {
            return false;
        }
        free = last + 1;
    }
    true
}

pub fn none_after(days: &[u16], today: usize) -> bool
    ensures { result ≡ not (after_asked days.now today) }
{
    days.iter().all(|day| usize::from(*day) <= today)
}
