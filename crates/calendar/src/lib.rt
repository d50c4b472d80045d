// Dates by the Gregorian rule, their day numbers, and weeks.
#![tactic(auto)]

mod starts;

ghost use Rattle.std.specs.Prelude.{◌≡◌, ◌<◌, ◌≤◌};
ghost use Rattle.calendar.specs.Gregorian.{is_leap, month_length, month_start, months, MonthStarts};
ghost use Rattle.calendar.specs.Date.{is_date, reckoned, last_day, sunday};

use crate::starts::MONTH_STARTS;
pub use crate::starts::MONTHS;

pub const FIRST_YEAR: usize = 2000;

const LAST_YEAR: usize = 2049;

pub fn is_leap(year: usize) -> bool
    ensures { result ≡ is_leap year }
{
    year % 4 == 0 && year % 100 != 0 || year % 400 == 0
}

#[tactic(auto, unfolding(crate::specs::Gregorian::month_length))]
pub fn month_length(year: usize, month: usize) -> usize
    ensures { result ≡ month_length year month }
{
    match month {
        2 if is_leap(year) => 29,
        2 => 28,
        4 | 6 | 9 | 11 => 30,
        _ => 31,
    }
}

// The first days of all months. Compiled code lays the table on the stack, so whoever looks up many
// days holds it once and hands it on.
pub fn month_starts() -> [u16; MONTHS]
    ensures { MonthStarts result }
{
    MONTH_STARTS
}

fn start_in(starts: &[u16; MONTHS], month: usize) -> usize
    requires { MonthStarts starts.now × (month < months) }
    ensures { result ≡ month_start month }
{
    usize::from(starts[month])
}

// The first day of a month; months are counted from January 2000.
pub fn month_start(month: usize) -> usize
    requires { month < months }
    ensures { result ≡ month_start month }
{
    let starts = month_starts();
    start_in(&starts, month)
}

fn is_date(year: usize, month: usize, day: usize) -> bool
    ensures { result ≡ is_date (record { year = year; month = month; day = day }) }
{
    (FIRST_YEAR..=LAST_YEAR).contains(&year)
        && (1..=12).contains(&month)
        && (1..=month_length(year, month)).contains(&day)
}

// The day of a number that stands for a date, if it is one: tested and reckoned in one go.
pub fn reckon(starts: &[u16; MONTHS], date: u32) -> Option<u16>
    requires { MonthStarts starts.now }
    ensures { result ≡ reckoned date }
{
    let n = date as usize;
    let year = n / 10000;
    let month = n / 100 % 100;
    let day = n % 100;
    if !is_date(year, month, day) {
        return None;
    }
    let first = start_in(starts, (year - FIRST_YEAR) * 12 + (month - 1));
    Some((first + (day - 1)) as u16)
}

// The Sunday of a day's week.
pub fn sunday(day: usize) -> usize
    requires { day ≤ last_day }
    ensures { result ≡ sunday day }
{
    (day + 5) / 7 * 7 + 1
}
