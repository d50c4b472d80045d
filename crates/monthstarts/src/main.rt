// Prints the first day of each month from January 2000 on, one a line, as the Gregorian rule gives it:
// the numbers of the calendar's table.
#![tactic(auto)]

ghost use Rattle.std.specs.Prelude.{◌≤◌};

use calendar::{FIRST_YEAR, MONTHS, month_length, month_start};

const STDOUT_FILENO: i32 = 1;

fn print_line(day: usize) {
    io::print_decimal(STDOUT_FILENO, day as u64);
    io::write_all(STDOUT_FILENO, b"\n");
}

// Each month begins as many days after the one before it as that one has; where the table has the month,
// it has that day. A thousand years at most.
fn print_starts(count: usize)
    requires { count ≤ 12000 }
{
    let mut day: usize = 0;
    for k in 0..count {
        if k < MONTHS {
            check::expect(day == month_start(k));
        }
        print_line(day);
        day += month_length(FIRST_YEAR + k / 12, k % 12 + 1);
    }
}

// As many as the table has; a larger number prints the numbers of a longer one.
fn main() {
    print_starts(MONTHS);
}
