// A line `deal FLAGS STEPS LAST`, and what it is answered: `ok`, the sixteen counts and the bay, or `no`
// and the refusal's number; `err` for any other line.
ghost use Rattle.std.specs.Prelude.{◌≤◌};

use crate::flags::flags_in;
use dealer::{BAYS, Turn, deal};
use replay_commands::parse::command;
use text::fields::{field, number_at};
use text::pieces::{is_word, pieces};
use text::print::{print_error, print_line};
use text::put::{put, put_numbered};

const SPACE: u8 = 32;

// `ok`, seventeen numbers after a space each, and a newline; a number has up to twenty digits.
const ROOM: usize = 360;

fn put_counts(out: &mut [u8; ROOM], counts: [u8; BAYS]) -> usize
    ensures { result ≤ 338 }
{
    let mut e = put(&mut *out, 0, b"ok");
    for &count in &counts {
        e = put_numbered(&mut *out, e, b" ", usize::from(count));
    }
    e
}

fn put_answer(out: &mut [u8; ROOM], turn: Turn) -> usize
    ensures { result ≤ 359 }
{
    let answer = turn.answer;
    match answer {
        Ok(bay) => {
            let counts = turn.counts;
            let e = put_counts(&mut *out, counts);
            put_numbered(out, e, b" ", bay)
        }
        Err(why) => put_numbered(out, 0, b"no ", usize::from(why)),
    }
}

// The turn that a command asks for; none if it is no command.
fn dealt(cmd: &[u8]) -> Option<Turn> {
    if pieces(cmd, SPACE) != 4 || !is_word(field(cmd, 0), b"deal") {
        return None;
    }
    let running = flags_in(field(cmd, 1))?;
    Some(deal(running, number_at(cmd, 2)?, number_at(cmd, 3)?))
}

// What stands from ` => ` on in a line is not looked at.
pub fn line(s: &[u8]) {
    let Some(turn) = dealt(command(s)) else {
        return print_error();
    };
    let mut out = [0u8; ROOM];
    let e = put_answer(&mut out, turn);
    print_line(&mut out, e);
}
