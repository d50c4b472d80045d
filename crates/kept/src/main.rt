// Says which copies to keep: reads commands from standard input, one a line, and prints for each a letter
// for every copy, or the refusal.
#![tactic(auto)]

mod parse;
mod print;

ghost use Rattle.std.specs.Prelude.{◌≤◌, length};

use input::each_line;
use keeping::keep;
use replay_commands::parse::command;
use text::fields::take_numbers;
use text::print::{print_error, print_refusal};

fn respond(copies: &[u32], terms: &[u32], asked: u32)
    requires { length copies.now ≤ 300 }
{
    let mut out = [0u8; 300];
    let answer = keep(copies, terms, asked, &mut out);
    match answer {
        Ok(kept) => {
            let n = copies.len();
            print::print_kept(kept, &out[0..n]);
        }
        Err(e) => print_refusal(usize::from(e)),
    }
}

// The answer that a command asks for, printed; none if it is no command.
fn answered(cmd: &[u8]) -> Option<()> {
    let asked = parse::counts(cmd)?;
    let m = asked.term_days;
    let n = asked.copies;
    let mut copies = [0u32; 300];
    let mut terms = [0u32; 300];
    take_numbers(cmd, 3, &mut terms[..m])?;
    take_numbers(cmd, 3 + m, &mut copies[..n])?;
    respond(&copies[..n], &terms[..m], asked.day);
    Some(())
}

fn answer(line: &[u8]) {
    if answered(command(line)).is_none() {
        print_error();
    }
}

fn main(rt: HostRuntime) {
    each_line(&mut rt.stdin(), |line| answer(line.text()));
}
