// Matches laps: reads commands from standard input, one a line, and prints each one's report or refusal.
#![tactic(auto)]

mod parse;
mod print;

ghost use Rattle.std.specs.Prelude.{◌≤◌, length};

use input::each_line;
use laps::match_laps;
use replay_commands::parse::command;
use text::fields::take_numbers;
use text::print::{print_error, print_refusal};

fn respond(watch: &[u32], mat: &[u32])
    requires { (length watch.now ≤ 600) × (length mat.now ≤ 600) }
{
    let mut paired_watch = [0u32; 600];
    let mut paired_mat = [0u32; 600];
    let mut alone_watch = [0u32; 600];
    let mut alone_mat = [0u32; 600];
    let answer = match_laps(
        watch,
        mat,
        &mut paired_watch,
        &mut paired_mat,
        &mut alone_watch,
        &mut alone_mat,
    );
    match answer {
        Ok(p) => {
            let w = watch.len() - p;
            let m = mat.len() - p;
            print::print_report(
                &paired_watch[0..p],
                &paired_mat[0..p],
                &alone_watch[0..w],
                &alone_mat[0..m],
            );
        }
        Err(e) => print_refusal(usize::from(e)),
    }
}

// The answer that a command asks for, printed; none if it is no command.
fn answered(cmd: &[u8]) -> Option<()> {
    let (w, m) = parse::counts(cmd)?;
    let mut watch = [0u32; 600];
    let mut mat = [0u32; 600];
    take_numbers(cmd, 3, &mut watch[..w])?;
    take_numbers(cmd, 3 + w, &mut mat[..m])?;
    respond(&watch[..w], &mat[..m]);
    Some(())
}

fn answer(line: &[u8]) {
    if answered(command(line)).is_none() {
        print_error();
    }
}

fn main(rt: HostRuntime) {
    each_line(&mut rt.stdin(), |line| answer(line.text()));
}
