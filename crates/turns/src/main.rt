// Deals turns by lines of text: reads commands from standard input, one a line, and prints for each what
// the dealer answers.
#![tactic(auto)]

mod answer;
mod flags;

use text::pieces::{piece, pieces};

const STDIN_FILENO: i32 = 0;

const NEWLINE: u8 = 10;

// Nothing after the last newline is no line.
fn all_lines(text: &[u8]) {
    let n = pieces(text, NEWLINE);
    for k in 0..n {
        let line = piece(text, NEWLINE, k);
        if line.len() != 0 || k + 1 < n {
            answer::line(line);
        }
    }
}

// Only the first 65,536 bytes are read.
fn main() {
    let mut text = io::large_buffer();
    let n = io::read_full(STDIN_FILENO, &mut text);
    all_lines(&text[..n]);
}
