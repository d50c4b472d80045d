// Standard input, line by line.
#![tactic(auto)]

ghost use Rattle.std.specs.Prelude.{◌≤◌, length};
ghost use Rattle.std.specs.Option.{unwrap_or};

use std::io::{Read, Stdin};

const NEWLINE: u8 = 10;

const ROOM: usize = 65536;

// What came of a line: how many bytes, none if there was no room for all, and these bytes.
#[derive(Drop)]
pub struct Line {
    length: Option<usize>,
    bytes: [u8; ROOM],
    ghost within: { unwrap_or length 0 ≤ 65536 },
}

impl Line {
    fn new() -> Line {
        Line {
            length: Some(0),
            bytes: [0u8; ROOM],
        }
    }

    fn clear(&mut self) {
        self.length = Some(0);
    }

    fn is_empty(&self) -> bool {
        self.length == Some(0)
    }

    // One byte more; what there is no room for is left out.
    fn push(&mut self, b: u8) {
        match self.length {
            Some(n) if n < ROOM => {
                self.bytes[n] = b;
                self.length = Some(n + 1);
            }
            _ => self.length = None,
        }
    }

    // What is looked at: nothing of a line that there was no room for.
    pub fn text(&self) -> &[u8]
        ensures { length result.now ≤ 65536 }
    {
        let n = self.length.unwrap_or(0);
        &self.bytes[..n]
    }
}

// Each line goes to `answer` as soon as it is there, without its newline; one that there was no room
// for as an empty one. Nothing after the last newline is no line. A read that fails counts as the
// end. Nothing says that an input ends, so the reads are counted up to a number that no run reaches.
pub fn each_line<F: FnMut(&Line)>(stdin: &mut Stdin, mut answer: F)
    requires { F.IsAlwaysCallable answer }
{
    let mut piece = [0u8; ROOM];
    let mut line = Line::new();
    for _ in 0..u64::MAX {
        let n = stdin.read(&mut piece).unwrap_or(0);
        if n == 0 {
            break;
        }
        for &b in &piece[..n] {
            if b == NEWLINE {
                answer(&line);
                line.clear();
            } else {
                line.push(b);
            }
        }
    }
    if !line.is_empty() {
        answer(&line);
    }
}
