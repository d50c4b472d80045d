// Lines run on the three buffers, and their answers printed.
ghost use Rattle.replay.specs.Fit.{Inside};

use crate::lengths::{Lengths, Plan, planned};
use checksum::checksum;
use input::{Line, each_line};
use replay_commands::answer::put_line;
use replay_commands::parse::{command, parse};
use replay_commands::{Command, Reply, Sums};
use replay_run::run;
use std::io::Stdin;
use text::pieces::front;

const STDOUT_FILENO: i32 = 1;

// What an out-buffer holds before a read.
const FILLER: u8 = 170;

fn sums(store: &[u8], image: &[u8], desk: &[u8]) -> Sums {
    Sums {
        store: checksum(store),
        image: checksum(image),
        desk: checksum(desk),
    }
}

// The longest line shows a whole page.
fn print(reply: Reply, page: &[u8; 4096], sums: Sums) {
    let mut out = [0u8; 8311];
    let n = put_line(&mut out, 0, reply, page, sums);
    io::write_all(STDOUT_FILENO, front(&out, n));
}

// The command done, and its answer printed at once.
fn respond(
    command: Command,
    store: &mut [u8],
    image: &mut [u8],
    desk: &mut [u8],
    name: &[u8],
    other: &[u8],
) {
    let mut page = [FILLER; 4096];
    let reply = run(
        command,
        &mut *store,
        &mut *image,
        &mut *desk,
        &mut page,
        name,
        other,
    );
    print(reply, &page, sums(store, image, desk));
}

// The program's arrays, and how many bytes of them are store, image and desk.
#[derive(Drop)]
pub struct Session<'a> {
    store: &'a mut [u8],
    image: &'a mut [u8],
    desk: &'a mut [u8],
    lengths: Lengths,
    ghost inside: { Inside lengths store.now image.now desk.now },
}

impl<'a> Session<'a> {
    pub fn new(store: &'a mut [u8], image: &'a mut [u8], desk: &'a mut [u8]) -> Session<'a> {
        let lengths = Lengths {
            store: 0,
            image: 0,
            desk: 0,
        };
        Session {
            store,
            image,
            desk,
            lengths,
        }
    }

    // A name's buffers hold half the longest line: two digits of it are a byte.
    fn answer(&mut self, line: &[u8]) {
        let mut name = [0u8; 32768];
        let mut other = [0u8; 32768];
        let asked = parse(command(line), &mut name, &mut other);
        let room = Lengths {
            store: self.store.len(),
            image: self.image.len(),
            desk: self.desk.len(),
        };
        let Plan { command, lengths } = planned(asked, self.lengths, room);
        self.lengths = lengths;
        respond(
            command,
            &mut self.store[..lengths.store],
            &mut self.image[..lengths.image],
            &mut self.desk[..lengths.desk],
            &name,
            &other,
        );
    }

    // The whole input, line by line.
    pub fn replay(&mut self, stdin: &mut Stdin) {
        each_line(stdin, |line: &Line| self.answer(line.text()));
    }
}
