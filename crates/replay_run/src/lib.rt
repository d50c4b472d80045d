// What a command does to store, image and desk, and what it answers.
#![tactic(auto)]

mod buffers;
mod calls;

use replay_commands::answer::reply;
use replay_commands::{Command, Reply};

// The page is the out-buffer of a read; name and other have the names and bytes of the command at their front.
pub fn run(
    command: Command,
    store: &mut [u8],
    image: &mut [u8],
    desk: &mut [u8],
    page: &mut [u8],
    name: &[u8],
    other: &[u8],
) -> Reply {
    match command {
        Command::New(n, b, _) => buffers::fresh(store, image, desk, n, b),
        Command::Read(i, o, k) => calls::read(store, i, o, k, page),
        Command::File(c) => reply(calls::call(c, store, image, desk, name, other)),
        Command::Start => reply(watch::start(store, image, desk)),
        Command::Step => reply(watch::step(store, image, desk)),
        Command::Burst(k) => reply(watch::burst(store, image, desk, k)),
        Command::Ask => calls::state(store, image, desk),
        _ => buffers::run(command, store, image, desk),
    }
}
