// The commands that lay buffers out, poke them or check them.
use replay_commands::answer::reply;
use replay_commands::{Command, Reply};
use watch::{Answer, Form};

// The number that the vectors have for an answer of a layout call: 0, or its refusal's.
fn laid(answer: Answer) -> usize {
    answer.map_or_else(usize::from, |_| 0)
}

// Zeroed buffers, and the two layout calls.
pub fn fresh(store: &mut [u8], image: &mut [u8], desk: &mut [u8], n: usize, b: usize) -> Reply {
    store.fill(0);
    image.fill(0);
    desk.fill(0);
    let of_store = laid(watch::lay_out_store(store, n, b));
    Reply::Laid(of_store, laid(watch::lay_out_desk(desk, n)))
}

fn poke(buffer: &mut [u8], offset: usize, byte: usize) -> Reply {
    let (Some(place), Ok(byte)) = (buffer.get_mut(offset), u8::try_from(byte)) else {
        return Reply::Error;
    };
    *place = byte;
    Reply::Plain
}

fn check(form: Form, bytes: &[u8]) -> Reply {
    if watch::check(form, bytes) {
        Reply::Yes
    } else {
        Reply::No
    }
}

// The commands on one buffer.
pub fn run(command: Command, store: &mut [u8], image: &mut [u8], desk: &mut [u8]) -> Reply {
    match command {
        Command::PokeStore(o, x) => poke(store, o, x),
        Command::PokeImage(o, x) => poke(image, o, x),
        Command::PokeDesk(o, x) => poke(desk, o, x),
        Command::LayStore(n, b) => reply(watch::lay_out_store(store, n, b)),
        Command::LayDesk(n) => reply(watch::lay_out_desk(desk, n)),
        Command::CheckStore => check(Form::Store, store),
        Command::CheckImage => check(Form::Image, image),
        _ => Reply::Error,
    }
}
