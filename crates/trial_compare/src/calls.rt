// An event done by the library, and by the plain store.
use answers::Answer;
use entries::Kind;
use files::plain;
use replay_commands::{Call, Command, Reply};
use text::pieces::front;
use trial_events::event::{Event, OUT_BYTES};

// The value, of a state question the steps; or a refusal by its number, which is all that a reply has of it.
pub type Got = Result<usize, usize>;

// What is wrong of an event: which of these differs from what is done beside the library; or a
// refusal out of its time, a start during a copy, a count of steps, a finished copy.
#[derive(Clone, Copy)]
pub enum Wrong {
    Answer,
    Out,
    Store,
    Image,
    Desk,
    Refusal,
    Start,
    Steps,
    Finish,
}

pub fn wrong_unless(right: bool, wrong: Wrong) -> Result<(), Wrong> {
    if right { Ok(()) } else { Err(wrong) }
}

pub fn told(a: Answer) -> Got {
    a.map_err(usize::from)
}

// No event has another reply.
pub fn replied(r: Reply) -> Got {
    match r {
        Reply::Done(n) => Ok(n),
        Reply::Shown(n, _) => Ok(n),
        Reply::Asked(_, _, steps) => Ok(steps),
        Reply::Refused(number) => Err(number),
        _ => Ok(0),
    }
}

// The command of an event; the names have f and g bytes, and a write writes f.
pub fn command(e: Event, f: usize, g: usize) -> Command {
    match e {
        Event::CreateFile(at) => Command::File(Call::CreateFile(at.dir, f)),
        Event::CreateDirectory(at) => Command::File(Call::CreateDirectory(at.dir, f)),
        Event::Write { inode, offset, .. } => Command::File(Call::Write(inode, offset, f)),
        Event::Shorten { inode, offset } => Command::File(Call::Shorten(inode, offset)),
        Event::Link(at, inode) => Command::File(Call::Link(at.dir, f, inode)),
        Event::Unlink(at) => Command::File(Call::Unlink(at.dir, f)),
        Event::Rename(at, to) => Command::File(Call::Rename(at.dir, f, to.dir, g)),
        Event::RenameNew(at, to) => Command::File(Call::RenameNew(at.dir, f, to.dir, g)),
        Event::LookUp(at) => Command::File(Call::LookUp(at.dir, f)),
        Event::Read { inode, offset } => Command::Read(inode, offset, OUT_BYTES),
        Event::Start => Command::Start,
        Event::Ask => Command::Ask,
        Event::Step => Command::Step,
        Event::Burst(count) => Command::Burst(count),
    }
}

// The plain store's file calls but a read; names or bytes stand at the front of name and other.
pub fn plainly(call: Call, store: &mut [u8], name: &[u8], other: &[u8]) -> Answer {
    match call {
        Call::LookUp(d, n) => plain::look_up(store, d, front(name, n)),
        Call::CreateFile(d, n) => plain::create(store, d, front(name, n), Kind::File),
        Call::CreateDirectory(d, n) => plain::create(store, d, front(name, n), Kind::Directory),
        Call::Write(i, o, n) => plain::write(store, i, o, front(name, n)),
        Call::Shorten(i, k) => plain::shorten(store, i, k),
        Call::Link(d, n, i) => plain::link(store, d, front(name, n), i),
        Call::Unlink(d, n) => plain::unlink(store, d, front(name, n)),
        Call::Rename(d, n, t, m) => plain::rename(store, d, front(name, n), t, front(other, m)),
        Call::RenameNew(d, n, t, m) => {
            plain::rename_new(store, d, front(name, n), t, front(other, m))
        }
    }
}
