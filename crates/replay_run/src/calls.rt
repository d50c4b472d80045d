// The calls: each answers what the library's does.
use replay_commands::{Call, Reply};
use text::pieces::front;
use watch::{Answer, Kind};

// The page is the out-buffer; a read that wants more than it holds is no command.
pub fn read(store: &[u8], inode: usize, offset: usize, length: usize, page: &mut [u8]) -> Reply {
    let Some(page) = page.get_mut(..length) else {
        return Reply::Error;
    };
    match watch::read(store, inode, offset, page) {
        Ok(n) => Reply::Shown(n, length),
        Err(e) => Reply::Refused(usize::from(e)),
    }
}

pub fn state(store: &[u8], image: &[u8], desk: &[u8]) -> Reply {
    match watch::state(store, image, desk) {
        Ok(s) => Reply::Asked(s.state as usize, s.locked as usize, s.steps as usize),
        Err(e) => Reply::Refused(usize::from(e)),
    }
}

// A call has the counts of its names or bytes, as the definition `parse_command` says of it; they stand at the front of name and other.
pub fn call(
    call: Call,
    store: &mut [u8],
    image: &mut [u8],
    desk: &mut [u8],
    name: &[u8],
    other: &[u8],
) -> Answer {
    match call {
        Call::LookUp(d, n) => watch::look_up(store, d, front(name, n)),
        Call::CreateFile(d, n) => watch::create(store, image, desk, d, front(name, n), Kind::File),
        Call::CreateDirectory(d, n) => {
            watch::create(store, image, desk, d, front(name, n), Kind::Directory)
        }
        Call::Write(i, o, n) => watch::write(store, image, desk, i, o, front(name, n)),
        Call::Shorten(i, k) => watch::shorten(store, image, desk, i, k),
        Call::Link(d, n, i) => watch::link(store, image, desk, d, front(name, n), i),
        Call::Unlink(d, n) => watch::unlink(store, image, desk, d, front(name, n)),
        Call::Rename(d, n, t, m) => {
            watch::rename(store, image, desk, d, front(name, n), t, front(other, m))
        }
        Call::RenameNew(d, n, t, m) => {
            watch::rename_new(store, image, desk, d, front(name, n), t, front(other, m))
        }
    }
}
