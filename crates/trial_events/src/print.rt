// A list as lines of `replay`.
use crate::event::{Entry, Event, List, OUT_BYTES, spell};

const STDOUT_FILENO: i32 = 1;

pub fn word(text: &[u8]) {
    io::write_all(STDOUT_FILENO, text);
}

pub fn number(n: usize) {
    word(b" ");
    io::print_decimal(STDOUT_FILENO, n as u64);
}

// So many bytes in hex, all alike.
fn bytes(k: usize, fill: u64) {
    word(b" ");
    if k == 0 {
        word(b"-");
    }
    for _ in 0..k {
        io::print_hex(STDOUT_FILENO, fill, 2);
    }
}

// A directory, and a name in hex.
fn entry(e: Entry) {
    let mut text = [0u8; 2];
    let n = spell(e.name, &mut text);
    number(e.dir);
    word(b" ");
    for x in &text[..n] {
        io::print_hex(STDOUT_FILENO, u64::from(*x), 2);
    }
}

fn entry_call(verb: &[u8], e: Entry) {
    word(verb);
    entry(e);
}

fn rename_call(verb: &[u8], e: Entry, to: Entry) {
    entry_call(verb, e);
    entry(to);
}

fn content_call(verb: &[u8], inode: usize, offset: usize) {
    word(verb);
    number(inode);
    number(offset);
}

fn call(e: Event, fill: u64) {
    match e {
        Event::CreateFile(e) => {
            entry_call(b"mk", e);
            word(b" f");
        }
        Event::CreateDirectory(e) => {
            entry_call(b"mk", e);
            word(b" d");
        }
        Event::Write {
            inode,
            offset,
            length,
        } => {
            content_call(b"wr", inode, offset);
            bytes(length, fill);
        }
        Event::Shorten { inode, offset } => content_call(b"sh", inode, offset),
        Event::Link(e, inode) => {
            entry_call(b"ln", e);
            number(inode);
        }
        Event::Unlink(e) => entry_call(b"rm", e),
        Event::Rename(e, to) => rename_call(b"mv", e, to),
        Event::RenameNew(e, to) => rename_call(b"mvo", e, to),
        Event::LookUp(e) => entry_call(b"lk", e),
        Event::Read { inode, offset } => {
            content_call(b"rd", inode, offset);
            number(OUT_BYTES);
        }
        Event::Start => word(b"go"),
        Event::Ask => word(b"ask"),
        Event::Step => word(b"st"),
        Event::Burst(count) => {
            word(b"bu");
            number(count);
        }
    }
    word(b"\n");
}

// The first events of a list, up to event k.
pub fn list(list: List, k: u64) {
    word(b"new");
    number(list.shape.inodes);
    number(list.shape.blocks);
    number(list.shape.image);
    word(b"\n");
    for j in 1..=k {
        call(list.nth(j), j % 251);
    }
}

// The list up to the event, after a line that `replay` has no answer to.
pub fn difference(seed: u64, l: u64, event: u64) {
    word(b"a difference in the last line of list");
    number(l as usize);
    word(b"\n");
    list(List::new(seed, l), event);
}
