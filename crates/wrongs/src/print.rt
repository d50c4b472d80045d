// What was found, in words.
use trial_compare::calls::Wrong;
use trial_events::print::{number, word};
use trial_judge::copy::Entry;
use trial_record::finished::Found;

// A finding about an inode.
fn inode(what: &[u8], i: Option<usize>) {
    if let Some(i) = i {
        word(what);
        number(i);
    }
}

// A finding about an entry.
fn entry(what: &[u8], e: Option<Entry>) {
    if let Some(e) = e {
        word(what);
        number(e.directory);
        number(e.slot);
    }
}

fn unless(right: bool, what: &[u8]) {
    if !right {
        word(what);
    }
}

// All that was found of a copy.
pub fn found(f: Found) {
    unless(f.sound, b", unsound");
    entry(b", entry missing", f.missing);
    entry(b", entry of no moment", f.entry);
    inode(b", inode of no moment", f.inode);
    inode(b", link count of", f.links);
    unless(f.free_inodes, b", free inodes");
    unless(f.free_blocks, b", free blocks");
}

// What is wrong of an event.
pub fn verdict<T: Drop>(of: Result<T, Wrong>) {
    match of {
        Ok(_) => word(b" right"),
        Err(Wrong::Answer) => word(b" wrong answer"),
        Err(Wrong::Out) => word(b" wrong out-buffer"),
        Err(Wrong::Store) => word(b" wrong store"),
        Err(Wrong::Image) => word(b" wrong image"),
        Err(Wrong::Desk) => word(b" wrong desk"),
        Err(Wrong::Refusal) => word(b" wrong refusal"),
        Err(Wrong::Start) => word(b" wrong start"),
        Err(Wrong::Steps) => word(b" wrong steps"),
        Err(Wrong::Finish) => word(b" wrong copy"),
    }
}
