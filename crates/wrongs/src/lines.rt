// The lines of the input.
use crate::cases;
use text::pieces::{is_word, piece, pieces};
use trial_events::print::word;
use trial_record::copy::{AnyCopy, AnyRecord};

const STDIN_FILENO: i32 = 0;

const NEWLINE: u8 = 10;

const COLON: u8 = 58;

// A copy under way, the store that it is of, its image and desk, and the image that it ends in.
#[derive(Clone, Copy)]
pub struct Halfway<'a> {
    pub copy: AnyCopy,
    pub store: &'a [u8],
    pub half: &'a [u8],
    pub notes: &'a [u8],
    pub whole: &'a [u8],
}

fn line(text: &[u8], at: Halfway, record: &mut AnyRecord) {
    let what = piece(text, COLON, 0);
    let how = piece(text, COLON, 2);
    word(what);
    word(b": ");
    word(piece(text, COLON, 1));
    word(b":");
    if is_word(what, b"copy") {
        cases::copy(how, at.copy, at.store, at.whole, record);
    } else if is_word(what, b"plain") {
        cases::plain(how, at.store, record);
    } else if is_word(what, b"burst") {
        cases::burst(how, at.store, at.half, at.notes);
    } else {
        cases::answer(how, at.store, at.half, record);
    }
    word(b"\n");
}

fn each_line(text: &[u8], at: Halfway, record: &mut AnyRecord) {
    for k in 0..pieces(text, NEWLINE) {
        let next = piece(text, NEWLINE, k);
        if !next.is_empty() {
            line(next, at, &mut *record);
        }
    }
}

// All lines of the input.
pub fn all(at: Halfway, record: &mut AnyRecord) {
    let mut text = io::large_buffer();
    let n = io::read_full(STDIN_FILENO, &mut text);
    each_line(&text[..n], at, record);
}
