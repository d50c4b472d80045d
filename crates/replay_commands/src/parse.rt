// What a command line asks for: the first of the forms that it fits, with what its fields are worth.
ghost use Rattle.std.specs.Prelude.{◌≡◌};
ghost use Rattle.replay_commands.specs.Command.{command_in, value_at, worth, fits, form_of, bytes_at, asked, parsed, parse_command};

use crate::{Call, Command};
use text::hex::{hex_count, take_hex};
use text::numbers::number;
use text::pieces::{front, is_word, piece, pieces};

const NEWLINE: u8 = 10;

const SPACE: u8 = 32;

// The part of a line before ` => `, or all of it.
pub fn command(s: &[u8]) -> &[u8]
    ensures { result.now ≡ command_in s.now }
{
    match (0..s.len()).find(|&k| is_word(front(&s[k..], 4), b" => ")) {
        Some(k) => &s[..k],
        None => s,
    }
}

// What field k of the command is worth if it is to be that of the form; a and b are the rooms for bytes.
fn value_at(form: &[u8], cmd: &[u8], a: usize, b: usize, k: usize) -> Option<usize>
    ensures { result ≡ value_at form.now cmd.now a b k }
{
    let p = piece(form, SPACE, k);
    let s = piece(cmd, SPACE, k);
    if is_word(p, b"#") {
        return number(s);
    }
    if is_word(p, b"*") {
        return hex_count(s, a);
    }
    if is_word(p, b"+") {
        return hex_count(s, b);
    }
    is_word(s, p).then_some(0)
}

fn worth(form: &[u8], cmd: &[u8], a: usize, b: usize, k: usize) -> usize
    ensures { result ≡ worth form.now cmd.now a b k }
{
    value_at(form, cmd, a, b, k).unwrap_or(0)
}

// As many fields, each worth something.
fn fits(form: &[u8], cmd: &[u8], a: usize, b: usize) -> bool
    ensures { result ≡ fits form.now cmd.now a b }
{
    let n = pieces(form, SPACE);
    pieces(cmd, SPACE) == n && (0..n).all(|k| value_at(form, cmd, a, b, k).is_some())
}

fn form_of(forms: &[u8], cmd: &[u8], a: usize, b: usize) -> Option<usize>
    ensures { result ≡ form_of forms.now cmd.now a b }
{
    (0..pieces(forms, NEWLINE)).find(|&j| fits(piece(forms, NEWLINE, j), cmd, a, b))
}

// The command's field that is to be p; empty if there is none.
fn bytes_at<'a, 'b>(form: &'b [u8], p: &'b [u8], cmd: &'a [u8]) -> &'a [u8]
    ensures { result.now ≡ bytes_at form.now p.now cmd.now }
{
    match (0..pieces(form, SPACE)).find(|&k| is_word(piece(form, SPACE, k), p)) {
        Some(k) => piece(cmd, SPACE, k),
        None => &[],
    }
}

// What form j asks for, by what its fields 1 to 4 are worth.
fn asked(j: usize, a: usize, b: usize, c: usize, d: usize) -> Command
    ensures { result ≡ asked j a b c d }
{
    match j {
        0 => Command::New(a, b, c),
        1 => Command::PokeStore(b, c),
        2 => Command::PokeImage(b, c),
        3 => Command::PokeDesk(b, c),
        4 => Command::LayStore(b, c),
        5 => Command::LayDesk(b),
        6 => Command::CheckStore,
        7 => Command::CheckImage,
        8 => Command::File(Call::LookUp(a, b)),
        9 => Command::File(Call::CreateFile(a, b)),
        10 => Command::File(Call::CreateDirectory(a, b)),
        11 => Command::Read(a, b, c),
        12 => Command::File(Call::Write(a, b, c)),
        13 => Command::File(Call::Shorten(a, b)),
        14 => Command::File(Call::Link(a, b, c)),
        15 => Command::File(Call::Unlink(a, b)),
        16 => Command::File(Call::Rename(a, b, c, d)),
        17 => Command::File(Call::RenameNew(a, b, c, d)),
        18 => Command::Start,
        19 => Command::Step,
        20 => Command::Burst(a),
        21 => Command::Ask,
        _ => Command::Bad,
    }
}

// The command of a line, `Bad` if it is none. A name goes to the front of name, a rename's second one to the front of other.
pub fn parse(cmd: &[u8], name: &mut [u8], other: &mut [u8]) -> Command
    ensures { parsed result name.new other.new
        ≡ parse_command cmd.now name.old other.old }
{
    let forms: &[u8] =
        b"new # # #\npoke store # #\npoke image # #\npoke desk # #\nlay store # #\nlay desk #\nchk store\nchk image\nlk # *\nmk # * f\nmk # * d\nrd # # #\nwr # # *\nsh # #\nln # * #\nrm # *\nmv # * # +\nmvo # * # +\ngo\nst\nbu #\nask";
    let a = name.len();
    let b = other.len();
    let Some(j) = form_of(forms, cmd, a, b) else {
        return Command::Bad;
    };
    let form = piece(forms, NEWLINE, j);
    take_hex(bytes_at(form, b"*", cmd), name);
    take_hex(bytes_at(form, b"+", cmd), other);
    let x = worth(form, cmd, a, b, 1);
    let y = worth(form, cmd, a, b, 2);
    let z = worth(form, cmd, a, b, 3);
    asked(j, x, y, z, worth(form, cmd, a, b, 4))
}
