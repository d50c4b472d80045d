// What a line asks for: the first of the forms that it fits, and its fields.
ghost use Rattle.std.specs.Prelude.{◌≡◌};
ghost use Rattle.script_lines.specs.Ask.{field, text_from, short_number, is_value, num, field_fits, end_fits, fits, form_in};

use text::numbers::number;
use text::pieces::{is_word, piece, pieces, rest};

const SPACE: u8 = 32;

const MOST_DIGITS: usize = 5;

// The field of a form that is text, where it has one.
const TEXT_FIELD: usize = 3;

#[derive(Clone, Copy, PartialEq, Eq, Debug)]
pub enum Form {
    CreateFile,
    CreateDirectory,
    Write,
    Shorten,
    Link,
    Unlink,
    Rename,
    Start,
    Step,
}

// All forms, in the order in which a line is held against them.
const FORMS: [Form; 9] = [
    Form::CreateFile,
    Form::CreateDirectory,
    Form::Write,
    Form::Shorten,
    Form::Link,
    Form::Unlink,
    Form::Rename,
    Form::Start,
    Form::Step,
];

impl Form {
    ghost use Rattle.script_lines.specs.Ask.{form_text};
    ghost use Rattle.text.specs.Letters.{letters};

    // The form's words, parted by spaces: `#` is a number, `*` a name, `~` text; any other is itself.
    fn text(self) -> &'static [u8]
        ensures { result.now ≡ letters (form_text self) }
    {
        match self {
            Form::CreateFile => b"mk # * f",
            Form::CreateDirectory => b"mk # * d",
            Form::Write => b"wr # # ~",
            Form::Shorten => b"sh # #",
            Form::Link => b"ln # * #",
            Form::Unlink => b"rm # *",
            Form::Rename => b"mv # * # *",
            Form::Start => b"go",
            Form::Step => b"st #",
        }
    }
}

pub fn field(line: &[u8], k: usize) -> &[u8]
    ensures { result.now ≡ field line.now k }
{
    piece(line, SPACE, k)
}

pub fn text_from(line: &[u8], k: usize) -> &[u8]
    ensures { result.now ≡ text_from line.now k }
{
    rest(line, SPACE, k)
}

fn short_number(s: &[u8]) -> Option<usize>
    ensures { result ≡ short_number s.now }
{
    if MOST_DIGITS < s.len() {
        return None;
    }
    number(s)
}

fn is_number(s: &[u8]) -> bool
    ensures { result ≡ is_value (short_number s.now) }
{
    short_number(s).is_some()
}

// The number that field k is; 0, as the definition `num` has it, where it is none, which no form asks for.
pub fn num(line: &[u8], k: usize) -> usize
    ensures { result ≡ num line.now k }
{
    short_number(field(line, k)).unwrap_or(0)
}

// Field k is what the form has there, p.
fn field_fits(p: &[u8], line: &[u8], k: usize) -> bool
    ensures { result ≡ field_fits p.now line.now k }
{
    let s = field(line, k);
    if is_word(p, b"#") {
        return is_number(s);
    }
    if is_word(p, b"*") {
        return 0 < s.len();
    }
    if is_word(p, b"~") {
        return 0 < text_from(line, k).len();
    }
    is_word(s, p)
}

// No field more than the form has, save in text.
fn end_fits(form: &[u8], line: &[u8]) -> bool
    ensures { result ≡ end_fits form.now line.now }
{
    is_word(piece(form, SPACE, TEXT_FIELD), b"~") || pieces(line, SPACE) == pieces(form, SPACE)
}

fn fits(form: &[u8], line: &[u8]) -> bool
    ensures { result ≡ fits form.now line.now }
{
    end_fits(form, line)
        && (0..pieces(form, SPACE)).all(|k| field_fits(piece(form, SPACE, k), line, k))
}

// The first form that the line fits.
pub fn form_of(line: &[u8]) -> Option<Form>
    ensures { result ≡ form_in line.now }
{
    FORMS.iter().find(|f| fits(f.text(), line)).copied()
}
