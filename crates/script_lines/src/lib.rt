// The lines of a script: a reader that holds the script and a place in it, and what a line asks for. What comes from outside may be any bytes.
#![tactic(auto)]

pub mod forms;

ghost use Rattle.std.specs.Prelude.{◌≡◌};
ghost use Rattle.script_lines.specs.Lines.{line_at, next_at};

use text::pieces::find;

const NEWLINE: u8 = 10;

// A struct and thin functions over those on a slice and a number: the form that the paper names (docs/MAP.md).
#[derive(Clone, Copy)]
pub struct Reader<'a> {
    pub script: &'a [u8],
    pub at: usize,
}

// The work, on a slice and a number: the line that starts at a place, empty past the end.
pub fn line_at(script: &[u8], at: usize) -> &[u8]
    ensures { result.now ≡ line_at script.now at }
{
    let end = find(script, NEWLINE, at);
    if end < at {
        return &script[0..0];
    }
    &script[at..end]
}

// Where the line after it starts.
pub fn next_at(script: &[u8], at: usize) -> usize
    ensures { result ≡ next_at script.now at }
{
    find(script, NEWLINE, at) + 1
}

// The reader at the start of a script.
pub fn start<'a>(script: &'a [u8]) -> Reader<'a>
    ensures { (result.script ≡ script.entry) × (result.at ≡ 0) }
{
    Reader { script, at: 0 }
}

// The line at its place.
pub fn line<'a>(r: Reader<'a>) -> &'a [u8]
    ensures { result.now ≡ line_at r.entry.script.now r.entry.at }
{
    line_at(r.script, r.at)
}

// The reader moved behind that line.
pub fn after<'a>(r: Reader<'a>) -> Reader<'a>
    ensures { (result.script ≡ r.entry.script) × (result.at ≡ next_at r.entry.script.now r.entry.at) }
{
    let at = next_at(r.script, r.at);
    Reader {
        script: r.script,
        at,
    }
}
