// An answer as one number with a sign.
ghost use Rattle.std.specs.Prelude.{◌≡◌, ◌≤◌, pos, []};
ghost use Rattle.answers.specs.Refusal.{refusal_number};
ghost use Rattle.answers.specs.Told.{told};
ghost use Rattle.api.specs.Api.{most_result, code_by, code_of, Fits};

use answers::{Answer, Refusal};

fn result(n: usize) -> i32
    requires { n ≤ most_result }
    ensures { result ≡ pos n }
{
    n as i32
}

// Minus the refusal's number.
pub fn refused(e: Refusal) -> i32
    ensures { result ≡ code_by (refusal_number e) [] }
{
    let n = usize::from(e) as i32;
    0 - n
}

pub fn code(a: Answer) -> i32
    requires { Fits (told a) }
    ensures { result ≡ code_of (told a) }
{
    match a {
        Ok(n) => result(n),
        Err(e) => refused(e),
    }
}
