// Lines to standard output.
ghost use Rattle.std.specs.Prelude.{◌+◌, ◌≤◌, length};

use crate::pieces::front;
use crate::put::{put, put_numbered};

const STDOUT_FILENO: i32 = 1;

// What stands in out before e, and a newline.
pub fn print_line(out: &mut [u8], e: usize)
    requires { e + 1 ≤ length out.old }
{
    let end = put(&mut *out, e, b"\n");
    io::write_all(STDOUT_FILENO, front(out, end));
}

pub fn print_refusal(number: usize) {
    let mut out = [0u8; 24];
    let e = put_numbered(&mut out, 0, b"no ", number);
    print_line(&mut out, e);
}

pub fn print_error() {
    io::write_all(STDOUT_FILENO, b"err\n");
}
