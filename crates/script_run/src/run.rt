// A line run on the three buffers.
ghost use Rattle.std.specs.Prelude.{◌≡◌, false, ◌≤◌, eqb, length};
ghost use Rattle.answers.specs.Told.{told};
ghost use Rattle.layout.specs.Sizes.{header_bytes, is_complete};
ghost use Rattle.layout.specs.Header.{header_of};
ghost use Rattle.desk.specs.Sizes.{desk_header_bytes};
ghost use Rattle.desk.specs.Desk.{desk_of};
ghost use Rattle.checkpoint.specs.Live.{world};
ghost use Rattle.script_run.specs.Reply.{ran, reply_to, stepped, line_runs, Turned};

use crate::{Reply, calls};
use answers::{Answer, Refusal};
use desk::Desk;
use entries::Kind;
use layout::header::Header;
use layout::sizes::COMPLETE;
use script_lines::forms::{Form, form_of, num};

fn is_complete(image: &[u8]) -> bool
    requires { header_bytes ≤ length image.now }
    ensures { result ≡ eqb (header_of image.now).complete is_complete }
{
    Header::read(image).complete == COMPLETE
}

// One step: whether it finished the copy, or its refusal.
fn turn(store: &[u8], image: &mut [u8], desk: &mut [u8]) -> Result<bool, Refusal>
    requires { header_bytes ≤ length image.old }
    ensures { Turned result (world store.now image.old desk.old) image.new desk.new }
{
    watch::step(store, &mut *image, &mut *desk)?;
    Ok(is_complete(&*image))
}

fn steps_so_far(desk: &[u8]) -> usize
    requires { desk_header_bytes ≤ length desk.now }
    ensures { result ≡ (desk_of desk.now).steps }
{
    Desk::read(desk).steps as usize
}

// Single steps: as many as are asked for, or up to the first refusal.
fn take_steps(store: &[u8], image: &mut [u8], desk: &mut [u8], count: usize) -> Reply
    requires { (header_bytes ≤ length image.old) × (desk_header_bytes ≤ length desk.old) }
    ensures { ran result (world store.now image.new desk.new)
        ≡ stepped count (world store.now image.old desk.old) false }
{
    let mut finished = false;
    for k in 0..count {
        match turn(store, &mut *image, &mut *desk) {
            Ok(now) => finished |= now,
            Err(e) => {
                return Reply {
                    answer: Err(usize::from(e)),
                    finished,
                };
            }
        }
    }
    Reply {
        answer: Ok(steps_so_far(&*desk)),
        finished,
    }
}

// What a call answered.
fn reply_to(answer: Answer) -> Reply
    ensures { result ≡ reply_to (told answer) }
{
    Reply {
        answer: answer.map_err(usize::from),
        finished: false,
    }
}

// What the line asks for.
pub fn run(line: &[u8], store: &mut [u8], image: &mut [u8], desk: &mut [u8]) -> Reply
    requires { (header_bytes ≤ length image.old) × (desk_header_bytes ≤ length desk.old) }
    ensures { ran result (world store.new image.new desk.new)
        ≡ line_runs line.now (world store.old image.old desk.old) }
{
    let Some(form) = form_of(line) else {
        return Reply {
            answer: Err(0),
            finished: false,
        };
    };
    match form {
        Form::CreateFile => reply_to(calls::create(Kind::File, line, store, image, desk)),
        Form::CreateDirectory => reply_to(calls::create(Kind::Directory, line, store, image, desk)),
        Form::Write => reply_to(calls::write(line, store, image, desk)),
        Form::Shorten => reply_to(calls::shorten(line, store, image, desk)),
        Form::Link => reply_to(calls::link(line, store, image, desk)),
        Form::Unlink => reply_to(calls::unlink(line, store, image, desk)),
        Form::Rename => reply_to(calls::rename(line, store, image, desk)),
        Form::Start => reply_to(watch::start(store, image, desk)),
        Form::Step => take_steps(store, image, desk, num(line, 1)),
    }
}
