// The calls of the copier: start, which opens a copy with a fresh image and a desk without notes, and step. Any bytes may be lent; a
// refused call changes nothing, save that 16 writes the desk.
#![tactic(auto)]

pub mod five;

ghost use Rattle.std.specs.Prelude.{◌≡◌, true, List, ℕ, ◌≤◌, length};
ghost use Rattle.bounded.specs.Search.{pick};
ghost use Rattle.layout.specs.Sizes.{most_inodes, most_image_blocks};
ghost use Rattle.desk.specs.Sizes.{desk_length};
ghost use Rattle.desk.specs.Desk.{desk_of};
ghost use Rattle.sound.specs.Sound.{inodes_in};
ghost use Rattle.answers.specs.declared.Refusal.TheVariants.{WrongState};
ghost use Rattle.checkpoint.specs.Fit.{image_blocks, image_allowed, is_running};
ghost use Rattle.checkpoint.specs.Copier.{start_image, start_desk, step_of};
ghost use Rattle.checkpoint.specs.Live.{left, started, start, refuse, do_step, step, world};
ghost use Rattle.checkpoint.specs.List.{Ready};

use answers::{Answer, Refusal};
use desk::Desk;
use guards::Watched;
use image::fit;
use layout::header::Header;
use layout::sizes::{NOT_COMPLETE, ROOT};

// ---- start
// The header of an empty image of n inodes and b blocks, and zeros.
fn start_image(m: &mut [u8], n: usize, b: usize)
    requires { (n ≤ most_inodes) × (image_allowed n (length m.old) ≡ true) × (b ≡ image_blocks n (length m.old)) }
    ensures { m.new ≡ start_image n (length m.old) }
{
    m.fill(0);
    let fresh = Header {
        inodes: n as u16,
        blocks: b as u16,
        free_inodes: 0,
        free_blocks: 0,
        complete: NOT_COMPLETE,
        root: ROOT as u16,
    };
    fresh.write(&mut *m);
}

// No inode copied, no entry marked, no steps; the copy runs.
fn start_desk(d: &mut [u8], h: Desk, n: usize, b: usize)
    requires { (h ≡ desk_of d.old) × (desk_length n ≤ length d.old) × (b ≤ most_image_blocks) }
    ensures { d.new ≡ start_desk d.old n b }
{
    desk::clear_notes(&mut *d, n);
    h.start(b as u16).write(&mut *d);
}

// Refuses with 15, or starts the copy: of the store only its count of inodes plays a part.
fn begin(w: Watched, m: &mut [u8], d: &mut [u8]) -> Answer
    requires { (w.desk ≡ desk_of d.old) × (w.inodes ≤ most_inodes) × (image_allowed w.inodes (length m.old) ≡ true) × (desk_length w.inodes ≤ length d.old) }
    ensures { (s : List ℕ) → w.inodes ≡ inodes_in s → left result s m.new d.new ≡ started s m.old d.old }
{
    if w.desk.runs() {
        return Err(Refusal::WrongState);
    }
    let b = fit::image_blocks(w.inodes, m.len());
    start_image(&mut *m, w.inodes, b);
    start_desk(&mut *d, w.desk, w.inodes, b);
    Ok(0)
}

pub fn start(store: &[u8], image: &mut [u8], desk: &mut [u8]) -> Answer
    ensures { left result store.now image.new desk.new
        ≡ start store.now image.old desk.old }
{
    let w = guards::start_guards(store, &*image, &*desk)?;
    begin(w, &mut *image, &mut *desk)
}

// ---- step
// 15, or the step itself.
fn go_on(s: &[u8], m: &mut [u8], d: &mut [u8], w: Watched) -> Answer
    requires { (w.desk ≡ desk_of d.old) × Ready (world s.now m.old d.old) × (w.inodes ≡ inodes_in s.now) }
    ensures { left result s.now m.new d.new
        ≡ pick (is_running d.old) (do_step s.now m.old d.old w.inodes (step_of s.now m.old d.old w.inodes)) (refuse WrongState s.now m.old d.old) }
{
    if !w.desk.runs() {
        return Err(Refusal::WrongState);
    }
    five::advance(s, &mut *m, &mut *d, w.desk, w.inodes)
}

pub fn step(store: &[u8], image: &mut [u8], desk: &mut [u8]) -> Answer
    ensures { left result store.now image.new desk.new
        ≡ step store.now image.old desk.old }
{
    let w = guards::three_guards(store, &*image, &*desk)?;
    go_on(store, &mut *image, &mut *desk, w)
}
