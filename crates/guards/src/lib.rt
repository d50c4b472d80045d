// Refusals 1, 2 and 3, which come before all others of a call over store, image and desk, and the state question, which has no others.
#![tactic(auto)]

mod fit;

ghost use Rattle.std.specs.Prelude.{◌≡◌, true};
ghost use Rattle.desk.specs.Desk.{desk_of};
ghost use Rattle.files.specs.Guard.{guard_by};
ghost use Rattle.checkpoint.specs.Fit.{both_framed};
ghost use Rattle.checkpoint.specs.Live.{guard_rows, three_guards, start_guards, status, told_status};
ghost use Rattle.guards.specs.Handed.{handed};

use answers::Refusal;
use checkpoint::Status;
use desk::Desk;
use image::fit::image_allowed;
use layout::header::Header;
use sound::Form;

// What the guards hand to the call behind them: the store's counts of inodes and blocks, and the desk's header.
#[derive(Clone, Copy)]
pub struct Watched {
    pub inodes: usize,
    pub blocks: usize,
    pub desk: Desk,
}

// What 1 asks of every call on the three buffers.
pub fn both_framed(store: &[u8], desk: &[u8]) -> bool
    ensures { result ≡ both_framed store.now desk.now }
{
    checker::framed(Form::Store, store) && fit::desk_framed(desk)
}

// 2 and 3, where 1 does not come: one check of the store, then the desk and the image of a running copy, beside the store that is sound by then.
pub fn after_lengths(store: &[u8], image: &[u8], desk: &[u8]) -> Result<Watched, Refusal>
    requires { both_framed store.now desk.now ≡ true }
    ensures { result
        ≡ handed (guard_by store.now (guard_rows true store.now image.now desk.now)) (desk_of desk.now) }
{
    let counts = Header::read(store).counts();
    if !checker::body_right(Form::Store, store, counts.inodes, counts.blocks) {
        return Err(Refusal::UnsoundStore);
    }
    if !fit::notes_fit(counts.inodes, store, image, desk) {
        return Err(Refusal::BadDesk);
    }
    Ok(Watched {
        inodes: counts.inodes,
        blocks: counts.blocks,
        desk: Desk::read(desk),
    })
}

pub fn three_guards(store: &[u8], image: &[u8], desk: &[u8]) -> Result<Watched, Refusal>
    ensures { result ≡ handed (three_guards store.now image.now desk.now) (desk_of desk.now) }
{
    if !both_framed(store, desk) {
        return Err(Refusal::BadBuffer);
    }
    after_lengths(store, image, desk)
}

// A start looks at the image's length too.
pub fn start_guards(store: &[u8], image: &[u8], desk: &[u8]) -> Result<Watched, Refusal>
    ensures { result ≡ handed (start_guards store.now image.now desk.now) (desk_of desk.now) }
{
    if !both_framed(store, desk) {
        return Err(Refusal::BadBuffer);
    }
    let h = Header::read(store);
    if !image_allowed(h.inodes as usize, image.len()) {
        return Err(Refusal::BadBuffer);
    }
    after_lengths(store, image, desk)
}

// The state question.
pub fn state(store: &[u8], image: &[u8], desk: &[u8]) -> Result<Status, Refusal>
    ensures { told_status result ≡ status store.now image.now desk.now }
{
    let h = three_guards(store, image, desk)?.desk;
    Ok(Status {
        state: h.state,
        locked: h.locked,
        steps: h.steps,
    })
}
