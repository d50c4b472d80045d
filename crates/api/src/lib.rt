// The public calls as programs in other languages make them, which link `api_c`: numbers in the machine's
// size. A call answers 32 bits with a sign: its result, which is never negative, or minus the number of its
// refusal; the check answers a byte. Any bytes and numbers may be handed in; a refused call changes nothing,
// save that 16 writes the desk, and that 21 sets the dealer's counts to 0.
#![tactic(auto)]

mod code;
mod mask;

ghost use Rattle.std.specs.Prelude.{◌≡◌, [], ◌∷◌};
ghost use Rattle.entries.specs.declared.Kind.TheVariants.{File, Directory};
ghost use Rattle.format.specs.Format.{lay_out_store, lay_out_desk};
ghost use Rattle.files.specs.Effect.{look_up, read, create, write, shorten, link, unlink, rename, rename_new};
ghost use Rattle.files.specs.Plain as alone;
ghost use Rattle.checkpoint.specs.Live.{live, start, step, status, world, told_status};
ghost use Rattle.checkpoint.specs.Burst.{burst};
ghost use Rattle.dealer.specs.Deal.{dealt};
ghost use Rattle.laps.specs.Walk.{lists};
ghost use Rattle.laps.specs.Call.{match_laps};
ghost use Rattle.keeping.specs.Call.{keep_call};
ghost use Rattle.api.specs.Api.{sends, sent_laid, sent_alone, sent, sends_state, sent_state, mask_flags, sent_dealt, sent_laps, sent_kept, checked};

use crate::code::{code, refused};
use crate::mask::flags;
use dealer::BAYS;
use watch::{Form, Kind, check, keep, match_laps};

// ---- laying out
pub fn honecerise_lay_out_store(store: &mut [u8], inodes: usize, blocks: usize) -> i32
    ensures { sends result (store.new ∷ []) ≡ sent_laid (lay_out_store store.old inodes blocks) }
{
    code(watch::lay_out_store(store, inodes, blocks))
}

pub fn honecerise_lay_out_desk(desk: &mut [u8], inodes: usize) -> i32
    ensures { sends result (desk.new ∷ []) ≡ sent_laid (lay_out_desk desk.old inodes) }
{
    code(watch::lay_out_desk(desk, inodes))
}

// ---- the check
// Whether the bytes are a sound store (image 0) or a sound finished image (any other number): 1 for yes, 0 for no.
pub fn honecerise_check(image: u8, store: &[u8]) -> u8
    ensures { result ≡ checked image store.now }
{
    let form = if image == 0 { Form::Store } else { Form::Image };
    u8::from(check(form, store))
}

// ---- the calls on the store alone
pub fn honecerise_look_up(store: &[u8], directory: usize, name: &[u8]) -> i32
    ensures { sends result (store.now ∷ [] ∷ [])
        ≡ sent_alone (alone.plain (look_up directory name.now) store.now) }
{
    code(watch::look_up(store, directory, name))
}

pub fn honecerise_read(store: &[u8], inode: usize, offset: usize, out: &mut [u8]) -> i32
    ensures { sends result (store.now ∷ out.new ∷ [])
        ≡ sent_alone (alone.plain (read inode offset out.old) store.now) }
{
    code(watch::read(store, inode, offset, out))
}

// ---- the file calls over store, image and desk
pub fn honecerise_create_file(
    store: &mut [u8],
    image: &mut [u8],
    desk: &mut [u8],
    directory: usize,
    name: &[u8],
) -> i32
    ensures { sends result (store.new ∷ image.new ∷ desk.new ∷ [])
        ≡ sent (live (create directory name.now File) (world store.old image.old desk.old)) }
{
    code(watch::create(store, image, desk, directory, name, Kind::File))
}

pub fn honecerise_create_directory(
    store: &mut [u8],
    image: &mut [u8],
    desk: &mut [u8],
    directory: usize,
    name: &[u8],
) -> i32
    ensures { sends result (store.new ∷ image.new ∷ desk.new ∷ [])
        ≡ sent (live (create directory name.now Directory) (world store.old image.old desk.old)) }
{
    code(watch::create(store, image, desk, directory, name, Kind::Directory))
}

pub fn honecerise_write(
    store: &mut [u8],
    image: &mut [u8],
    desk: &mut [u8],
    inode: usize,
    offset: usize,
    bytes: &[u8],
) -> i32
    ensures { sends result (store.new ∷ image.new ∷ desk.new ∷ [])
        ≡ sent (live (write inode offset bytes.now) (world store.old image.old desk.old)) }
{
    code(watch::write(store, image, desk, inode, offset, bytes))
}

pub fn honecerise_shorten(
    store: &mut [u8],
    image: &mut [u8],
    desk: &mut [u8],
    inode: usize,
    size: usize,
) -> i32
    ensures { sends result (store.new ∷ image.new ∷ desk.new ∷ [])
        ≡ sent (live (shorten inode size) (world store.old image.old desk.old)) }
{
    code(watch::shorten(store, image, desk, inode, size))
}

pub fn honecerise_link(
    store: &mut [u8],
    image: &mut [u8],
    desk: &mut [u8],
    directory: usize,
    name: &[u8],
    inode: usize,
) -> i32
    ensures { sends result (store.new ∷ image.new ∷ desk.new ∷ [])
        ≡ sent (live (link directory name.now inode) (world store.old image.old desk.old)) }
{
    code(watch::link(store, image, desk, directory, name, inode))
}

pub fn honecerise_unlink(
    store: &mut [u8],
    image: &mut [u8],
    desk: &mut [u8],
    directory: usize,
    name: &[u8],
) -> i32
    ensures { sends result (store.new ∷ image.new ∷ desk.new ∷ [])
        ≡ sent (live (unlink directory name.now) (world store.old image.old desk.old)) }
{
    code(watch::unlink(store, image, desk, directory, name))
}

pub fn honecerise_rename(
    store: &mut [u8],
    image: &mut [u8],
    desk: &mut [u8],
    directory: usize,
    name: &[u8],
    to_directory: usize,
    to_name: &[u8],
) -> i32
    ensures { sends result (store.new ∷ image.new ∷ desk.new ∷ [])
        ≡ sent (live (rename directory name.now to_directory to_name.now) (world store.old image.old desk.old)) }
{
    code(watch::rename(store, image, desk, directory, name, to_directory, to_name))
}

// The lap recorder's, which keeps what has the new name.
pub fn honecerise_rename_new(
    store: &mut [u8],
    image: &mut [u8],
    desk: &mut [u8],
    directory: usize,
    name: &[u8],
    to_directory: usize,
    to_name: &[u8],
) -> i32
    ensures { sends result (store.new ∷ image.new ∷ desk.new ∷ [])
        ≡ sent (live (rename_new directory name.now to_directory to_name.now) (world store.old image.old desk.old)) }
{
    code(watch::rename_new(store, image, desk, directory, name, to_directory, to_name))
}

// ---- the copier
pub fn honecerise_start(store: &[u8], image: &mut [u8], desk: &mut [u8]) -> i32
    ensures { sends result (store.now ∷ image.new ∷ desk.new ∷ [])
        ≡ sent (start store.now image.old desk.old) }
{
    code(watch::start(store, image, desk))
}

pub fn honecerise_step(store: &[u8], image: &mut [u8], desk: &mut [u8]) -> i32
    ensures { sends result (store.now ∷ image.new ∷ desk.new ∷ [])
        ≡ sent (step store.now image.old desk.old) }
{
    code(watch::step(store, image, desk))
}

pub fn honecerise_burst(store: &[u8], image: &mut [u8], desk: &mut [u8], count: usize) -> i32
    ensures { sends result (store.now ∷ image.new ∷ desk.new ∷ [])
        ≡ sent (burst count (world store.now image.old desk.old)) }
{
    code(watch::burst(store, image, desk, count))
}

pub fn honecerise_state(
    store: &[u8],
    image: &[u8],
    desk: &[u8],
    state: &mut usize,
    locked: &mut usize,
    steps: &mut usize,
) -> i32
    ensures { sends_state result (state.new ∷ locked.new ∷ steps.new ∷ [])
        ≡ sent_state (status store.now image.now desk.now) (state.old ∷ locked.old ∷ steps.old ∷ []) }
{
    match watch::state(store, image, desk) {
        Ok(now) => {
            *state = now.state as usize;
            *locked = now.locked as usize;
            *steps = now.steps as usize;
            0
        }
        Err(why) => refused(why),
    }
}

// ---- the charging case
// Bit b of running says that bay b runs; the counts are written in every case.
pub fn honecerise_deal(running: u16, steps: usize, last: usize, counts: &mut [u8; BAYS]) -> i32
    ensures { sends result (counts.new ∷ []) ≡ sent_dealt (dealt (mask_flags running) steps last) }
{
    let turn = watch::deal(flags(running), steps, last);
    let given = turn.counts;
    *counts = given;
    let answer = turn.answer;
    code(answer)
}

// ---- laps against the mat
pub fn honecerise_match_laps(
    watch: &[u32],
    mat: &[u32],
    paired_watch: &mut [u32],
    paired_mat: &mut [u32],
    alone_watch: &mut [u32],
    alone_mat: &mut [u32],
) -> i32
    ensures { sends result (paired_watch.new ∷ paired_mat.new ∷ alone_watch.new ∷ alone_mat.new ∷ [])
        ≡ sent_laps (match_laps watch.now mat.now (lists paired_watch.old paired_mat.old alone_watch.old alone_mat.old)) }
{
    code(match_laps(watch, mat, paired_watch, paired_mat, alone_watch, alone_mat))
}

// ---- which copies to keep
pub fn honecerise_keep(copies: &[u32], terms: &[u32], asked: u32, out: &mut [u8]) -> i32
    ensures { sends result (out.new ∷ [])
        ≡ sent_kept (keep_call copies.now terms.now asked out.old) }
{
    code(keep(copies, terms, asked, out))
}
