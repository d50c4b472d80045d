// The static library for programs in other languages: each call of `api` under its C name, and by the same clauses. A
// slice passes as a pointer and a length, numbers in the machine's size. What the calls answer and leave stands in `api`.
#![tactic(auto)]

ghost use Rattle.std.specs.Prelude.{◌≡◌, [], ◌∷◌};
ghost use Rattle.entries.specs.declared.Kind.TheVariants.{File, Directory};
ghost use Rattle.format.specs.Format.{lay_out_store, lay_out_desk};
ghost use Rattle.files.specs.Effect.{look_up, read, create, write, shorten, link, unlink, rename, rename_new};
ghost use Rattle.files.specs.Plain as alone;
ghost use Rattle.checkpoint.specs.Live.{live, start, step, status, world};
ghost use Rattle.checkpoint.specs.Burst.{burst};
ghost use Rattle.dealer.specs.Deal.{dealt};
ghost use Rattle.laps.specs.Walk.{lists};
ghost use Rattle.laps.specs.Call.{match_laps};
ghost use Rattle.keeping.specs.Call.{keep_call};
ghost use Rattle.api.specs.Api.{sends, sent_laid, sent_alone, sent, sends_state, sent_state, mask_flags, sent_dealt, sent_laps, sent_kept, checked};

use dealer::BAYS;

// ---- laying out
#[unsafe(no_mangle)]
pub extern "C" fn honecerise_lay_out_store(store: &mut [u8], inodes: usize, blocks: usize) -> i32
    ensures { sends result (store.new ∷ []) ≡ sent_laid (lay_out_store store.old inodes blocks) }
{
    api::honecerise_lay_out_store(store, inodes, blocks)
}

#[unsafe(no_mangle)]
pub extern "C" fn honecerise_lay_out_desk(desk: &mut [u8], inodes: usize) -> i32
    ensures { sends result (desk.new ∷ []) ≡ sent_laid (lay_out_desk desk.old inodes) }
{
    api::honecerise_lay_out_desk(desk, inodes)
}

// ---- the check
// Whether the bytes are a sound store (image 0) or a sound finished image (any other number): 1 for yes, 0 for no.
#[unsafe(no_mangle)]
pub extern "C" fn honecerise_check(image: u8, store: &[u8]) -> u8
    ensures { result ≡ checked image store.now }
{
    api::honecerise_check(image, store)
}

// ---- the calls on the store alone
#[unsafe(no_mangle)]
pub extern "C" fn honecerise_look_up(store: &[u8], directory: usize, name: &[u8]) -> i32
    ensures { sends result (store.now ∷ [] ∷ [])
        ≡ sent_alone (alone.plain (look_up directory name.now) store.now) }
{
    api::honecerise_look_up(store, directory, name)
}

#[unsafe(no_mangle)]
pub extern "C" fn honecerise_read(store: &[u8], inode: usize, offset: usize, out: &mut [u8]) -> i32
    ensures { sends result (store.now ∷ out.new ∷ [])
        ≡ sent_alone (alone.plain (read inode offset out.old) store.now) }
{
    api::honecerise_read(store, inode, offset, out)
}

// ---- the file calls over store, image and desk
#[unsafe(no_mangle)]
pub extern "C" fn honecerise_create_file(
    store: &mut [u8],
    image: &mut [u8],
    desk: &mut [u8],
    directory: usize,
    name: &[u8],
) -> i32
    ensures { sends result (store.new ∷ image.new ∷ desk.new ∷ [])
        ≡ sent (live (create directory name.now File) (world store.old image.old desk.old)) }
{
    api::honecerise_create_file(store, image, desk, directory, name)
}

#[unsafe(no_mangle)]
pub extern "C" fn honecerise_create_directory(
    store: &mut [u8],
    image: &mut [u8],
    desk: &mut [u8],
    directory: usize,
    name: &[u8],
) -> i32
    ensures { sends result (store.new ∷ image.new ∷ desk.new ∷ [])
        ≡ sent (live (create directory name.now Directory) (world store.old image.old desk.old)) }
{
    api::honecerise_create_directory(store, image, desk, directory, name)
}

#[unsafe(no_mangle)]
pub extern "C" fn honecerise_write(
    store: &mut [u8],
    image: &mut [u8],
    desk: &mut [u8],
    inode: usize,
    offset: usize,
    bytes: &[u8],
) -> i32
    ensures { sends result (store.new ∷ image.new ∷ desk.new ∷ [])
        ≡ sent (live (write inode offset bytes.now) (world store.old image.old desk.old)) }
{
    api::honecerise_write(store, image, desk, inode, offset, bytes)
}

#[unsafe(no_mangle)]
pub extern "C" fn honecerise_shorten(
    store: &mut [u8],
    image: &mut [u8],
    desk: &mut [u8],
    inode: usize,
    size: usize,
) -> i32
    ensures { sends result (store.new ∷ image.new ∷ desk.new ∷ [])
        ≡ sent (live (shorten inode size) (world store.old image.old desk.old)) }
{
    api::honecerise_shorten(store, image, desk, inode, size)
}

#[unsafe(no_mangle)]
pub extern "C" fn honecerise_link(
    store: &mut [u8],
    image: &mut [u8],
    desk: &mut [u8],
    directory: usize,
    name: &[u8],
    inode: usize,
) -> i32
    ensures { sends result (store.new ∷ image.new ∷ desk.new ∷ [])
        ≡ sent (live (link directory name.now inode) (world store.old image.old desk.old)) }
{
    api::honecerise_link(store, image, desk, directory, name, inode)
}

#[unsafe(no_mangle)]
pub extern "C" fn honecerise_unlink(
    store: &mut [u8],
    image: &mut [u8],
    desk: &mut [u8],
    directory: usize,
    name: &[u8],
) -> i32
    ensures { sends result (store.new ∷ image.new ∷ desk.new ∷ [])
        ≡ sent (live (unlink directory name.now) (world store.old image.old desk.old)) }
{
    api::honecerise_unlink(store, image, desk, directory, name)
}

#[unsafe(no_mangle)]
pub extern "C" fn honecerise_rename(
    store: &mut [u8],
    image: &mut [u8],
    desk: &mut [u8],
    directory: usize,
    name: &[u8],
    to_directory: usize,
    to_name: &[u8],
) -> i32
    ensures { sends result (store.new ∷ image.new ∷ desk.new ∷ [])
        ≡ sent (live (rename directory name.now to_directory to_name.now) (world store.old image.old desk.old)) }
{
    api::honecerise_rename(store, image, desk, directory, name, to_directory, to_name)
}

// The lap recorder's, which keeps what has the new name.
#[unsafe(no_mangle)]
pub extern "C" fn honecerise_rename_new(
    store: &mut [u8],
    image: &mut [u8],
    desk: &mut [u8],
    directory: usize,
    name: &[u8],
    to_directory: usize,
    to_name: &[u8],
) -> i32
    ensures { sends result (store.new ∷ image.new ∷ desk.new ∷ [])
        ≡ sent (live (rename_new directory name.now to_directory to_name.now) (world store.old image.old desk.old)) }
{
    api::honecerise_rename_new(store, image, desk, directory, name, to_directory, to_name)
}

// ---- the copier
#[unsafe(no_mangle)]
pub extern "C" fn honecerise_start(store: &[u8], image: &mut [u8], desk: &mut [u8]) -> i32
    ensures { sends result (store.now ∷ image.new ∷ desk.new ∷ [])
        ≡ sent (start store.now image.old desk.old) }
{
    api::honecerise_start(store, image, desk)
}

#[unsafe(no_mangle)]
pub extern "C" fn honecerise_step(store: &[u8], image: &mut [u8], desk: &mut [u8]) -> i32
    ensures { sends result (store.now ∷ image.new ∷ desk.new ∷ [])
        ≡ sent (step store.now image.old desk.old) }
{
    api::honecerise_step(store, image, desk)
}

#[unsafe(no_mangle)]
pub extern "C" fn honecerise_burst(
    store: &[u8],
    image: &mut [u8],
    desk: &mut [u8],
    count: usize,
) -> i32
    ensures { sends result (store.now ∷ image.new ∷ desk.new ∷ [])
        ≡ sent (burst count (world store.now image.old desk.old)) }
{
    api::honecerise_burst(store, image, desk, count)
}

#[unsafe(no_mangle)]
pub extern "C" fn honecerise_state(
    store: &[u8],
    image: &[u8],
    desk: &[u8],
    state: &mut usize,
    locked: &mut usize,
    steps: &mut usize,
) -> i32
    ensures { sends_state result (state.new ∷ locked.new ∷ steps.new ∷ [])
        ≡ sent_state (status store.now image.now desk.now) (state.old ∷ locked.old ∷ steps.old ∷ []) }
{
    api::honecerise_state(store, image, desk, state, locked, steps)
}

// ---- the charging case
// Bit b of running says that bay b runs; the counts are written in every case.
#[unsafe(no_mangle)]
pub extern "C" fn honecerise_deal(
    running: u16,
    steps: usize,
    last: usize,
    counts: &mut [u8; BAYS],
) -> i32
    ensures { sends result (counts.new ∷ []) ≡ sent_dealt (dealt (mask_flags running) steps last) }
{
    api::honecerise_deal(running, steps, last, counts)
}

// ---- laps against the mat
#[unsafe(no_mangle)]
pub extern "C" fn honecerise_match_laps(
    watch: &[u32],
    mat: &[u32],
    paired_watch: &mut [u32],
    paired_mat: &mut [u32],
    alone_watch: &mut [u32],
    alone_mat: &mut [u32],
) -> i32
    ensures { sends result (paired_watch.new ∷ paired_mat.new ∷ alone_watch.new ∷ alone_mat.new ∷ [])
        ≡ sent_laps (match_laps watch.now mat.now (lists paired_watch.old paired_mat.old alone_watch.old alone_mat.old)) }
{
    api::honecerise_match_laps(watch, mat, paired_watch, paired_mat, alone_watch, alone_mat)
}

// ---- which copies to keep
#[unsafe(no_mangle)]
pub extern "C" fn honecerise_keep(copies: &[u32], terms: &[u32], asked: u32, out: &mut [u8]) -> i32
    ensures { sends result (out.new ∷ [])
        ≡ sent_kept (keep_call copies.now terms.now asked out.old) }
{
    api::honecerise_keep(copies, terms, asked, out)
}
