// The nine file calls on a store alone. Any bytes may be lent and any numbers handed in; a refused call changes nothing.
ghost use Rattle.std.specs.Prelude.{◌≡◌, [], length};
ghost use Rattle.sound.specs.Sound.{blocks_in};
ghost use Rattle.sound.specs.Counted.{SoundStore};
ghost use Rattle.content.specs.Plan.{read_plan, write_plan, shorten_plan};
ghost use Rattle.entries.specs.Plan.{look_up_plan, create_plan, link_plan, unlink_plan, over_plan};
ghost use Rattle.files.specs.Guard.{guard_of};
ghost use Rattle.files.specs.Effect.{look_up, read, create, write, shorten, link, unlink, rename, rename_new, do_look_up, do_read, do_create, do_write, do_shorten, do_link, do_unlink, do_rename_new, do_over, planned};
ghost use Rattle.files.specs.Plain.{plain_left, leaves, plain};

use answers::{Answer, Refusal};
use entries::{Kind, OverPlan, RenamePlan};
use layout::header::{Counts, Header};
use sound::Form;

// Refusals 1 and 2, which come before all others; a store that passes tells its counts.
pub fn guard(s: &[u8]) -> Result<Counts, Refusal>
    ensures { result ≡ guard_of s.now }
{
    if !checker::framed(Form::Store, s) {
        return Err(Refusal::BadBuffer);
    }
    let counts = Header::read(s).counts();
    if !checker::body_right(Form::Store, s, counts.inodes, counts.blocks) {
        return Err(Refusal::UnsoundStore);
    }
    Ok(counts)
}

// ---- look up
fn do_look_up(s: &[u8], n: usize, d: usize, name: &[u8]) -> Answer
    requires { SoundStore s.now n (blocks_in s.now) }
    ensures { plain_left result s.now []
        ≡ leaves s.now [] (do_look_up s.now (look_up_plan s.now n d name.now)) }
{
    entries::plan::look_up_plan(s, n, d, name)
}

pub fn look_up(store: &[u8], dir: usize, name: &[u8]) -> Answer
    ensures { plain_left result store.now [] ≡ plain (look_up dir name.now) store.now }
{
    let n = guard(store)?.inodes;
    do_look_up(store, n, dir, name)
}

// ---- read
fn do_read(s: &[u8], n: usize, i: usize, o: usize, out: &mut [u8]) -> Answer
    requires { SoundStore s.now n (blocks_in s.now) }
    ensures { plain_left result s.now out.new
        ≡ leaves s.now out.old (do_read s.now n i o out.old (read_plan s.now n i o (length out.old))) }
{
    let count = content::plan::read_plan(s, n, i, o, out.len())?;
    content::apply::read_file(s, n, i, o, count, &mut *out);
    Ok(count)
}

pub fn read(store: &[u8], inode: usize, offset: usize, out: &mut [u8]) -> Answer
    ensures { plain_left result store.now out.new
        ≡ plain (read inode offset out.old) store.now }
{
    let n = guard(store)?.inodes;
    do_read(store, n, inode, offset, &mut *out)
}

// ---- create
fn do_create(s: &mut [u8], n: usize, b: usize, d: usize, name: &[u8], kind: Kind) -> Answer
    requires { SoundStore s.old n b }
    ensures { plain_left result s.new []
        ≡ leaves s.old [] (do_create s.old n d name.now kind (create_plan s.old n b d name.now)) }
{
    let plan = entries::plan::create_plan(s, n, b, d, name)?;
    entries::apply::create(&mut *s, n, b, d, name, kind, plan.inode, plan.room);
    Ok(plan.inode)
}

pub fn create(store: &mut [u8], dir: usize, name: &[u8], kind: Kind) -> Answer
    ensures { plain_left result store.new [] ≡ plain (create dir name.now kind) store.old }
{
    let counts = guard(store)?;
    do_create(&mut *store, counts.inodes, counts.blocks, dir, name, kind)
}

// ---- write
fn do_write(s: &mut [u8], n: usize, b: usize, i: usize, o: usize, xs: &[u8]) -> Answer
    requires { SoundStore s.old n b }
    ensures { plain_left result s.new []
        ≡ leaves s.old [] (do_write s.old n b i o xs.now (write_plan s.old n i o (length xs.now))) }
{
    let z = content::plan::write_plan(s, n, i, o, xs.len())?;
    content::apply::write_file(&mut *s, n, b, i, o, xs, z);
    Ok(z)
}

pub fn write(store: &mut [u8], inode: usize, offset: usize, bytes: &[u8]) -> Answer
    ensures { plain_left result store.new [] ≡ plain (write inode offset bytes.now) store.old }
{
    let counts = guard(store)?;
    do_write(
        &mut *store,
        counts.inodes,
        counts.blocks,
        inode,
        offset,
        bytes,
    )
}

// ---- shorten
fn do_shorten(s: &mut [u8], n: usize, i: usize, z: usize) -> Answer
    requires { SoundStore s.old n (blocks_in s.old) }
    ensures { plain_left result s.new []
        ≡ leaves s.old [] (do_shorten s.old n i (shorten_plan s.old n i z)) }
{
    let y = content::plan::shorten_plan(s, n, i, z)?;
    content::apply::shorten_file(&mut *s, n, i, y);
    Ok(y)
}

pub fn shorten(store: &mut [u8], inode: usize, size: usize) -> Answer
    ensures { plain_left result store.new [] ≡ plain (shorten inode size) store.old }
{
    let n = guard(store)?.inodes;
    do_shorten(&mut *store, n, inode, size)
}

// ---- link
fn do_link(s: &mut [u8], n: usize, b: usize, d: usize, name: &[u8], i: usize) -> Answer
    requires { SoundStore s.old n b }
    ensures { plain_left result s.new []
        ≡ leaves s.old [] (do_link s.old n d name.now i (link_plan s.old n b d name.now i)) }
{
    let room = entries::plan::link_plan(s, n, b, d, name, i)?;
    entries::apply::link(&mut *s, n, b, d, name, i, room);
    Ok(0)
}

pub fn link(store: &mut [u8], dir: usize, name: &[u8], inode: usize) -> Answer
    ensures { plain_left result store.new [] ≡ plain (link dir name.now inode) store.old }
{
    let counts = guard(store)?;
    do_link(&mut *store, counts.inodes, counts.blocks, dir, name, inode)
}

// ---- unlink
fn do_unlink(s: &mut [u8], n: usize, d: usize, name: &[u8]) -> Answer
    requires { SoundStore s.old n (blocks_in s.old) }
    ensures { plain_left result s.new []
        ≡ leaves s.old [] (do_unlink s.old n d (unlink_plan s.old n d name.now)) }
{
    let plan = entries::plan::unlink_plan(s, n, d, name)?;
    entries::apply::unlink(&mut *s, n, d, plan.slot, plan.inode);
    Ok(0)
}

pub fn unlink(store: &mut [u8], dir: usize, name: &[u8]) -> Answer
    ensures { plain_left result store.new [] ≡ plain (unlink dir name.now) store.old }
{
    let n = guard(store)?.inodes;
    do_unlink(&mut *store, n, dir, name)
}

// ---- rename
// The lap recorder's, which keeps what has the new name.
fn do_rename_new(
    s: &mut [u8],
    n: usize,
    b: usize,
    d: usize,
    name: &[u8],
    e: usize,
    other: &[u8],
) -> Answer
    requires { SoundStore s.old n b }
    ensures { plain_left result s.new []
        ≡ leaves s.old [] (do_rename_new s.old n b d name.now e other.now) }
{
    match entries::plan::rename_new_plan(s, n, b, d, name, e, other)? {
        RenamePlan::Rename { slot, inode } => {
            entries::apply::rename(&mut *s, n, d, other, slot, inode);
        }
        RenamePlan::Move { slot, inode, room } => {
            entries::apply::move_entry(&mut *s, n, b, d, e, other, slot, inode, room);
        }
    }
    Ok(0)
}

// Onto a name that another entry has: the old holder goes, and then the entry is renamed.
fn do_over(
    s: &mut [u8],
    n: usize,
    b: usize,
    d: usize,
    name: &[u8],
    e: usize,
    other: &[u8],
) -> Answer
    requires { SoundStore s.old n b }
    ensures { plain_left result s.new []
        ≡ leaves s.old [] (do_over s.old n b d name.now e other.now (over_plan s.old n d name.now e other.now)) }
{
    match entries::plan::over_plan(s, n, d, name, e, other)? {
        OverPlan::Over { .. } => {
            do_unlink(&mut *s, n, e, other)?;
            do_rename_new(&mut *s, n, b, d, name, e, other)
        }
        OverPlan::Same { .. } => Ok(0),
    }
}

// The phone app's, which replaces.
fn do_rename(
    s: &mut [u8],
    n: usize,
    b: usize,
    d: usize,
    name: &[u8],
    e: usize,
    other: &[u8],
) -> Answer
    requires { SoundStore s.old n b }
    ensures { plain_left result s.new []
        ≡ leaves s.old [] (planned (rename d name.now e other.now) s.old n b) }
{
    let answer = do_rename_new(&mut *s, n, b, d, name, e, other);
    if answer == Err(Refusal::NameTaken) {
        return do_over(&mut *s, n, b, d, name, e, other);
    }
    answer
}

pub fn rename(store: &mut [u8], dir: usize, name: &[u8], to_dir: usize, to_name: &[u8]) -> Answer
    ensures { plain_left result store.new []
        ≡ plain (rename dir name.now to_dir to_name.now) store.old }
{
    let counts = guard(store)?;
    do_rename(
        &mut *store,
        counts.inodes,
        counts.blocks,
        dir,
        name,
        to_dir,
        to_name,
    )
}

pub fn rename_new(
    store: &mut [u8],
    dir: usize,
    name: &[u8],
    to_dir: usize,
    to_name: &[u8],
) -> Answer
    ensures { plain_left result store.new []
        ≡ plain (rename_new dir name.now to_dir to_name.now) store.old }
{
    let counts = guard(store)?;
    do_rename_new(
        &mut *store,
        counts.inodes,
        counts.blocks,
        dir,
        name,
        to_dir,
        to_name,
    )
}
