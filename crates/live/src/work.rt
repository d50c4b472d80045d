// The file calls behind the guards: plan, then busy, then the bytes of the store, then the image's
// entry and the marks. s is the store, m the image, d the desk; w is what the guards have read of them.
ghost use Rattle.std.specs.Prelude.{◌≡◌, List, ℕ, length};
ghost use Rattle.desk.specs.Desk.{desk_of};
ghost use Rattle.desk.specs.Next.{locks_any};
ghost use Rattle.sound.specs.Counted.{SoundStore};
ghost use Rattle.sound.specs.Sound.{blocks_in};
ghost use Rattle.content.specs.Plan.{write_plan, shorten_plan};
ghost use Rattle.entries.specs.Plan.{create_plan, link_plan, unlink_plan, over_plan};
ghost use Rattle.files.specs.Effect.{rename, do_create, do_write, do_shorten, do_link, do_unlink, do_rename_new, watched, do_over, planned};
ghost use Rattle.checkpoint.specs.Busy.{unless_busy};
ghost use Rattle.checkpoint.specs.Live.{left, leaves_in, world};
ghost use Rattle.image.specs.Addressed.{Readable};
ghost use Rattle.live.specs.Fits.{Fits, busy_if};

use crate::notes;
use answers::{Answer, Refusal};
use desk::Desk;
use entries::{Kind, OverPlan, RenamePlan};
use guards::Watched;
use image::cut::cut_image;

// 14: a running copy has locked one of the inodes.
fn unlocked(h: Desk, touched: &[usize]) -> Result<(), Refusal>
    ensures { result ≡ busy_if (locks_any h touched.now) }
{
    if h.locks_any(touched) {
        return Err(Refusal::Busy);
    }
    Ok(())
}

// ---- calls that leave the image as it is, whatever it is
pub fn create(s: &mut [u8], d: &mut [u8], w: Watched, dir: usize, name: &[u8], kind: Kind) -> Answer
    requires { Fits s.old d.old w.desk w.inodes w.blocks }
    ensures { (m : List ℕ) → left result s.new m d.new ≡ leaves_in (world s.old m d.old) (unless_busy d.old (do_create s.old w.inodes dir name.now kind (create_plan s.old w.inodes w.blocks dir name.now))) }
{
    let plan = entries::plan::create_plan(s, w.inodes, w.blocks, dir, name)?;
    unlocked(w.desk, &[dir])?;
    entries::apply::create(
        &mut *s, w.inodes, w.blocks, dir, name, kind, plan.inode, plan.room,
    );
    notes::note_made(&mut *d, w.desk, w.inodes, dir, plan.room.slot);
    Ok(plan.inode)
}

pub fn link(s: &mut [u8], d: &mut [u8], w: Watched, dir: usize, name: &[u8], inode: usize) -> Answer
    requires { Fits s.old d.old w.desk w.inodes w.blocks }
    ensures { (m : List ℕ) → left result s.new m d.new ≡ leaves_in (world s.old m d.old) (unless_busy d.old (do_link s.old w.inodes dir name.now inode (link_plan s.old w.inodes w.blocks dir name.now inode))) }
{
    let room = entries::plan::link_plan(s, w.inodes, w.blocks, dir, name, inode)?;
    unlocked(w.desk, &[dir, inode])?;
    entries::apply::link(&mut *s, w.inodes, w.blocks, dir, name, inode, room);
    notes::note_made(&mut *d, w.desk, w.inodes, dir, room.slot);
    Ok(0)
}

pub fn write(s: &mut [u8], w: Watched, i: usize, o: usize, xs: &[u8]) -> Answer
    requires { SoundStore s.old w.inodes w.blocks }
    ensures { (m d : List ℕ) → w.desk ≡ desk_of d → left result s.new m d ≡ leaves_in (world s.old m d) (unless_busy d (do_write s.old w.inodes w.blocks i o xs.now (write_plan s.old w.inodes i o (length xs.now)))) }
{
    let z = content::plan::write_plan(s, w.inodes, i, o, xs.len())?;
    unlocked(w.desk, &[i])?;
    content::apply::write_file(&mut *s, w.inodes, w.blocks, i, o, xs, z);
    Ok(z)
}

pub fn shorten(s: &mut [u8], w: Watched, i: usize, z: usize) -> Answer
    requires { SoundStore s.old w.inodes (blocks_in s.old) }
    ensures { (m d : List ℕ) → w.desk ≡ desk_of d → left result s.new m d ≡ leaves_in (world s.old m d) (unless_busy d (do_shorten s.old w.inodes i (shorten_plan s.old w.inodes i z))) }
{
    let y = content::plan::shorten_plan(s, w.inodes, i, z)?;
    unlocked(w.desk, &[i])?;
    content::apply::shorten_file(&mut *s, w.inodes, i, y);
    Ok(y)
}

// ---- calls that take an entry out
pub fn unlink(
    s: &mut [u8],
    m: &mut [u8],
    d: &mut [u8],
    w: Watched,
    dir: usize,
    name: &[u8],
) -> Answer
    requires { Fits s.old d.old w.desk w.inodes (blocks_in s.old) × Readable m.old w.desk w.inodes }
    ensures { left result s.new m.new d.new
        ≡ leaves_in (world s.old m.old d.old) (unless_busy d.old (do_unlink s.old w.inodes dir (unlink_plan s.old w.inodes dir name.now))) }
{
    let plan = entries::plan::unlink_plan(s, w.inodes, dir, name)?;
    unlocked(w.desk, &[dir, plan.inode])?;
    entries::apply::unlink(&mut *s, w.inodes, dir, plan.slot, plan.inode);
    cut_image(&mut *m, d, w.desk, w.inodes, dir, plan.slot, plan.inode);
    notes::note_taken(&mut *d, w.desk, w.inodes, dir, plan.slot);
    Ok(0)
}

// The lap recorder's, which keeps what has the new name.
pub fn rename_new(
    s: &mut [u8],
    m: &mut [u8],
    d: &mut [u8],
    w: Watched,
    from: usize,
    name: &[u8],
    to: usize,
    other: &[u8],
) -> Answer
    requires { Fits s.old d.old w.desk w.inodes w.blocks × Readable m.old w.desk w.inodes }
    ensures { left result s.new m.new d.new
        ≡ leaves_in (world s.old m.old d.old) (unless_busy d.old (do_rename_new s.old w.inodes w.blocks from name.now to other.now)) }
{
    match entries::plan::rename_new_plan(s, w.inodes, w.blocks, from, name, to, other)? {
        RenamePlan::Rename { slot, inode } => {
            unlocked(w.desk, &[from])?;
            entries::apply::rename(&mut *s, w.inodes, from, other, slot, inode);
        }
        RenamePlan::Move { slot, inode, room } => {
            unlocked(w.desk, &[from, to, inode])?;
            entries::apply::move_entry(
                &mut *s, w.inodes, w.blocks, from, to, other, slot, inode, room,
            );
            cut_image(&mut *m, d, w.desk, w.inodes, from, slot, inode);
            notes::note_taken(&mut *d, w.desk, w.inodes, from, slot);
            notes::note_made(&mut *d, w.desk, w.inodes, to, room.slot);
        }
    }
    Ok(0)
}

// 14, as for any rename of i.
fn rename_unlocked(h: Desk, from: usize, to: usize, i: usize) -> Result<(), Refusal>
    ensures { result ≡ busy_if (locks_any h (watched from to i)) }
{
    if from == to {
        return unlocked(h, &[from]);
    }
    unlocked(h, &[from, to, i])
}

// Onto a name that another entry has: the old holder goes as an unlink takes it, and then the entry is renamed.
fn over(
    s: &mut [u8],
    m: &mut [u8],
    d: &mut [u8],
    w: Watched,
    from: usize,
    name: &[u8],
    to: usize,
    other: &[u8],
) -> Answer
    requires { Fits s.old d.old w.desk w.inodes w.blocks × Readable m.old w.desk w.inodes }
    ensures { left result s.new m.new d.new
        ≡ leaves_in (world s.old m.old d.old) (unless_busy d.old (do_over s.old w.inodes w.blocks from name.now to other.now (over_plan s.old w.inodes from name.now to other.now))) }
{
    match entries::plan::over_plan(s, w.inodes, from, name, to, other)? {
        OverPlan::Over { inode, holder } => {
            unlocked(w.desk, &[to, holder])?;
            rename_unlocked(w.desk, from, to, inode)?;
            unlink(&mut *s, &mut *m, &mut *d, w, to, other)?;
            rename_new(&mut *s, &mut *m, &mut *d, w, from, name, to, other)
        }
        OverPlan::Same { inode } => {
            rename_unlocked(w.desk, from, to, inode)?;
            Ok(0)
        }
    }
}

// The phone app's, which replaces.
pub fn rename(
    s: &mut [u8],
    m: &mut [u8],
    d: &mut [u8],
    w: Watched,
    from: usize,
    name: &[u8],
    to: usize,
    other: &[u8],
) -> Answer
    requires { Fits s.old d.old w.desk w.inodes w.blocks × Readable m.old w.desk w.inodes }
    ensures { left result s.new m.new d.new
        ≡ leaves_in (world s.old m.old d.old) (unless_busy d.old (planned (rename from name.now to other.now) s.old w.inodes w.blocks)) }
{
    let answer = rename_new(&mut *s, &mut *m, &mut *d, w, from, name, to, other);
    if answer == Err(Refusal::NameTaken) {
        return over(&mut *s, &mut *m, &mut *d, w, from, name, to, other);
    }
    answer
}
