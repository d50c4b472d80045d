// What look up, create, link, unlink and rename are to do on a sound store, decided before any byte changes. n and b are the store's counts.
ghost use Rattle.std.specs.Prelude.{◌≡◌, true, not, ◌&&◌, eqb, ◌≤◌, length};
ghost use Rattle.directory.specs.Fits.{DirFits};
ghost use Rattle.bounded.specs.Climb.{leads_b};
ghost use Rattle.layout.specs.Inode.{parent_of, is_directory};
ghost use Rattle.names.specs.Name.{name_bytes};
ghost use Rattle.sound.specs.Sound.{blocks_in};
ghost use Rattle.sound.specs.Counted.{SoundStore};
ghost use Rattle.entries.specs.Room.{room_in};
ghost use Rattle.entries.specs.Plan.{look_up_plan, create_plan, link_plan, holds_none, unlink_plan, is_below, rename_within, move_to, rename_new_plan, over_of, over_plan};

use crate::{CreatePlan, OverPlan, RenamePlan, Room, UnlinkPlan};
use answers::{Answer, Refusal};
use blocks::free;
use layout::inode;
use layout::inode::is_kind;
use layout::sizes::{DIRECTORY, FILE, ROOT};
use names::ENTRY_BYTES;

pub fn look_up_plan(s: &[u8], n: usize, d: usize, name: &[u8]) -> Answer
    requires { SoundStore s.now n (blocks_in s.now) }
    ensures { result ≡ look_up_plan s.now n d name.now }
{
    if !names::legal_name(name) {
        return Err(Refusal::IllegalName);
    }
    if !is_kind(s, n, DIRECTORY, d) {
        return Err(Refusal::WrongInode);
    }
    let Some(t) = directory::find_slot(s, n, d, name) else {
        return Err(Refusal::NameAbsent);
    };
    Ok(directory::slot_inode(s, n, d, t) as usize)
}

// Where an entry more in directory d goes.
fn room_in(s: &[u8], n: usize, b: usize, d: usize) -> Result<Room, Refusal>
    requires { SoundStore s.now n b × (is_directory s.now n d ≡ true) }
    ensures { result ≡ room_in s.now n b d }
{
    if let Some(t) = directory::empty_slot(s, n, d) {
        return Ok(Room {
            slot: t,
            block: None,
        });
    }
    let slots = directory::slot_count(s, n, d);
    if directory::MOST_SLOTS <= slots {
        return Err(Refusal::NoSlot);
    }
    let Some(c) = free::free_block(s, n, 0, false, b) else {
        return Err(Refusal::NoBlocks);
    };
    Ok(Room {
        slot: slots,
        block: Some(c),
    })
}

pub fn create_plan(
    s: &[u8],
    n: usize,
    b: usize,
    d: usize,
    name: &[u8],
) -> Result<CreatePlan, Refusal>
    requires { SoundStore s.now n b }
    ensures { result ≡ create_plan s.now n b d name.now }
{
    if !names::legal_name(name) {
        return Err(Refusal::IllegalName);
    }
    if !is_kind(s, n, DIRECTORY, d) {
        return Err(Refusal::WrongInode);
    }
    let None = directory::find_slot(s, n, d, name) else {
        return Err(Refusal::NameTaken);
    };
    let Some(i) = inode::free_inode(s, n) else {
        return Err(Refusal::NoInode);
    };
    let room = room_in(s, n, b, d)?;
    Ok(CreatePlan { inode: i, room })
}

pub fn link_plan(
    s: &[u8],
    n: usize,
    b: usize,
    d: usize,
    name: &[u8],
    i: usize,
) -> Result<Room, Refusal>
    requires { SoundStore s.now n b }
    ensures { result ≡ link_plan s.now n b d name.now i }
{
    if !names::legal_name(name) {
        return Err(Refusal::IllegalName);
    }
    if !is_kind(s, n, DIRECTORY, d) {
        return Err(Refusal::WrongInode);
    }
    if !is_kind(s, n, FILE, i) {
        return Err(Refusal::WrongInode);
    }
    let None = directory::find_slot(s, n, d, name) else {
        return Err(Refusal::NameTaken);
    };
    room_in(s, n, b, d)
}

// No entry stands in directory d.
fn holds_none(s: &[u8], n: usize, d: usize) -> bool
    requires { DirFits s.now n d }
    ensures { result ≡ holds_none s.now n d }
{
    for t in 0..directory::slot_count(s, n, d) {
        let o = directory::slot_at(s, n, d, t);
        if !names::is_empty(&s[o..o + ENTRY_BYTES]) {
            return false;
        }
    }
    true
}

#[tactic(auto, using(crate::proofs::TakePlanLaws::unlink_file))]
pub fn unlink_plan(s: &[u8], n: usize, d: usize, name: &[u8]) -> Result<UnlinkPlan, Refusal>
    requires { SoundStore s.now n (blocks_in s.now) }
    ensures { result ≡ unlink_plan s.now n d name.now }
{
    if !names::legal_name(name) {
        return Err(Refusal::IllegalName);
    }
    if !is_kind(s, n, DIRECTORY, d) {
        return Err(Refusal::WrongInode);
    }
    let Some(t) = directory::find_slot(s, n, d, name) else {
        return Err(Refusal::NameAbsent);
    };
    let i = directory::slot_inode(s, n, d, t) as usize;
    if inode::kind(s, n, i) == DIRECTORY {
        if !holds_none(s, n, i) {
            return Err(Refusal::NotEmpty);
        }
    }
    Ok(UnlinkPlan { slot: t, inode: i })
}

// Directory e is i or below it: up from e, no further than the root.
fn leads_to(s: &[u8], n: usize, i: usize, e: usize) -> bool
    requires { SoundStore s.now n (blocks_in s.now) × (is_directory s.now n e ≡ true) × (1 ≤ i) }
    ensures { result ≡ leads_b (parent_of s.now) i n e }
{
    let mut x = e;
    for _ in 0..n {
        if x == i {
            return true;
        }
        if x == ROOT {
            return false;
        }
        x = inode::parent(s, n, x) as usize;
    }
    x == i
}

#[tactic(auto, using(crate::proofs::TakePlanLaws::below_file))]
fn is_below(s: &[u8], n: usize, i: usize, e: usize) -> bool
    requires { SoundStore s.now n (blocks_in s.now) × (is_directory s.now n e ≡ true) × (1 ≤ i) × (i ≤ n) }
    ensures { result ≡ is_below s.now n i e }
{
    if inode::kind(s, n, i) != DIRECTORY {
        return false;
    }
    leads_to(s, n, i, e)
}

// The entry in slot t, which names i, is to have another name in its directory e.
#[tactic(auto, using(crate::proofs::TakePlanLaws::within_own))]
fn rename_within(
    s: &[u8],
    n: usize,
    t: usize,
    i: usize,
    e: usize,
    other: &[u8],
) -> Result<RenamePlan, Refusal>
    requires { DirFits s.now n e × (length other.now ≤ name_bytes) }
    ensures { result ≡ rename_within s.now n t i e other.now }
{
    let Some(u) = directory::find_slot(s, n, e, other) else {
        return Ok(RenamePlan::Rename { slot: t, inode: i });
    };
    if u == t {
        return Ok(RenamePlan::Rename { slot: t, inode: i });
    }
    Err(Refusal::NameTaken)
}

// It is to go to another directory e.
fn move_to(
    s: &[u8],
    n: usize,
    b: usize,
    t: usize,
    i: usize,
    e: usize,
    other: &[u8],
) -> Result<RenamePlan, Refusal>
    requires { SoundStore s.now n b × (is_directory s.now n e ≡ true) × (length other.now ≤ name_bytes) × (1 ≤ i) × (i ≤ n) }
    ensures { result ≡ move_to s.now n b t i e other.now }
{
    let None = directory::find_slot(s, n, e, other) else {
        return Err(Refusal::NameTaken);
    };
    if is_below(s, n, i, e) {
        return Err(Refusal::IntoItself);
    }
    let room = room_in(s, n, b, e)?;
    Ok(RenamePlan::Move {
        slot: t,
        inode: i,
        room,
    })
}

// The lap recorder's rename, which keeps what has the new name.
pub fn rename_new_plan(
    s: &[u8],
    n: usize,
    b: usize,
    d: usize,
    name: &[u8],
    e: usize,
    other: &[u8],
) -> Result<RenamePlan, Refusal>
    requires { SoundStore s.now n b }
    ensures { result ≡ rename_new_plan s.now n b d name.now e other.now }
{
    if !names::legal_name(name) {
        return Err(Refusal::IllegalName);
    }
    if !names::legal_name(other) {
        return Err(Refusal::IllegalName);
    }
    if !is_kind(s, n, DIRECTORY, d) {
        return Err(Refusal::WrongInode);
    }
    if !is_kind(s, n, DIRECTORY, e) {
        return Err(Refusal::WrongInode);
    }
    let Some(t) = directory::find_slot(s, n, d, name) else {
        return Err(Refusal::NameAbsent);
    };
    let i = directory::slot_inode(s, n, d, t) as usize;
    if d == e {
        return rename_within(s, n, t, i, e, other);
    }
    move_to(s, n, b, t, i, e, other)
}

// It would go to another directory, which is i or below it.
fn moves_below(s: &[u8], n: usize, d: usize, i: usize, e: usize) -> bool
    requires { SoundStore s.now n (blocks_in s.now) × (is_directory s.now n e ≡ true) × (1 ≤ i) × (i ≤ n) }
    ensures { result ≡ not (eqb d e) && is_below s.now n i e }
{
    if d == e {
        return false;
    }
    is_below(s, n, i, e)
}

// Inode i, of directory d, is to have a name in e that stands for h.
fn over_of(s: &[u8], n: usize, d: usize, i: usize, e: usize, h: usize) -> Result<OverPlan, Refusal>
    requires { SoundStore s.now n (blocks_in s.now) × (is_directory s.now n e ≡ true) × (1 ≤ i) × (i ≤ n) × (1 ≤ h) × (h ≤ n) }
    ensures { result ≡ over_of s.now n d i e h }
{
    if moves_below(s, n, d, i, e) {
        return Err(Refusal::IntoItself);
    }
    if inode::kind(s, n, i) != inode::kind(s, n, h) {
        return Err(Refusal::KindsDiffer);
    }
    if i == h {
        return Ok(OverPlan::Same { inode: i });
    }
    Ok(OverPlan::Over {
        inode: i,
        holder: h,
    })
}

// Rename onto a name that another entry has: what the lap recorder's refuses with 7.
pub fn over_plan(
    s: &[u8],
    n: usize,
    d: usize,
    name: &[u8],
    e: usize,
    other: &[u8],
) -> Result<OverPlan, Refusal>
    requires { SoundStore s.now n (blocks_in s.now) }
    ensures { result ≡ over_plan s.now n d name.now e other.now }
{
    let i = look_up_plan(s, n, d, name)?;
    let h = unlink_plan(s, n, e, other)?.inode;
    over_of(s, n, d, i, e, h)
}
