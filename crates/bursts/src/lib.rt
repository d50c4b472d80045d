// Up to 64 steps of the copy in one call, with one set of guards. Any bytes may be lent.
#![tactic(auto)]

pub mod kept;

ghost use Rattle.std.specs.Prelude.{◌≡◌, true, ◌≤◌};
ghost use Rattle.desk.specs.Desk.{desk_of};
ghost use Rattle.sound.specs.Sound.{inodes_in};
ghost use Rattle.checkpoint.specs.Fit.{is_running};
ghost use Rattle.checkpoint.specs.Live.{left, world};
ghost use Rattle.checkpoint.specs.List.{Ready};
ghost use Rattle.checkpoint.specs.Burst.{most_burst, count_allowed, burst_from, burst};
ghost use Rattle.bursts.specs.Turn.{stopped_at, Kept, Took};

use answers::{Answer, Refusal};
use blocks::map::MAP_WORDS;
use desk::{Desk, STEPS_AN_INODE};
use guards::{Watched, after_lengths, both_framed};
use image::naming;
use kept::Named;
use layout::sizes::INODE_PLACES;

pub const MOST_BURST: usize = 64;

// What an accepted turn came to: the copy runs on, or no step after it is accepted.
#[derive(Clone, Copy)]
pub enum Turn {
    Goes,
    Ends,
}

// One step, its guards down to what a step before it can have changed: the steps' bound here, and after a lock the addresses of the inode.
fn take_one(
    s: &[u8],
    m: &mut [u8],
    d: &mut [u8],
    n: usize,
    named: &mut Named,
) -> Result<Turn, Refusal>
    requires { Kept (world s.now m.old d.old) n named.old.map named.old.counts }
    ensures { Took result (world s.now m.old d.old) n m.new d.new named.new.map named.new.counts }
{
    let h = Desk::read(&*d);
    if STEPS_AN_INODE * (h.inodes as u32) < h.steps {
        return Err(Refusal::BadDesk);
    }
    if h.locked == 0 {
        kept::free_step(s, &mut *m, &mut *d, h, n, &mut named.map, &named.counts)
    } else {
        kept::locked_step(s, &mut *m, &mut *d, h, n, &mut *named)
    }
}

// "If the very first is refused, that refusal is the answer."
fn stopped_at(done: usize, why: Refusal) -> Answer
    ensures { result ≡ stopped_at done why }
{
    if done == 0 { Err(why) } else { Ok(done) }
}

// The steps themselves, over one map of the image's named blocks and one count of its names.
fn turns(s: &[u8], m: &mut [u8], d: &mut [u8], w: Watched, count: usize) -> Answer
    requires { (w.desk ≡ desk_of d.old) × Ready (world s.now m.old d.old) × (w.inodes ≡ inodes_in s.now) × (is_running d.old ≡ true) × (count ≤ most_burst) }
    ensures { left result s.now m.new d.new
        ≡ burst_from count 0 (world s.now m.old d.old) }
{
    let mut named = Named {
        map: [0; MAP_WORDS],
        counts: [0; INODE_PLACES],
    };
    kept::map_of(s, &*m, w.inodes, w.desk.locked as usize, &mut named.map);
    naming::count_names(&*m, w.inodes, &mut named.counts);
    // a turn changes m and d, which a chain's closure may not, and its number is the answer
    for k in 0..count {
        match take_one(s, &mut *m, &mut *d, w.inodes, &mut named) {
            Ok(Turn::Goes) => {}
            Ok(Turn::Ends) => return Ok(k + 1),
            Err(why) => return stopped_at(k, why),
        }
    }
    Ok(count)
}

// 15, or the steps.
fn go_on(s: &[u8], m: &mut [u8], d: &mut [u8], w: Watched, count: usize) -> Answer
    requires { (w.desk ≡ desk_of d.old) × Ready (world s.now m.old d.old) × (w.inodes ≡ inodes_in s.now) × (1 ≤ count) × (count ≤ most_burst) }
    ensures { left result s.now m.new d.new
        ≡ burst_from count 0 (world s.now m.old d.old) }
{
    if !w.desk.runs() {
        return Err(Refusal::WrongState);
    }
    turns(s, &mut *m, &mut *d, w, count)
}

fn count_allowed(count: usize) -> bool
    ensures { result ≡ count_allowed count }
{
    (1..=MOST_BURST).contains(&count)
}

pub fn burst(store: &[u8], image: &mut [u8], desk: &mut [u8], count: usize) -> Answer
    ensures { left result store.now image.new desk.new
        ≡ burst count (world store.now image.old desk.old) }
{
    if !both_framed(store, &*desk) {
        return Err(Refusal::BadBuffer);
    }
    if !count_allowed(count) {
        return Err(Refusal::BadCount);
    }
    let w = after_lengths(store, &*image, &*desk)?;
    go_on(store, &mut *image, &mut *desk, w, count)
}
