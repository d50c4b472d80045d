// Lap times of a watch against those of the track's timing mat.
#![tactic(auto)]

ghost use Rattle.std.specs.Prelude.{◌≡◌, ◌&&◌, ◌+◌, ◌-◌, ◌<◌, ◌≤◌, ltb, length};
ghost use Rattle.octets.specs.Octets.{pasted};
ghost use Rattle.laps.specs.Times.{most_apart, rising, allowed};
ghost use Rattle.laps.specs.Walk.{lists, report};
ghost use Rattle.laps.specs.Call.{room_for, Room, over, left, match_laps};

use answers::{Answer, Refusal};

const MOST_TIMES: usize = 512;

const MOST_APART: u64 = 50;

// ---- what is looked at before anything is written
fn rising(times: &[u32]) -> bool
    ensures { result ≡ rising times.now }
{
    times.is_sorted_by(|a, b| a < b)
}

fn allowed(times: &[u32]) -> bool
    ensures { result ≡ allowed times.now }
{
    times.len() <= MOST_TIMES && rising(times)
}

fn room_for(times: &[u32], pairs: &[u32], alone: &[u32]) -> bool
    ensures { result ≡ room_for times.now pairs.now alone.now }
{
    times.len() <= pairs.len() && times.len() <= alone.len()
}

// ---- the walk
// Too early to be paired with b. Counted in 64 bits: times don't wrap.
fn too_early(a: u32, b: u32) -> bool
    ensures { result ≡ ltb (a + most_apart) b }
{
    u64::from(a) + MOST_APART < u64::from(b)
}

// What is left of a list, from a place on, goes to the place `to` of out. By a loop: the library's file may
// want no memmove from outside, which copy_from_slice compiles to.
fn set_aside(times: &[u32], from: usize, out: &mut [u32], to: usize)
    requires { (from ≤ length times.now) × (to + (length times.now - from) ≤ length out.old) }
    ensures { out.new ≡ pasted out.old to times.now from (length times.now - from) }
{
    for k in 0..times.len() - from {
        out[to + k] = times[from + k];
    }
}

// Of the i watch times and j mat times behind it the walk has paired p, and set aside i - p and j - p. By
// three counts: each list goes on at its own pace, and an iterator peeked at would need the same counts for
// the places written to. The four lists are handed on as C lends them: a struct would be taken apart at once.
fn walk(
    watch: &[u32],
    mat: &[u32],
    paired_watch: &mut [u32],
    paired_mat: &mut [u32],
    alone_watch: &mut [u32],
    alone_mat: &mut [u32],
) -> usize
    requires { Room watch.now mat.now (lists paired_watch.old paired_mat.old alone_watch.old alone_mat.old) }
    ensures value { result ≡ length (report watch.now mat.now).paired_watch }
    ensures alone_mat_after { lists paired_watch.new paired_mat.new alone_watch.new alone_mat.new
        ≡ over (report watch.now mat.now) (lists paired_watch.old paired_mat.old alone_watch.old alone_mat.old) }
{
    let mut p: usize = 0;
    let mut i: usize = 0;
    let mut j: usize = 0;
    while i < watch.len() && j < mat.len() {
        let a = watch[i];
        let b = mat[j];
        if too_early(a, b) {
            alone_watch[i - p] = a;
            i += 1;
        } else if too_early(b, a) {
            alone_mat[j - p] = b;
            j += 1;
        } else {
            paired_watch[p] = a;
            paired_mat[p] = b;
            p += 1;
            i += 1;
            j += 1;
        }
    }
    set_aside(watch, i, alone_watch, i - p);
    set_aside(mat, j, alone_mat, j - p);
    p
}

// Answers the number of pairs. The pairs go to the fronts of two lists, the unmatched times to those of
// two others.
pub fn match_laps(
    watch: &[u32],
    mat: &[u32],
    paired_watch: &mut [u32],
    paired_mat: &mut [u32],
    alone_watch: &mut [u32],
    alone_mat: &mut [u32],
) -> Answer
    ensures { left result (lists paired_watch.new paired_mat.new alone_watch.new alone_mat.new)
        ≡ match_laps watch.now mat.now (lists paired_watch.old paired_mat.old alone_watch.old alone_mat.old) }
{
    if !allowed(watch) {
        return Err(Refusal::BadTimes);
    }
    if !allowed(mat) {
        return Err(Refusal::BadTimes);
    }
    if !room_for(watch, paired_watch, alone_watch) {
        return Err(Refusal::BadBuffer);
    }
    if !room_for(mat, paired_mat, alone_mat) {
        return Err(Refusal::BadBuffer);
    }
    Ok(walk(watch, mat, paired_watch, paired_mat, alone_watch, alone_mat))
}
