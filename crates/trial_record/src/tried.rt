// What was tried, in numbers.
ghost use Rattle.std.specs.Prelude.{◌≤◌};

// One more than the largest number of a refusal that is counted.
pub const REFUSALS: usize = 19;

// During a copy: moves, entries that were replaced, and those of them whose places the same call filled; inodes and blocks that were in
// use at its start and are another's now. Entries that finished copies owed; files that grew or were cut across 768 bytes from a copy's
// start to its finish, and files above 768 bytes in finished copies. Steps accepted in bursts, copies that a burst finished, and copies
// that it stopped after steps of its own.
#[derive(Clone, Copy)]
pub struct Tried {
    pub lists: u64,
    pub events: u64,
    pub accepted: u64,
    pub refused: [u64; REFUSALS],
    pub finishes: u64,
    pub entries: u64,
    pub moves: u64,
    pub replaced: u64,
    pub refilled: u64,
    pub inodes: u64,
    pub blocks: u64,
    pub crossed: u64,
    pub long: u64,
    pub burst_steps: u64,
    pub burst_finishes: u64,
    pub burst_stops: u64,
}

const ENOUGH: u64 = 1000000000000;

pub fn tally(count: &mut u64, more: usize)
    requires { more ≤ 100000 }
{
    if *count < ENOUGH {
        *count += more as u64;
    }
}

impl Tried {
    pub fn new() -> Tried {
        Tried {
            lists: 0,
            events: 0,
            accepted: 0,
            refused: [0; REFUSALS],
            finishes: 0,
            entries: 0,
            moves: 0,
            replaced: 0,
            refilled: 0,
            inodes: 0,
            blocks: 0,
            crossed: 0,
            long: 0,
            burst_steps: 0,
            burst_finishes: 0,
            burst_stops: 0,
        }
    }
}
