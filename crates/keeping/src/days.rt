// A bit for each day from 2000-01-01 to 2049-12-31, in words of 64.
ghost use Rattle.std.specs.Prelude.{◌≡◌, ◌+◌, ◌<◌};
ghost use Rattle.keeping.specs.Days.{day_bits, noted, noting, noted_after};

pub const DAY_WORDS: usize = 286;

pub fn noted(map: &[u64; DAY_WORDS], day: usize) -> bool
    requires { day < day_bits }
    ensures { result ≡ noted map.now day }
{
    marks::marked(map[day / 64], day % 64)
}

pub fn note(map: &mut [u64; DAY_WORDS], day: usize)
    requires { day < day_bits }
    ensures { map.new ≡ noting map.old day }
{
    map[day / 64] = marks::with_mark(map[day / 64], day % 64);
}

// One of the `count` days after a day is noted.
pub fn noted_after(map: &[u64; DAY_WORDS], day: usize, count: usize) -> bool
    requires { day + count < day_bits }
    ensures { result ≡ noted_after map.now day count }
{
    (0..count).any(|k| noted(map, day + 1 + k))
}
