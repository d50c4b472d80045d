// The 64-bit mark word of a directory, by shift and mask: one bit for each slot.
#![tactic(auto)]

ghost use Rattle.std.specs.Prelude.{◌≡◌, ◌<◌};
ghost use Rattle.marks.specs.Mark.{mark_bits, marked, with_mark, without_mark};

pub fn marked(w: u64, slot: usize) -> bool
    requires { slot < mark_bits }
    ensures { result ≡ marked w slot }
{
    (w >> slot) & 1 == 1
}

pub fn with_mark(w: u64, slot: usize) -> u64
    requires { slot < mark_bits }
    ensures { result ≡ with_mark w slot }
{
    w | (1u64 << slot)
}

pub fn without_mark(w: u64, slot: usize) -> u64
    requires { slot < mark_bits }
    ensures { result ≡ without_mark w slot }
{
    w & !(1u64 << slot)
}
