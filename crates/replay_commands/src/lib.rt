// The command lines of the vectors: what a line asks for, and the line that answers it. All on slices; what comes from outside may be any bytes.
#![tactic(auto)]

pub mod answer;
pub mod parse;

// A file call but a read, with its numbers; a name or bytes stand in a lent buffer, here is their count.
#[derive(Clone, Copy)]
pub enum Call {
    LookUp(usize, usize),
    CreateFile(usize, usize),
    CreateDirectory(usize, usize),
    Write(usize, usize, usize),
    Shorten(usize, usize),
    Link(usize, usize, usize),
    Unlink(usize, usize),
    Rename(usize, usize, usize, usize),
    RenameNew(usize, usize, usize, usize),
}

// What a command asks for. `Bad` is no command.
#[derive(Clone, Copy)]
pub enum Command {
    New(usize, usize, usize),
    PokeStore(usize, usize),
    PokeImage(usize, usize),
    PokeDesk(usize, usize),
    LayStore(usize, usize),
    LayDesk(usize),
    CheckStore,
    CheckImage,
    Read(usize, usize, usize),
    File(Call),
    Start,
    Step,
    Burst(usize),
    Ask,
    Bad,
}

// What a command answers, in numbers. `Laid` has those of the two layout calls, `Shown` a read's count and how many bytes of its out-buffer are
// shown, `Asked` state, locked inode and steps.
#[derive(Clone, Copy)]
pub enum Reply {
    Error,
    Plain,
    Yes,
    No,
    Done(usize),
    Refused(usize),
    Laid(usize, usize),
    Shown(usize, usize),
    Asked(usize, usize, usize),
}

// The checksums of store, image and desk.
#[derive(Clone, Copy)]
pub struct Sums {
    pub store: u64,
    pub image: u64,
    pub desk: u64,
}
