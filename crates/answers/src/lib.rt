// What calls answer.
#![tactic(auto)]

ghost use Rattle.std.specs.Prelude.{◌≡◌};

// The refusals of document 01, each with its number; those from 17 on are document 02's.
#[derive(Clone, Copy, PartialEq, Eq)]
pub enum Refusal {
    BadBuffer = 1,
    UnsoundStore = 2,
    BadDesk = 3,
    IllegalName = 4,
    WrongInode = 5,
    NameAbsent = 6,
    NameTaken = 7,
    NotEmpty = 8,
    PastEnd = 9,
    IntoItself = 10,
    NoInode = 11,
    NoBlocks = 12,
    NoSlot = 13,
    Busy = 14,
    WrongState = 15,
    ImageFull = 16,
    BadCount = 17,
    KindsDiffer = 18,
    BadTurn = 21,
    NoDate = 23,
    BadTerms = 24,
    AfterAsked = 25,
    BadTimes = 26,
}

// What a call answers: the number that document 01 names for it, 0 where it names none, or a refusal.
pub type Answer = Result<usize, Refusal>;

impl From<Refusal> for usize {
    ghost use Rattle.answers.specs.Refusal.{refusal_number};

    ghost from_gives = { λ e n. n ≡ refusal_number e };

    fn from(refusal: Refusal) -> usize {
        refusal as usize
    }
}
