// The entries of directories, looked up, made, linked, unlinked and renamed: what a call is to do, decided before any byte changes, and the bytes that it leaves.
#![tactic(auto)]

pub mod apply;
pub mod plan;

// Where a new entry goes: a slot, and the block that the directory takes first, if it needs one.
#[derive(Clone, Copy)]
pub struct Room {
    pub slot: usize,
    pub block: Option<usize>,
}

// What a create is to do: the inode that it makes, and where its entry goes.
#[derive(Clone, Copy)]
pub struct CreatePlan {
    pub inode: usize,
    pub room: Room,
}

// What an unlink is to do: the slot that it empties, and the inode that it names.
#[derive(Clone, Copy)]
pub struct UnlinkPlan {
    pub slot: usize,
    pub inode: usize,
}

// What a rename is to do: the slot and its inode get another name; or the entry goes to another directory.
#[derive(Clone, Copy)]
pub enum RenamePlan {
    Rename {
        slot: usize,
        inode: usize,
    },
    Move {
        slot: usize,
        inode: usize,
        room: Room,
    },
}

// Rename onto a name that another entry has: the holder's entry goes, and inode has the name; or both names stand for inode already.
#[derive(Clone, Copy)]
pub enum OverPlan {
    Over { inode: usize, holder: usize },
    Same { inode: usize },
}

// What a created inode is to be.
#[derive(Clone, Copy)]
pub enum Kind {
    File,
    Directory,
}
