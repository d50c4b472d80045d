// The bytes of a store or an image before its blocks: header and inodes.
#![tactic(auto)]

pub mod header;
pub mod inode;
pub mod sizes;
