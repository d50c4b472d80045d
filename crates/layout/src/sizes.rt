// The numbers of document 01's "Bytes" and of F-1, each under one name.
pub const HEADER_BYTES: usize = 16;

pub const MOST_INODES: usize = 256;

pub const MOST_STORE_BLOCKS: usize = 1024;

pub const MOST_IMAGE_BLOCKS: usize = 4096;

// A place for each inode by its number, which starts at 1, so that place 0 stands for none.
pub const INODE_PLACES: usize = MOST_INODES + 1;

pub const ATTRIBUTE_BYTES: usize = 8;

pub const ADDRESS_COUNT: usize = 12;

pub const ADDRESS_BYTES: usize = 2 * ADDRESS_COUNT;

pub const INODE_BYTES: usize = ATTRIBUTE_BYTES + ADDRESS_BYTES;

pub const BLOCK_BYTES: usize = 64;

pub const FURTHER_COUNT: usize = 32;

// The most blocks of an inode, from which other limits follow.
pub const MOST_BLOCKS: usize = ADDRESS_COUNT + FURTHER_COUNT;

pub const ADDRESS_PLACE: usize = ADDRESS_COUNT - 1;

pub const MOST_DIRECT_BYTES: usize = BLOCK_BYTES * ADDRESS_COUNT;

pub const MOST_FILE_BYTES: usize = BLOCK_BYTES * (MOST_BLOCKS - 1);

pub const MOST_DIRECTORY_BLOCKS: usize = 12;

pub const MOST_DIRECTORY_BYTES: usize = BLOCK_BYTES * MOST_DIRECTORY_BLOCKS;

// Bytes and no enum: any byte can stand in a store, and `kind`, `is_kind` and the inode's record
// promise it as it stands.
pub const FREE: u8 = 0;

pub const FILE: u8 = 1;

pub const DIRECTORY: u8 = 2;

pub const ROOT: usize = 1;

// Byte 8 of a store or a finished image, and of one whose copy runs.
pub const COMPLETE: u8 = 1;

pub const NOT_COMPLETE: u8 = 0;
