// The header of a tree image: its fields, and the bytes and levels that an image may have.
// The byte at place 0.
pub const VERSION: u8 = 1;

// Where the length of all that follows stands, the two setting bytes, and the root node.
pub const REST: u16 = 1;

pub const ARRAYS: usize = 5;

pub const DIVISOR: usize = 6;

pub const ROOT: usize = 7;

// The bytes of an image; the shortest has a version and a length alone.
pub const SHORTEST: usize = 5;

pub const LONGEST: usize = 6144;

// The levels of an accepted tree.
pub const LEVELS: u16 = 31;

// A node takes 16 bytes or more, so the longest image holds no more levels.
pub const ALL_LEVELS: u16 = 383;
