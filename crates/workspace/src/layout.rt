// The regions of the lent workspace, one behind the other: the word at which each begins, the entries it has room for, and what an entry is.
// Each is a constant of its own, since code, clauses and specs/Layout cite each by its name, and most use a place without its room.

// The open code: instructions of 2 words.
pub const OPEN: usize = 0;

// The finished argument code: instructions of 2 words.
pub const FINISHED: usize = 4096;

// The instructions that each of these two has room for.
pub const CODE_ROOM: u16 = 2048;

// Constants: 2 words, bits and mark.
pub const CONSTS: usize = 8192;

pub const CONSTS_ROOM: u16 = 384;

// Posts but slot 0: 2 words, scale and offset.
pub const POSTS: usize = 8960;

pub const POSTS_ROOM: u16 = 384;

// Hashes: 2 words, high and low.
pub const HASHES: usize = 9728;

pub const HASHES_ROOM: u16 = 384;

// Names: 3 words, the hash's two and the place of the text's length byte in the tree image.
pub const NAMES: usize = 10496;

pub const NAMES_ROOM: u16 = 256;

// Temps: 1 word, the name's index.
pub const TEMPS: usize = 11264;

pub const TEMPS_ROOM: u16 = 256;

// Members: 6 words, the own hash's two, the last hash's two, and the places of both texts' length bytes.
pub const MEMBERS: usize = 11520;

pub const MEMBERS_ROOM: u16 = 256;

// Stores: 4 words, the root's kind, its index, the first path entry and their count.
pub const STORES: usize = 13056;

pub const STORES_ROOM: u16 = 192;

// The stores' paths: 2 words, a hash.
pub const PATHS: usize = 13824;

pub const PATHS_ROOM: u16 = 256;

// Calls: 4 words, the index, impl_idx, the argument count and the first argument.
pub const CALLS: usize = 14336;

pub const CALLS_ROOM: u16 = 384;

// The calls' arguments: 1 word, the start, counted from the start of the argument code.
pub const ARGUMENTS: usize = 15872;

pub const ARGUMENTS_ROOM: u16 = 384;

// The words that a workspace must have.
pub const WORDS: usize = 16384;
