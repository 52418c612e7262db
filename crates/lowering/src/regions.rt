// The regions that lowering fills with entries.
ghost use Rattle.std.specs.Prelude.{◌^◌, ◌<◌, ◌≤◌};

use workspace::layout;

// A region of entries of WIDTH words, the first KEY of which are the key: where it begins, below 65,536, so that no place in it wraps, and the entries it
// has room for.
#[derive(Clone, Copy, Drop)]
pub(crate) struct Region<const WIDTH: usize, const KEY: usize> {
    pub(crate) from: usize,
    pub(crate) room: u16,
    ghost low: { from < 2 ^ 16 },
    ghost small: { WIDTH < 8 },
    ghost within: { KEY ≤ WIDTH },
}

// Bits and mark are the key.
pub(crate) const CONSTS: Region<2, 2> = Region {
    from: layout::CONSTS,
    room: layout::CONSTS_ROOM,
};

pub(crate) const POSTS: Region<2, 2> = Region {
    from: layout::POSTS,
    room: layout::POSTS_ROOM,
};

pub(crate) const HASHES: Region<2, 2> = Region {
    from: layout::HASHES,
    room: layout::HASHES_ROOM,
};

// The hash is the key.
pub(crate) const NAMES: Region<3, 2> = Region {
    from: layout::NAMES,
    room: layout::NAMES_ROOM,
};

pub(crate) const TEMPS: Region<1, 1> = Region {
    from: layout::TEMPS,
    room: layout::TEMPS_ROOM,
};

// The two hashes are the key.
pub(crate) const MEMBERS: Region<6, 4> = Region {
    from: layout::MEMBERS,
    room: layout::MEMBERS_ROOM,
};

// Stores, paths and calls are appended only.
pub(crate) const STORES: Region<4, 0> = Region {
    from: layout::STORES,
    room: layout::STORES_ROOM,
};

pub(crate) const PATHS: Region<2, 0> = Region {
    from: layout::PATHS,
    room: layout::PATHS_ROOM,
};

pub(crate) const CALLS: Region<4, 0> = Region {
    from: layout::CALLS,
    room: layout::CALLS_ROOM,
};
