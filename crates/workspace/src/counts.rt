// Counts of 16 bits, of which one that would be more than 65535 stays there; and how many entries of the lent workspace's regions are in use.
ghost use Rattle.std.specs.Prelude.{◌≡◌};
ghost use Rattle.workspace.specs.Counts.{sum};

// A count and another: the library's sum that does not wrap.
pub fn sum(a: u16, b: u16) -> u16
    ensures { result ≡ sum a b }
{
    a.saturating_add(b)
}

pub fn one_more(n: u16) -> u16
    ensures { result ≡ sum n 1 }
{
    sum(n, 1)
}

// Of each pool: an entry is looked up by its key before it is added.
#[derive(Clone, Copy, Drop)]
pub struct Pools {
    pub consts: u16,
    pub posts: u16,
    pub hashes: u16,
    pub names: u16,
    pub temps: u16,
    pub members: u16,
}

impl Pools {
    pub const EMPTY: Pools = Pools {
        consts: 0,
        posts: 0,
        hashes: 0,
        names: 0,
        temps: 0,
        members: 0,
    };
}

// Of what is added and never merged.
#[derive(Clone, Copy, Drop)]
pub struct Listed {
    pub stores: u16,
    pub paths: u16,
    pub calls: u16,
    pub arguments: u16,
}

impl Listed {
    pub const EMPTY: Listed = Listed {
        stores: 0,
        paths: 0,
        calls: 0,
        arguments: 0,
    };
}
