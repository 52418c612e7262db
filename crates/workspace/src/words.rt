// Words of the workspace, and what is made of them. Past the end a word reads 0, and nothing is written.
ghost use Rattle.std.specs.Prelude.{◌≡◌, [], ◌∷◌, get_or, set};
ghost use Rattle.std.proofs.lemmas.List.Edits.{sets};
ghost use Rattle.workspace.specs.Words.{plus, high, low};

pub fn word(ws: &[u32], at: usize) -> u32
    ensures { result ≡ get_or ws.now at 0 }
{
    ws.get(at).copied().unwrap_or(0)
}

// A test and a store: of a slice's `get_mut` the library says how long the slice stays, and no element.
// A byte's `put` in endian is the same: neither crate knows the other, so they are two.
pub fn put_word(ws: &mut [u32], at: usize, w: u32)
    ensures { ws.new ≡ set ws.old at w }
{
    if at < ws.len() {
        ws[at] = w;
    }
}

// Two words, one behind the other. The test keeps `at + 1` from wrapping; the compiler makes it one with the first word's.
pub fn put_pair(ws: &mut [u32], at: usize, a: u32, b: u32)
    ensures { ws.new ≡ sets ws.old at (a ∷ b ∷ []) }
{
    if at < ws.len() {
        put_word(ws, at, a);
        put_word(ws, at + 1, b);
    }
}

// A target with a start added: the library's method, under the name that the definitions have.
pub fn plus(a: u32, b: u32) -> u32
    ensures { result ≡ plus a b }
{
    a.wrapping_add(b)
}

// The two words of a hash. `as` cuts a number that fits: a `try_from` would have a case that never comes.
pub fn high(h: u64) -> u32
    ensures { result ≡ high h }
{
    (h >> 32) as u32
}

pub fn low(h: u64) -> u32
    ensures { result ≡ low h }
{
    (h & 0xffff_ffff) as u32
}
