// Fields of the image: numbers behind one another, and runs of them.
#![tactic(auto, using(crate::proofs::Join::writing))]

ghost use Rattle.std.specs.Prelude.{◌≡◌, List, [], ℕ, ◌+◌, ◌*◌, ◌^◌, ◌≤◌, ◌<◌};
ghost use Rattle.wire.specs.Bytes.{be};
ghost use Rattle.card.specs.Written.{Wrote, cat};
ghost use Rattle.card.specs.Puts.{Room, Puts};
ghost use Rattle.card.specs.Image.{word_entry, byte_entry};

use endian::Field;
use workspace::words::{plus, word};

// The output, and the place of the next byte. What lies past the end of the output is not written. How much room a call asks for differs from call to
// call, so it is asked (`Room`), and is no invariant.
#[derive(Drop)]
pub(crate) struct Writer<'a> {
    pub(crate) out: &'a mut [u8],
    pub(crate) at: usize,
}

impl Writer<'_> {
    // A number of N bytes, which are as many as its type has.
    pub(crate) fn put<const N: usize, F: Field<N>>(&mut self, n: F)
        requires { Room self.old N }
        ensures { Puts self.old self.new (be N (F.number n) []) N }
    {
        n.put(self.out, self.at);
        self.at += N;
    }

    // The first `n` entries, one behind the other: by a writer of its own, whose place the compiler keeps in a register.
    pub(crate) fn all<E: Entries>(&mut self, entries: &E, n: usize)
        requires { (n < 2 ^ 20) × Room self.old (E.most * n) }
        ensures { Puts self.old self.new (cat (E.bytes_of entries.now) n) (E.most * n) }
    {
        let mut w = Writer {
            out: self.out,
            at: self.at,
        };
        for i in 0..n {
            entries.put(i, &mut w);
        }
        self.at = w.at;
    }

    // The `n` bytes of the tree image from `from` on, in one run where they have their place.
    pub(crate) fn bytes(&mut self, tree: &[u8], from: usize, n: u8)
        requires { Room self.old n }
        ensures { Puts self.old self.new (cat (byte_entry tree.now from) n) n }
    {
        let k = usize::from(n);
        let at = self.at;
        let (size, room) = (tree.len(), self.out.len());
        if from <= size && k <= size - from && at <= room && k <= room - at {
            self.out[at..at + k].copy_from_slice(&tree[from..from + k]);
            self.at += k;
        } else {
            self.all(&Bytes { tree, from }, k);
        }
    }
}

// Entries of one kind: the bytes of each, and how many it has at most.
pub(crate) trait Entries {
    ghost bytes_of: { Self → ℕ → List ℕ };

    ghost most: { ℕ };

    fn put(&self, i: usize, out: &mut Writer<'_>)
        requires { (i < 2 ^ 20) × Room out.old most }
        ensures { Puts out.old out.new (bytes_of self.now i) most };
}

// Entries of N words, the first at `from`; `base` is what is added to an entry's place.
#[derive(Drop)]
pub(crate) struct Run<'a, const N: usize> {
    pub(crate) ws: &'a [u32],
    pub(crate) from: usize,
    pub(crate) base: u32,
    ghost near: { from < 2 ^ 40 },
}

// The words from `from` on, `base` added to each.
pub(crate) type Words<'a> = Run<'a, 1>;

impl Entries for Run<'_, 1> {
    ghost bytes_of = { λ s. word_entry s.ws.now s.from s.base };

    ghost most = { 4 };

    fn put(&self, i: usize, out: &mut Writer<'_>) {
        let w = word(self.ws, self.from + i);
        let v = plus(w, self.base);
        out.put(v);
    }
}

// The bytes of the tree image from `from` on.
#[derive(Drop)]
struct Bytes<'a> {
    tree: &'a [u8],
    from: usize,
}

impl Entries for Bytes<'_> {
    ghost bytes_of = { λ s. byte_entry s.tree.now s.from };

    ghost most = { 1 };

    fn put(&self, i: usize, out: &mut Writer<'_>) {
        let b = wire::get_u8(self.tree, self.from, i);
        out.put(b);
    }
}
