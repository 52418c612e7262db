// The sections' sizes, counted and not written, and their running sums from the back.
#![tactic(auto, using(crate::proofs::Lengths::lengths))]

ghost use Rattle.std.specs.Prelude.{◌≡◌, ◌+◌, ◌*◌, ◌^◌, ◌≤◌, ◌<◌, length};
ghost use Rattle.card.specs.Written.{cat};
ghost use Rattle.card.specs.Starts.{sums_of};
ghost use Rattle.card.specs.Lowered.{of_parts};

use crate::Lowered;
use crate::entries::{Calls, Members, Names, Stores, low_half};
use crate::fields::Entries;
use workspace::layout;
use workspace::words::word;

// Bytes of a section's count.
const COUNT: usize = 4;

// Bytes of an entry; a pair is a post or a hash.
const INSTRUCTION: usize = 8;

const WORD: usize = 4;

const HALF: usize = 2;

const PAIR: usize = 8;

// Without the texts, the path and the starts: a name's hash and its text's length, a member's hash, two lengths and two dots.
const NAME: usize = 10;

const MEMBER: usize = 14;

const STORE: usize = 5;

const CALL: usize = 5;

// Entries of no one size.
trait Measured: Entries {
    // The bytes of entry `i`.
    fn size(&self, i: usize) -> usize
        requires { i < 2 ^ 20 }
        ensures { (result ≡ length (Self.bytes_of self.now i)) × (result ≤ Self.most) };
}

impl Measured for Names<'_> {
    #[tactic(auto, using(crate::proofs::Lengths::lengths), unfolding(crate::specs::Image::name_bytes, crate::specs::Image::text_bytes))]
    fn size(&self, i: usize) -> usize {
        let t = self.0.text(layout::NAMES + 3 * i + 2);
        NAME + usize::from(t.size())
    }
}

impl Measured for Members<'_> {
    #[tactic(auto, using(crate::proofs::Lengths::lengths), unfolding(crate::specs::Image::member_bytes, crate::specs::Image::dotted_bytes))]
    fn size(&self, i: usize) -> usize {
        let t = self.0.text(layout::MEMBERS + 6 * i + 4);
        let u = self.0.text(layout::MEMBERS + 6 * i + 5);
        MEMBER + usize::from(t.size()) + usize::from(u.size())
    }
}

// Two impls of one trait, two lines each: where the count stands and how long one is differ, and each unfolds its own definition.
impl Measured for Stores<'_> {
    #[tactic(auto, using(crate::proofs::Lengths::lengths), unfolding(crate::specs::Image::store_bytes))]
    fn size(&self, i: usize) -> usize {
        let k = word(self.0.ws, layout::STORES + 4 * i + 3);
        STORE + PAIR * usize::from(low_half(k))
    }
}

impl Measured for Calls<'_> {
    #[tactic(auto, using(crate::proofs::Lengths::lengths), unfolding(crate::specs::Image::call_bytes))]
    fn size(&self, i: usize) -> usize {
        let k = word(self.0.ws, layout::CALLS + 4 * i + 2);
        CALL + WORD * usize::from(low_half(k))
    }
}

// The bytes of the first `n` entries. A loop: of `map` and `sum` the check finds neither that it fits nor what it is, which takes an induction over the range.
fn sizes<E: Measured>(entries: &E, n: u16) -> usize
    requires { E.Entries.most < 2 ^ 20 }
    ensures { (result ≡ length (cat (E.Entries.bytes_of entries.now) n)) × (result ≤ 2 ^ 20 * n) }
{
    let mut sum: usize = 0;
    for i in 0..usize::from(n) {
        sum += entries.size(i);
    }
    sum
}

// The running sums of the sections' sizes, from calls to code: each ends with its section.
#[derive(Drop)]
pub(crate) struct Sums {
    pub(crate) code: usize,
    pub(crate) consts: usize,
    pub(crate) posts: usize,
    pub(crate) hashes: usize,
    pub(crate) names: usize,
    pub(crate) temps: usize,
    pub(crate) members: usize,
    pub(crate) stores: usize,
    pub(crate) calls: usize,
}

impl Lowered<'_> {
    // From calls to code, one section more at each step; a post stands in slot 0 too.
    pub(crate) fn sums(self) -> Sums
        ensures { (result ≡ of_parts sums_of self.entry) × (result.code ≤ 2 ^ 44) }
    {
        let c = self.sections;
        let calls = COUNT + sizes(&Calls(self), c.listed.calls);
        let stores = COUNT + sizes(&Stores(self), c.listed.stores) + calls;
        let members = COUNT + sizes(&Members(self), c.pools.members) + stores;
        let temps = COUNT + HALF * usize::from(c.pools.temps) + members;
        let names = COUNT + sizes(&Names(self), c.pools.names) + temps;
        let hashes = COUNT + PAIR * usize::from(c.pools.hashes) + names;
        let posts = COUNT + PAIR * (usize::from(c.pools.posts) + 1) + hashes;
        let consts = COUNT + WORD * usize::from(c.pools.consts) + posts;
        let code = COUNT + INSTRUCTION * (usize::from(c.code) + usize::from(c.finished)) + consts;
        Sums {
            code,
            consts,
            posts,
            hashes,
            names,
            temps,
            members,
            stores,
            calls,
        }
    }
}
