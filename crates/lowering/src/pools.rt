// Entries in regions of a workspace of words: found by key, appended, interned. Past the end a word reads 0, and nothing is written.
ghost use Rattle.std.specs.Prelude.{◌≡◌, true, ◌+◌, ◌-◌, ◌*◌, ◌<◌, ◌≤◌, length, take};
ghost use Rattle.std.proofs.lemmas.List.Edits.{sets};
ghost use Rattle.lowering.specs.Search.{hit, Finds, NoneHas, NoneIs};
ghost use Rattle.lowering.specs.Regions.{Appends, Interns};

use crate::regions::Region;
use workspace::words::{put_word, word};

// Whether none of `STEP` words from a place on, `WIDTH` apart, is the key. All are compared, with no branch between them: a branch at each is slower, by a
// third on constants.
fn none_is<const WIDTH: usize, const STEP: u16>(ws: &[u32], at: usize, key: u32) -> bool
    requires { at + WIDTH * (STEP - 1) < length ws.now }
    ensures { NoneIs ws.now at WIDTH key STEP result }
{
    let mut some = false;
    for i in 0..STEP {
        some |= ws[at + WIDTH * usize::from(i)] == key;
    }
    !some
}

// The words and the key go side by side: `append` and `intern` change the words, so no one value holds both.
impl<const WIDTH: usize, const KEY: usize> Region<WIDTH, KEY> {
    // The place of an entry.
    fn place(&self, i: u16) -> usize
        ensures { result ≡ self.now.from + WIDTH * i }
    {
        self.from + WIDTH * usize::from(i)
    }

    // Whether an entry has the key of the one given. A `for` here and in `none_has`: tried `all` and `any` over the places, whose closures need clauses of
    // their own, so that both are longer, with their proofs.
    fn has_key(&self, ws: &[u32], i: u16, words: &[u32; WIDTH]) -> bool
        ensures { result ≡ hit ws.now self.now.from WIDTH (take KEY words.now) i }
    {
        let at = self.place(i);
        for j in 0..KEY {
            if word(ws, at + j) != words[j] {
                return false;
            }
        }
        true
    }

    // Whether one word of the key is in none of `STEP` entries.
    fn none_has<const STEP: u16>(&self, ws: &[u32], i: u16, words: &[u32; WIDTH]) -> bool
        requires { (0 < STEP) × (self.now.from + WIDTH * (i + STEP) ≤ length ws.now) }
        ensures { result ≡ true → NoneHas (hit ws.now self.now.from WIDTH (take KEY words.now)) i (i + STEP) }
    {
        let at = self.place(i);
        for j in 0..KEY {
            if none_is::<WIDTH, STEP>(ws, at + j, words[j]) {
                return true;
            }
        }
        false
    }

    // How many of `n` entries are passed, `STEP` at a time and from step `first` on, with none of that key among them. A `for`: tried `find` over the steps,
    // by which constants are slower.
    fn skip<const STEP: u16>(&self, ws: &[u32], first: u16, n: u16, words: &[u32; WIDTH]) -> u16
        requires { 0 < STEP }
        ensures { (result ≤ n) × NoneHas (hit ws.now self.now.from WIDTH (take KEY words.now)) (STEP * first) result }
    {
        if ws.len() < self.place(n) {
            return 0;
        }
        for k in first..n / STEP {
            if !self.none_has::<STEP>(ws, STEP * k, words) {
                return STEP * k;
            }
        }
        STEP * (n / STEP)
    }

    // The number of the first of `n` entries that has the key of the one given, as `seek` has it; none has the key where `seek` comes to `n`. Entries are
    // passed by 64, then by eight: by eight alone constants take 15 % more instructions. A `for`: tried `find` over the range, by which constants are slower.
    fn find(&self, ws: &[u32], n: u16, words: &[u32; WIDTH]) -> Option<u16>
        ensures { Finds (hit ws.now self.now.from WIDTH (take KEY words.now)) n result }
    {
        let far = self.skip::<64>(ws, 0, n, words);
        for i in self.skip::<8>(ws, far / 8, n, words)..n {
            if self.has_key(ws, i, words) {
                return Some(i);
            }
        }
        None
    }

    // An entry after the `n` there are, if there is room: the number that it takes.
    #[tactic(auto, unfolding(crate::specs::Regions::appended_count, crate::specs::Regions::appended_words))]
    pub(crate) fn append(&self, ws: &mut [u32], n: &mut u16, words: &[u32; WIDTH]) -> u16
        ensures { Appends n.old self.now.room ws.old (self.now.from + WIDTH * n.old) words.now ws.new n.new × (result ≡ n.old) }
    {
        let i = *n;
        if i < self.room {
            let at = self.place(i);
            for (j, w) in words.iter().enumerate() {
                put_word(ws, at + j, *w);
            }
            *n = i + 1;
        }
        i
    }

    // The number of the first of the `n` entries with that key: found, or appended if there is room. A key that is not found gives the number that the
    // appended entry takes, so a caller asks for no case. The hint has the callers for one word take it in: without it `expr` takes in `leaf`, and equal
    // strings are slower.
    #[inline]
    #[tactic(auto, unfolding(crate::specs::Regions::interned_count, crate::specs::Regions::interned_words))]
    pub(crate) fn intern(&self, ws: &mut [u32], n: &mut u16, words: &[u32; WIDTH]) -> u16
        ensures { Interns (hit ws.old self.now.from WIDTH (take KEY words.now)) n.old self.now.room ws.old (self.now.from + WIDTH * n.old) words.now ws.new
            result n.new }
    {
        match self.find(ws, *n, words) {
            Some(i) => i,
            None => self.append(ws, n, words),
        }
    }
}
